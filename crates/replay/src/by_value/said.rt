// The answers of the calls by value, as the refusal's number and results.
use crate::reply::Reply;
use calendar::CivilDate;
use civil::CivilDateTime;
use counts::Duration;
use counts::units::DurationParts;
use refusals::Refusal;
use scales::scale::Scale;
use scales::tai::Tai;
use tables::{Dated, LeapEntry};

pub fn count_on<S: Scale>(t: S) -> Reply {
    Reply::one(0, t.as_nanos())
}

pub fn on_scale<S: Scale>(answer: Result<S, Refusal>) -> Reply {
    answer.map_or_else(Reply::refused, count_on)
}

pub fn count(answer: Result<u64, Refusal>) -> Reply {
    answer.map_or_else(Reply::refused, |n| Reply::one(0, n))
}

// Seconds, days or nanoseconds with a sign.
pub fn span(answer: Result<i64, Refusal>) -> Reply {
    answer.map_or_else(Reply::refused, |n| Reply::signed(0, n))
}

pub fn offset(answer: Result<i32, Refusal>) -> Reply {
    span(answer.map(|seconds| seconds as i64))
}

pub fn duration(answer: Result<Duration, Refusal>) -> Reply {
    span(answer.map(|d| d.0))
}

pub fn parts(p: DurationParts) -> Reply {
    Reply::two(0, p.seconds, p.nanos as u64)
}

pub fn checked_parts(answer: Result<DurationParts, Refusal>) -> Reply {
    answer.map_or_else(Reply::refused, parts)
}

pub fn yes(answer: bool) -> Reply {
    Reply::one(0, answer as u64)
}

pub fn date(d: CivilDate) -> Reply {
    Reply::date(0, d.year, d.month, d.day)
}

pub fn civil(c: CivilDateTime) -> Reply {
    Reply::civil(0, c)
}

pub fn taken(answer: Result<(), Refusal>) -> Reply {
    count(answer.map(|_| 0))
}

pub fn length(answer: Result<usize, Refusal>) -> Reply {
    count(answer.map(|n| n as u64))
}

pub fn emptiness(answer: Result<bool, Refusal>) -> Reply {
    answer.map_or_else(Reply::refused, yes)
}

pub fn entry(answer: Result<Option<LeapEntry>, Refusal>) -> Reply {
    match answer {
        Ok(Some(e)) => Reply::entry(0, 1, e.tai_nanos, e.tai_minus_utc),
        Ok(None) => Reply::one(0, 0),
        Err(why) => Reply::refused(why),
    }
}

pub fn update(answer: Result<Option<Tai>, Refusal>) -> Reply {
    match answer {
        Ok(Some(t)) => Reply::two(0, 1, t.0),
        Ok(None) => Reply::one(0, 0),
        Err(why) => Reply::refused(why),
    }
}

// By a table, and whether it is stale.
pub fn dated<S: Scale>(found: Dated<S>) -> Reply {
    on_scale(found.answer).dated(found.stale as u8)
}

pub fn dated_span(found: Dated<i64>) -> Reply {
    span(found.answer).dated(found.stale as u8)
}

pub fn dated_offset(found: Dated<i32>) -> Reply {
    offset(found.answer).dated(found.stale as u8)
}
