// Writes an answer through the host's pointers, and returns its refusal number, or 0.
pub mod of_alike;
pub mod of_readings;

ghost use Rattle.std.specs.Prelude.{◌≡◌, pos};
ghost use Rattle.refusals.specs.Outcome.{Gives, changed, outcome_in};
ghost use Rattle.counts.specs.Answers.{duration_in};
ghost use Rattle.counts.specs.Units.{parts_of};
ghost use Rattle.civil.specs.Fields.{fields};
ghost use Rattle.tables.specs.Answers.{taken_in, entry_in, update_in, dated_in};
ghost use Rattle.tables.specs.Entries.{entry, threshold};
ghost use Rattle.plaitgate.specs.Tables.{bit, dated_as, with_stale, found_as, found_entry, found_count};
ghost use Rattle.std.proofs.Math.Option.{none};

use civil::CivilDateTime;
use counts::Duration;
use counts::units::DurationParts;
use refusals::Refusal;
use scales::scale::Scale;
use scales::tai::Tai;
use tables::{Dated, LeapEntry};

// The refusal's number, 0 for an answer, and the value that a host is given: zeros with a refusal.
fn told<T: Copy>(answer: Result<T, Refusal>, zeros: T) -> (u32, T)
    ensures { Gives zeros (outcome_in answer) result.0 result.1 }
{
    match answer {
        Ok(value) => (0, value),
        Err(why) => (why.number(), zeros),
    }
}

pub fn value<T: Copy>(answer: Result<T, Refusal>, zero: T, out: &mut T) -> u32
    ensures { Gives zero (outcome_in answer) result out.new }
{
    let (number, value) = told(answer, zero);
    *out = value;
    number
}

// The count on a scale.
pub fn count<S: Scale>(answer: Result<S, Refusal>, out: &mut u64) -> u32
    ensures { Gives 0 (changed S.count (outcome_in answer)) result out.new }
{
    value(answer.map(|t| t.as_nanos()), 0, out)
}

pub fn duration(answer: Result<Duration, Refusal>, out: &mut i64) -> u32
    ensures { Gives (pos 0) (duration_in answer) result out.new }
{
    value(answer.map(|d| d.0), 0, out)
}

pub fn parts(answer: Result<DurationParts, Refusal>, seconds: &mut u64, nanos: &mut u32) -> u32
    ensures { Gives (parts_of 0) (outcome_in answer) result
        (record { seconds = seconds.new; nanos = nanos.new }) }
{
    let (number, parts) = told(
        answer,
        DurationParts {
            seconds: 0,
            nanos: 0,
        },
    );
    *seconds = parts.seconds;
    *nanos = parts.nanos;
    number
}

pub fn length(answer: Result<usize, Refusal>, out: &mut u64) -> u32
    ensures { Gives 0 (outcome_in answer) result out.new }
{
    value(answer.map(|n| n as u64), 0, out)
}

pub fn emptiness(answer: Result<bool, Refusal>, out: &mut u8) -> u32
    ensures { Gives 0 (changed bit (outcome_in answer)) result out.new }
{
    value(answer.map(byte), 0, out)
}

// The threshold of an event's entry, whose offset the host has.
pub fn threshold(answer: Result<LeapEntry, Refusal>, out: &mut u64) -> u32
    ensures { Gives 0 (changed threshold (outcome_in answer)) result out.new }
{
    value(answer.map(|e| e.tai_nanos), 0, out)
}

pub fn taken(answer: Result<(), Refusal>) -> u32
    ensures { result ≡ taken_in answer }
{
    match answer {
        Ok(()) => 0,
        Err(why) => why.number(),
    }
}

pub fn byte(yes: bool) -> u8
    ensures { result ≡ bit yes }
{
    yes as u8
}

pub fn entry(
    answer: Result<Option<LeapEntry>, Refusal>,
    found: &mut u8,
    tai_nanos: &mut u64,
    tai_minus_utc: &mut i32,
) -> u32
    ensures { Gives (found_entry none) (changed found_entry (entry_in answer)) result
        (found_as found.new (entry tai_nanos.new tai_minus_utc.new)) }
{
    let (number, there) = told(answer, None);
    let e = there.unwrap_or(LeapEntry::new(0, 0));
    *found = byte(there.is_some());
    *tai_nanos = e.tai_nanos;
    *tai_minus_utc = e.tai_minus_utc;
    number
}

pub fn update(answer: Result<Option<Tai>, Refusal>, found: &mut u8, tai: &mut u64) -> u32
    ensures { Gives (found_count none) (changed found_count (update_in answer)) result
        (found_as found.new tai.new) }
{
    let (number, there) = told(answer, None);
    *found = byte(there.is_some());
    *tai = there.map_or(0, |t| t.0);
    number
}

// The same by a table, and 1 where the table is stale.
fn told_by_table<T: Copy>(found: Dated<T>, zeros: T) -> (u32, T, u8)
    ensures { Gives (dated_as zeros 0) (with_stale (dated_in found)) result.0 (dated_as result.1 result.2) }
{
    match found.answer {
        Ok(value) => (0, value, byte(found.stale)),
        Err(why) => (why.number(), zeros, 0),
    }
}

// By a table: the last byte is 1 where the table is stale.
pub fn dated<T: Copy>(found: Dated<T>, zero: T, out: &mut T, stale: &mut u8) -> u32
    ensures { Gives (dated_as zero 0) (with_stale (dated_in found)) result (dated_as out.new stale.new) }
{
    let (number, value, old) = told_by_table(found, zero);
    *out = value;
    *stale = old;
    number
}

// C takes the fields one by one.
pub fn civil(
    c: CivilDateTime,
    year: &mut i32,
    month: &mut u8,
    day: &mut u8,
    hour: &mut u8,
    minute: &mut u8,
    second: &mut u8,
    nanos: &mut u32,
)
    ensures { fields year.new month.new day.new hour.new
        minute.new second.new nanos.new ≡ c }
{
    *year = c.year;
    *month = c.month;
    *day = c.day;
    *hour = c.hour;
    *minute = c.minute;
    *second = c.second;
    *nanos = c.nanos;
}
