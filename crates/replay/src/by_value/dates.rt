// Questions about dates and civil times, by value.
use crate::by_value::said;
use crate::reply::{Question, Reply};
use calendar::CivilDate;
use civil::CivilDateTime;
use scales::utc::Utc;

pub fn dates(call: u64, q: Question) -> Reply {
    let date = CivilDate::new(q.x.narrow(), q.y.byte(), q.z.byte());
    let other = CivilDate::new(q.fourth.narrow(), q.fifth.byte(), q.sixth.byte());
    match call {
        1 => said::date(date),
        2 => said::span(date.days_from_unix()),
        3 => said::span(date.days_until(other)),
        4 => said::span(date.seconds_until(other)),
        _ => said::span(date.nanos_until(other)),
    }
}

pub fn times(call: u64, q: Question) -> Reply {
    let fields = CivilDateTime {
        year: q.x.narrow(),
        month: q.y.byte(),
        day: q.z.byte(),
        hour: q.fourth.byte(),
        minute: q.fifth.byte(),
        second: q.sixth.byte(),
        nanos: q.seventh.low(),
    };
    match call {
        1 => said::civil(CivilDateTime::from_utc_nanos(q.x.size)),
        2 => said::civil(civil::to_civil(Utc(q.x.size))),
        3 => said::count(fields.to_utc_nanos()),
        4 => said::on_scale(fields.to_utc()),
        _ => said::yes(fields.is_whole_second()),
    }
}
