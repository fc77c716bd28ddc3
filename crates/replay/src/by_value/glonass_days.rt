// Questions about days and weekdays of GLONASS, by value.
use crate::by_value::said;
use crate::reply::{Question, Reply};
use counts::units::DurationParts;
use scales::glonass::Glonass;
use scales::scale::Scale;

pub fn days(call: u64, q: Question) -> Reply {
    let t = Glonass(q.x.size);
    match call {
        1 => {
            let tod = DurationParts {
                seconds: q.y.size,
                nanos: q.z.low(),
            };
            said::on_scale(Glonass::from_day_tod(q.x.low(), tod))
        }
        2 => Reply::one(0, t.day() as u64),
        3 => Reply::one(0, t.tod_seconds() as u64),
        4 => Reply::one(0, t.sub_second_nanos() as u64),
        5 => Reply::one(0, t.day_of_week() as u64),
        _ => said::yes(t.is_weekend()),
    }
}
