// Questions about Unix time and durations, by value.
use crate::by_value::said;
use crate::reply::{Question, Reply};
use counts::Duration;
use counts::units::DurationParts;
use scales::duration;
use scales::utc::Utc;

pub fn unix_and_durations(call: u64, q: Question) -> Reply {
    let t = Utc(q.x.size);
    match call {
        1 => said::on_scale(Utc::from_unix_seconds(q.x.signed())),
        2 => said::on_scale(Utc::from_unix_nanos(q.x.signed())),
        3 => Reply::signed(0, t.as_unix_seconds()),
        4 => Reply::signed(0, t.as_unix_nanos()),
        5 => said::checked_parts(DurationParts::new(q.x.size, q.y.low())),
        6 => Reply::signed(0, duration::from_nanos(q.x.signed()).0),
        _ => Reply::signed(0, duration::as_nanos(Duration(q.x.signed()))),
    }
}
