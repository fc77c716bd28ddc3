// Questions about weeks, by value.
use crate::by_value::said;
use crate::reply::{Question, Reply};
use counts::units::DurationParts;
use scales::scale::Scale;
use scales::weeks::Weeks;

pub fn weeks<S: Weeks>(call: u64, q: Question) -> Reply {
    let t = S::from_nanos(q.x.size);
    match call {
        1 => {
            let tow = DurationParts {
                seconds: q.y.size,
                nanos: q.z.low(),
            };
            said::on_scale(S::from_week_tow(q.x.low(), tow))
        }
        2 => Reply::one(0, t.week() as u64),
        3 => Reply::one(0, t.tow_seconds() as u64),
        _ => Reply::one(0, t.sub_second_nanos() as u64),
    }
}
