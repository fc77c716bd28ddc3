// Questions about weeks.
use crate::reply::{Question, Reply};
use plaitgate::weeks::HostWeeks;

pub fn weeks<S: HostWeeks>(call: u64, q: Question) -> Reply {
    let mut a: u32 = 1;
    let number = match call {
        1 => return from_week_tow::<S>(q),
        2 => S::scale_week(q.x.size, &mut a),
        3 => S::scale_tow_seconds(q.x.size, &mut a),
        _ => S::scale_sub_second_nanos(q.x.size, &mut a),
    };
    Reply::one(number, a as u64)
}

fn from_week_tow<S: HostWeeks>(q: Question) -> Reply {
    let mut a: u64 = 1;
    let number = S::scale_from_week_tow(q.x.low(), q.y.size, q.z.low(), &mut a);
    Reply::one(number, a)
}
