// Questions about counts: the calls that every scale has.
use crate::reply::{Question, Reply};
use plaitgate::every_scale::HostCounts;

pub fn counts<S: HostCounts>(call: u64, q: Question) -> Reply {
    let x = q.x.size;
    let d = q.y.signed();
    let mut a: u64 = 1;
    let number = match call {
        1 => S::scale_from_nanos(x, &mut a),
        2 => S::scale_as_nanos(x, &mut a),
        3 => S::scale_checked_from_seconds(x, &mut a),
        4 => S::scale_as_seconds(x, &mut a),
        5 => return parts::<S>(x),
        6 => S::scale_checked_add(x, d, &mut a),
        7 => S::scale_checked_sub_duration(x, d, &mut a),
        8 => S::scale_saturating_add(x, d, &mut a),
        9 => S::scale_saturating_sub_duration(x, d, &mut a),
        10 => return elapsed::<S>(x, q.y.size),
        _ => return limits::<S>(),
    };
    Reply::one(number, a)
}

fn parts<S: HostCounts>(count: u64) -> Reply {
    let mut a: u64 = 1;
    let mut b: u32 = 1;
    let number = S::scale_as_parts(count, &mut a, &mut b);
    Reply::two(number, a, b as u64)
}

fn elapsed<S: HostCounts>(count: u64, earlier: u64) -> Reply {
    let mut a: i64 = 1;
    let number = S::scale_checked_elapsed(count, earlier, &mut a);
    Reply::signed(number, a)
}

fn limits<S: HostCounts>() -> Reply {
    let mut a: u64 = 1;
    let mut b: u64 = 1;
    let mut c: u64 = 1;
    let mut d: u64 = 1;
    let number = S::scale_limits(&mut a, &mut b, &mut c, &mut d);
    Reply::four(number, a, b, c, d)
}
