// Questions about Unix time and durations.
use crate::reply::{Question, Reply};
use plaitgate::durations::{
    plaitgate_duration_as_nanos, plaitgate_duration_from_nanos, plaitgate_duration_parts_new,
};
use plaitgate::utc_unix::{
    plaitgate_utc_as_unix_nanos, plaitgate_utc_as_unix_seconds, plaitgate_utc_from_unix_nanos,
    plaitgate_utc_from_unix_seconds,
};

pub fn unix_and_durations(call: u64, q: Question) -> Reply {
    match call {
        1..=2 => from_unix(call, q.x.signed()),
        5 => parts(q),
        _ => signed(call, q),
    }
}

fn from_unix(call: u64, x: i64) -> Reply {
    let mut a: u64 = 1;
    let number = match call {
        1 => plaitgate_utc_from_unix_seconds(x, &mut a),
        _ => plaitgate_utc_from_unix_nanos(x, &mut a),
    };
    Reply::one(number, a)
}

fn parts(q: Question) -> Reply {
    let mut a: u64 = 1;
    let mut b: u32 = 1;
    let number = plaitgate_duration_parts_new(q.x.size, q.y.low(), &mut a, &mut b);
    Reply::two(number, a, b as u64)
}

fn signed(call: u64, q: Question) -> Reply {
    let mut a: i64 = 1;
    let number = match call {
        3 => plaitgate_utc_as_unix_seconds(q.x.size, &mut a),
        4 => plaitgate_utc_as_unix_nanos(q.x.size, &mut a),
        6 => plaitgate_duration_from_nanos(q.x.signed(), &mut a),
        _ => plaitgate_duration_as_nanos(q.x.signed(), &mut a),
    };
    Reply::signed(number, a)
}
