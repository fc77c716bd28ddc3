// Questions about days and weekdays of GLONASS.
use crate::reply::{Question, Reply};
use plaitgate::glonass_days::{
    plaitgate_glonass_day, plaitgate_glonass_day_of_week, plaitgate_glonass_from_day_tod,
    plaitgate_glonass_is_weekend, plaitgate_glonass_sub_second_nanos,
    plaitgate_glonass_tod_seconds,
};

pub fn days(call: u64, q: Question) -> Reply {
    match call {
        1 => from_day_tod(q),
        2..=4 => in_32_bits(call, q.x.size),
        _ => in_8_bits(call, q.x.size),
    }
}

fn from_day_tod(q: Question) -> Reply {
    let mut a: u64 = 1;
    let number = plaitgate_glonass_from_day_tod(q.x.low(), q.y.size, q.z.low(), &mut a);
    Reply::one(number, a)
}

fn in_32_bits(call: u64, count: u64) -> Reply {
    let mut a: u32 = 1;
    let number = match call {
        2 => plaitgate_glonass_day(count, &mut a),
        3 => plaitgate_glonass_tod_seconds(count, &mut a),
        _ => plaitgate_glonass_sub_second_nanos(count, &mut a),
    };
    Reply::one(number, a as u64)
}

fn in_8_bits(call: u64, count: u64) -> Reply {
    let mut a: u8 = 1;
    let number = match call {
        5 => plaitgate_glonass_day_of_week(count, &mut a),
        _ => plaitgate_glonass_is_weekend(count, &mut a),
    };
    Reply::one(number, a as u64)
}
