// What the library answers to GLONASS and UTC, and to the conversions by the built-in table.
use crate::reply::{Question, Reply};
use plaitgate::by_builtin::{
    plaitgate_builtin_glonass_to_gps, plaitgate_builtin_gps_as_unix_seconds,
    plaitgate_builtin_gps_from_unix_seconds, plaitgate_builtin_gps_to_glonass,
    plaitgate_builtin_gps_to_utc, plaitgate_builtin_tai_minus_utc_at, plaitgate_builtin_utc_to_gps,
    plaitgate_glonass_to_utc, plaitgate_utc_to_glonass,
};

pub fn builtin(call: u64, q: Question) -> Reply {
    let x = q.x.size;
    let mut a: u64 = 1;
    let number = match call {
        1 => plaitgate_glonass_to_utc(x, &mut a),
        2 => plaitgate_utc_to_glonass(x, &mut a),
        3 => return tai_minus_utc_at(x),
        4 => plaitgate_builtin_gps_to_utc(x, &mut a),
        5 => plaitgate_builtin_utc_to_gps(x, &mut a),
        6 => plaitgate_builtin_glonass_to_gps(x, &mut a),
        7 => plaitgate_builtin_gps_to_glonass(x, &mut a),
        8 => plaitgate_builtin_gps_from_unix_seconds(q.x.signed(), &mut a),
        _ => return as_unix_seconds(x),
    };
    Reply::one(number, a)
}

fn tai_minus_utc_at(tai: u64) -> Reply {
    let mut a: i32 = 1;
    let number = plaitgate_builtin_tai_minus_utc_at(tai, &mut a);
    Reply::signed(number, a as i64)
}

fn as_unix_seconds(gps: u64) -> Reply {
    let mut a: i64 = 1;
    let number = plaitgate_builtin_gps_as_unix_seconds(gps, &mut a);
    Reply::signed(number, a)
}
