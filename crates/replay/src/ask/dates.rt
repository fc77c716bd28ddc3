// What the library answers to the calls of dates and civil times.
use crate::reply::{Question, Reply};
use civil::CivilDateTime;
use plaitgate::civil_dates::{
    plaitgate_civil_date_days_from_unix, plaitgate_civil_date_days_until,
    plaitgate_civil_date_nanos_until, plaitgate_civil_date_new, plaitgate_civil_date_seconds_until,
};
use plaitgate::civil_times::{
    plaitgate_civil_from_utc_nanos, plaitgate_civil_is_whole_second, plaitgate_civil_to_utc,
    plaitgate_civil_to_utc_nanos, plaitgate_utc_to_civil,
};

pub fn dates(call: u64, q: Question) -> Reply {
    if call == 1 {
        return date_new(q);
    }
    let year = q.x.narrow();
    let month = q.y.byte();
    let day = q.z.byte();
    let other_year = q.fourth.narrow();
    let other_month = q.fifth.byte();
    let other_day = q.sixth.byte();
    let mut a: i64 = 1;
    let number = match call {
        2 => plaitgate_civil_date_days_from_unix(year, month, day, &mut a),
        3 => plaitgate_civil_date_days_until(
            year,
            month,
            day,
            other_year,
            other_month,
            other_day,
            &mut a,
        ),
        4 => plaitgate_civil_date_seconds_until(
            year,
            month,
            day,
            other_year,
            other_month,
            other_day,
            &mut a,
        ),
        _ => plaitgate_civil_date_nanos_until(
            year,
            month,
            day,
            other_year,
            other_month,
            other_day,
            &mut a,
        ),
    };
    Reply::signed(number, a)
}

fn date_new(q: Question) -> Reply {
    let mut year: i32 = 1;
    let mut month: u8 = 1;
    let mut day: u8 = 1;
    let number = plaitgate_civil_date_new(
        q.x.narrow(),
        q.y.byte(),
        q.z.byte(),
        &mut year,
        &mut month,
        &mut day,
    );
    Reply::date(number, year, month, day)
}

pub fn times(call: u64, q: Question) -> Reply {
    match call {
        1..=2 => to_civil(call, q.x.size),
        3..=4 => to_count(call, q),
        _ => is_whole_second(q),
    }
}

fn to_count(call: u64, q: Question) -> Reply {
    let year = q.x.narrow();
    let month = q.y.byte();
    let day = q.z.byte();
    let hour = q.fourth.byte();
    let minute = q.fifth.byte();
    let second = q.sixth.byte();
    let nanos = q.seventh.low();
    let mut a: u64 = 1;
    let number = match call {
        3 => plaitgate_civil_to_utc_nanos(year, month, day, hour, minute, second, nanos, &mut a),
        _ => plaitgate_civil_to_utc(year, month, day, hour, minute, second, nanos, &mut a),
    };
    Reply::one(number, a)
}

fn is_whole_second(q: Question) -> Reply {
    let mut a: u8 = 1;
    let number = plaitgate_civil_is_whole_second(
        q.x.narrow(),
        q.y.byte(),
        q.z.byte(),
        q.fourth.byte(),
        q.fifth.byte(),
        q.sixth.byte(),
        q.seventh.low(),
        &mut a,
    );
    Reply::one(number, a as u64)
}

fn to_civil(call: u64, count: u64) -> Reply {
    let mut year: i32 = 1;
    let mut month: u8 = 1;
    let mut day: u8 = 1;
    let mut hour: u8 = 1;
    let mut minute: u8 = 1;
    let mut second: u8 = 1;
    let mut nanos: u32 = 1;
    let number = match call {
        1 => plaitgate_civil_from_utc_nanos(
            count,
            &mut year,
            &mut month,
            &mut day,
            &mut hour,
            &mut minute,
            &mut second,
            &mut nanos,
        ),
        _ => plaitgate_utc_to_civil(
            count,
            &mut year,
            &mut month,
            &mut day,
            &mut hour,
            &mut minute,
            &mut second,
            &mut nanos,
        ),
    };
    let c = CivilDateTime {
        year,
        month,
        day,
        hour,
        minute,
        second,
        nanos,
    };
    Reply::civil(number, c)
}
