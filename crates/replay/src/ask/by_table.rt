// What the library answers to the calls by a table. The first input is the table's number.
use crate::numbered;
use crate::reply::{Question, Reply};
use plaitgate::by_table::{
    plaitgate_table_glonass_to_gps, plaitgate_table_gps_as_unix_seconds,
    plaitgate_table_gps_from_unix_seconds, plaitgate_table_gps_to_glonass,
    plaitgate_table_gps_to_utc, plaitgate_table_utc_to_gps,
};
use plaitgate::leap_tables::{
    plaitgate_table_current_tai_minus_utc, plaitgate_table_entry_at, plaitgate_table_is_empty,
    plaitgate_table_last_update, plaitgate_table_len, plaitgate_table_tai_minus_utc_at,
};

pub fn by_table(call: u64, q: Question) -> Reply {
    let mut image = [0u8; 784];
    numbered::put(q.x.size, &mut image);
    by_image(call, q, &image)
}

// The same with the third input as the table's expiry.
pub fn by_expiring(call: u64, q: Question) -> Reply {
    let mut image = [0u8; 784];
    numbered::put_expiring(q.x.size, q.z.size, &mut image);
    by_image(call, q, &image)
}

fn by_image(call: u64, q: Question, image: &[u8; 784]) -> Reply {
    if call < 7 {
        conversions(call, q, image)
    } else {
        readers(call - 6, q.y.size, image)
    }
}

fn conversions(call: u64, q: Question, image: &[u8; 784]) -> Reply {
    let mut stale: u8 = 1;
    if call == 6 {
        let mut seconds: i64 = 1;
        let number = plaitgate_table_gps_as_unix_seconds(q.y.size, image, &mut seconds, &mut stale);
        return Reply::signed(number, seconds).dated(stale);
    }
    let mut a: u64 = 1;
    let number = match call {
        1 => plaitgate_table_gps_to_utc(q.y.size, image, &mut a, &mut stale),
        2 => plaitgate_table_utc_to_gps(q.y.size, image, &mut a, &mut stale),
        3 => plaitgate_table_glonass_to_gps(q.y.size, image, &mut a, &mut stale),
        4 => plaitgate_table_gps_to_glonass(q.y.size, image, &mut a, &mut stale),
        _ => plaitgate_table_gps_from_unix_seconds(q.y.signed(), image, &mut a, &mut stale),
    };
    Reply::one(number, a).dated(stale)
}

fn readers(call: u64, y: u64, image: &[u8; 784]) -> Reply {
    match call {
        1 => {
            let mut a: i32 = 1;
            let mut stale: u8 = 1;
            let number = plaitgate_table_tai_minus_utc_at(image, y, &mut a, &mut stale);
            Reply::signed(number, a as i64).dated(stale)
        }
        2 => {
            let mut a: u64 = 1;
            let number = plaitgate_table_len(image, &mut a);
            Reply::one(number, a)
        }
        3 => {
            let mut a: u8 = 1;
            let number = plaitgate_table_is_empty(image, &mut a);
            Reply::one(number, a as u64)
        }
        4 => {
            let mut a: u8 = 1;
            let mut b: u64 = 1;
            let number = plaitgate_table_last_update(image, &mut a, &mut b);
            Reply::two(number, a as u64, b)
        }
        5 => {
            let mut a: i32 = 1;
            let number = plaitgate_table_current_tai_minus_utc(image, &mut a);
            Reply::signed(number, a as i64)
        }
        _ => entry_at(y, image),
    }
}

fn entry_at(place: u64, image: &[u8; 784]) -> Reply {
    let mut found: u8 = 1;
    let mut tai_nanos: u64 = 1;
    let mut tai_minus_utc: i32 = 1;
    let number = plaitgate_table_entry_at(
        image,
        place,
        &mut found,
        &mut tai_nanos,
        &mut tai_minus_utc,
    );
    Reply::entry(number, found as u64, tai_nanos, tai_minus_utc)
}
