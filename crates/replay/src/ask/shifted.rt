// Questions about a scale behind GPS, and GPS, UTC and GLONASS.
use crate::numbered;
use crate::reply::{Question, Reply};
use plaitgate::shifted::HostShifted;

// To GPS and back, and by the built-in table.
pub fn by_builtin<S: HostShifted>(call: u64, q: Question) -> Reply {
    let x = q.x.size;
    let mut a: u64 = 1;
    let number = match call {
        1 => S::scale_to_gps(x, &mut a),
        2 => S::gps_to_scale(x, &mut a),
        3 => S::builtin_scale_to_utc(x, &mut a),
        4 => S::builtin_utc_to_scale(x, &mut a),
        5 => S::builtin_scale_to_glonass(x, &mut a),
        _ => S::builtin_glonass_to_scale(x, &mut a),
    };
    Reply::one(number, a)
}

// By a table, whose number is the first input.
pub fn by_table<S: HostShifted>(call: u64, q: Question) -> Reply {
    let mut image = [0u8; 784];
    numbered::put(q.x.size, &mut image);
    by_image::<S>(call, q.y.size, &image)
}

// The same with the third input as the table's expiry.
pub fn by_expiring<S: HostShifted>(call: u64, q: Question) -> Reply {
    let mut image = [0u8; 784];
    numbered::put_expiring(q.x.size, q.z.size, &mut image);
    by_image::<S>(call, q.y.size, &image)
}

fn by_image<S: HostShifted>(call: u64, count: u64, image: &[u8; 784]) -> Reply {
    let mut a: u64 = 1;
    let mut stale: u8 = 1;
    let number = match call {
        1 => S::table_scale_to_utc(count, image, &mut a, &mut stale),
        2 => S::table_utc_to_scale(count, image, &mut a, &mut stale),
        3 => S::table_scale_to_glonass(count, image, &mut a, &mut stale),
        _ => S::table_glonass_to_scale(count, image, &mut a, &mut stale),
    };
    Reply::one(number, a).dated(stale)
}
