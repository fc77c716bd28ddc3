// Questions about GPS and its TAI count.
use crate::reply::{Question, Reply};
use plaitgate::gps_tai::{plaitgate_gps_from_tai, plaitgate_gps_to_tai};

pub fn tai(call: u64, q: Question) -> Reply {
    let mut a: u64 = 1;
    let number = match call {
        1 => plaitgate_gps_to_tai(q.x.size, &mut a),
        _ => plaitgate_gps_from_tai(q.x.size, &mut a),
    };
    Reply::one(number, a)
}
