// Questions about GPS and its TAI count, by value.
use crate::by_value::said;
use crate::reply::{Question, Reply};
use scales::gps::Gps;
use scales::tai::Tai;

pub fn tai(call: u64, q: Question) -> Reply {
    match call {
        1 => said::on_scale(Gps(q.x.size).to_tai()),
        _ => said::on_scale(Gps::from_tai(Tai(q.x.size))),
    }
}
