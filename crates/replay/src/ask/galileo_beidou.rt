// Questions about Galileo and BeiDou.
use crate::reply::{Question, Reply};
use plaitgate::galileo_beidou::{plaitgate_beidou_to_galileo, plaitgate_galileo_to_beidou};

pub fn across(call: u64, q: Question) -> Reply {
    let mut a: u64 = 1;
    let number = match call {
        1 => plaitgate_galileo_to_beidou(q.x.size, &mut a),
        _ => plaitgate_beidou_to_galileo(q.x.size, &mut a),
    };
    Reply::one(number, a)
}
