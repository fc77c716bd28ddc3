// Questions about Galileo and BeiDou, by value.
use crate::by_value::said;
use crate::reply::{Question, Reply};
use scales::beidou::Beidou;
use scales::galileo::Galileo;

pub fn across(call: u64, q: Question) -> Reply {
    match call {
        1 => said::on_scale(Galileo(q.x.size).to_beidou()),
        _ => said::on_scale(Beidou(q.x.size).to_galileo()),
    }
}
