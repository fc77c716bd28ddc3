// Questions about GLONASS and UTC, and about the conversions by the built-in table, by value.
use crate::by_value::said;
use crate::reply::{Question, Reply};
use scales::glonass::Glonass;
use scales::gps::Gps;
use scales::tai::Tai;
use scales::utc::Utc;

pub fn builtin(call: u64, q: Question) -> Reply {
    match call {
        1 => said::on_scale(conversions::glonass_to_utc(Glonass(q.x.size))),
        2 => said::on_scale(conversions::utc_to_glonass(Utc(q.x.size))),
        3 => Reply::signed(0, builtin::tai_minus_utc_at(Tai(q.x.size)) as i64),
        4 => said::on_scale(builtin::gps_to_utc(Gps(q.x.size))),
        5 => said::on_scale(builtin::utc_to_gps(Utc(q.x.size))),
        6 => said::on_scale(builtin::glonass_to_gps(Glonass(q.x.size))),
        7 => said::on_scale(builtin::gps_to_glonass(Gps(q.x.size))),
        8 => said::on_scale(builtin::gps_from_unix_seconds(q.x.signed())),
        _ => said::span(builtin::gps_as_unix_seconds(Gps(q.x.size))),
    }
}
