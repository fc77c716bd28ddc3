// Questions about a scale behind GPS, and GPS, UTC and GLONASS, by value.
use crate::by_value::said;
use crate::numbered;
use crate::reply::{Question, Reply};
use builtin::by_builtin::ByBuiltin;
use conversions::by_table::ByTable;
use scales::behind_gps::BehindGps;
use scales::glonass::Glonass;
use scales::gps::Gps;
use scales::scale::Scale;
use scales::utc::Utc;
use tables::LeapTable;

// To GPS and back, and by the built-in table.
pub fn by_builtin<S: ByBuiltin>(call: u64, q: Question) -> Reply {
    let x = q.x.size;
    let t = S::from_nanos(x);
    match call {
        1 => said::on_scale(t.to_gps()),
        2 => said::on_scale(S::from_gps(Gps(x))),
        3 => said::on_scale(t.to_utc()),
        4 => said::on_scale(S::from_utc(Utc(x))),
        5 => said::on_scale(t.to_glonass()),
        _ => said::on_scale(S::from_glonass(Glonass(x))),
    }
}

// By a table, whose number is the first input.
pub fn by_table<S: ByTable>(call: u64, q: Question) -> Reply {
    by::<S>(call, q.y.size, numbered::table(q.x.size))
}

// The same with the third input as the table's expiry.
pub fn by_expiring<S: ByTable>(call: u64, q: Question) -> Reply {
    by::<S>(call, q.y.size, numbered::expiring(q.x.size, q.z.size))
}

fn by<S: ByTable>(call: u64, count: u64, table: LeapTable) -> Reply {
    let t = S::from_nanos(count);
    match call {
        1 => said::dated(t.to_utc(table)),
        2 => said::dated(S::from_utc(Utc(count), table)),
        3 => said::dated(t.to_glonass(table)),
        _ => said::dated(S::from_glonass(Glonass(count), table)),
    }
}
