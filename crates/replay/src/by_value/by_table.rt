// Questions by a table, by value. The first input is the table's number.
use crate::by_value::said;
use crate::numbered;
use crate::reply::{Question, Reply};
use scales::glonass::Glonass;
use scales::gps::Gps;
use scales::tai::Tai;
use scales::utc::Utc;
use tables::LeapTable;

pub fn by_table(call: u64, q: Question) -> Reply {
    by(call, q, numbered::table(q.x.size))
}

// The same with the third input as the table's expiry.
pub fn by_expiring(call: u64, q: Question) -> Reply {
    by(call, q, numbered::expiring(q.x.size, q.z.size))
}

fn by(call: u64, q: Question, table: LeapTable) -> Reply {
    if call < 7 {
        converted(call, q, table)
    } else {
        read(call - 6, q.y.size, table)
    }
}

fn converted(call: u64, q: Question, table: LeapTable) -> Reply {
    match call {
        1 => said::dated(conversions::gps_to_utc(Gps(q.y.size), table)),
        2 => said::dated(conversions::utc_to_gps(Utc(q.y.size), table)),
        3 => said::dated(conversions::glonass_to_gps(Glonass(q.y.size), table)),
        4 => said::dated(conversions::gps_to_glonass(Gps(q.y.size), table)),
        5 => said::dated(conversions::gps_from_unix_seconds(q.y.signed(), table)),
        _ => said::dated_span(conversions::gps_as_unix_seconds(Gps(q.y.size), table)),
    }
}

fn read(call: u64, y: u64, table: LeapTable) -> Reply {
    match call {
        1 => said::dated_offset(table.tai_minus_utc_at(Tai(y))),
        2 => said::length(table.len()),
        3 => said::emptiness(table.is_empty()),
        4 => said::update(table.last_update()),
        5 => said::offset(table.current_tai_minus_utc()),
        _ => said::entry(table.entry_at(y as usize)),
    }
}
