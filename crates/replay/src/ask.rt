// What the exported calls answer to a question of the recorded list. The list numbers the calls; its first lines name
// them. Here and below a number is matched: the calls differ in what they take and give, so a table of closures would wrap
// each in one more function.

mod by_builtin;
mod by_table;
pub mod changes;
mod dates;
mod every_scale;
mod galileo_beidou;
mod glonass_days;
mod gps_tai;
mod lists;
mod shifted;
mod unix_and_durations;
mod weeks;

use crate::reply::{Question, Reply};
use scales::beidou::Beidou;
use scales::galileo::Galileo;
use scales::glonass::Glonass;
use scales::gps::Gps;
use scales::tai::Tai;
use scales::utc::Utc;

pub fn ask(call: u64, q: Question) -> Reply {
    match call {
        1..=11 => every_scale::counts::<Gps>(call, q),
        12..=22 => every_scale::counts::<Utc>(call - 11, q),
        23..=33 => every_scale::counts::<Glonass>(call - 22, q),
        34..=44 => every_scale::counts::<Tai>(call - 33, q),
        45..=48 => weeks::weeks::<Gps>(call - 44, q),
        49..=50 => gps_tai::tai(call - 48, q),
        51..=56 => glonass_days::days(call - 50, q),
        57..=63 => unix_and_durations::unix_and_durations(call - 56, q),
        64..=68 => dates::dates(call - 63, q),
        69..=73 => dates::times(call - 68, q),
        74..=82 => by_builtin::builtin(call - 73, q),
        83..=94 => by_table::by_table(call - 82, q),
        95..=98 => changes::changes(call - 94, q),
        99..=104 => lists::lists(call - 98, q),
        106..=116 => every_scale::counts::<Galileo>(call - 105, q),
        117..=127 => every_scale::counts::<Beidou>(call - 116, q),
        128..=131 => weeks::weeks::<Galileo>(call - 127, q),
        132..=135 => weeks::weeks::<Beidou>(call - 131, q),
        136..=141 => shifted::by_builtin::<Galileo>(call - 135, q),
        142..=147 => shifted::by_builtin::<Beidou>(call - 141, q),
        148..=149 => galileo_beidou::across(call - 147, q),
        150..=153 => shifted::by_table::<Galileo>(call - 149, q),
        154..=157 => shifted::by_table::<Beidou>(call - 153, q),
        158..=164 => by_table::by_expiring(call - 157, q),
        165..=168 => shifted::by_expiring::<Galileo>(call - 164, q),
        169..=172 => shifted::by_expiring::<Beidou>(call - 168, q),
        173 => changes::expiry(q),
        _ => Reply::unknown(),
    }
}
