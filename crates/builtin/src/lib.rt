// The built-in table, after tables/leap_seconds.rs: (0, 19), and an entry for each of the eighteen inserted seconds
// since the GPS epoch (IERS Bulletin C). It is proved valid, so its calls test no table.
#![tactic(auto)]

pub mod by_builtin;
pub mod epochs;
pub mod events;
pub mod inner;

ghost use Rattle.std.specs.Prelude.{◌≡◌};
ghost use Rattle.refusals.specs.Outcome.{outcome_in};
ghost use Rattle.tables.specs.Entries.{offset_at};
ghost use Rattle.tables.specs.Slots.{table_of};
ghost use Rattle.scales.specs.Answers.{gps_in, utc_in, glonass_in};
ghost use Rattle.conversions.specs.Conversions.{gps_to_utc, utc_to_gps, glonass_to_gps, gps_to_glonass, unix_to_gps, gps_to_unix};
ghost use Rattle.builtin.specs.Builtin.{builtin};

use crate::inner::{by_utc, lookup};
use conversions::inner::steps;
use counts::unix;
use refusals::Refusal;
use scales::glonass::Glonass;
use scales::gps::Gps;
use scales::tai::Tai;
use scales::utc::Utc;
use tables::LeapTable;
use tables::inner::table_of;

// TAI readings in nanoseconds. They are beside the offsets, as in a table: an array of entries would be taken apart to
// build one.
pub const BUILTIN_THRESHOLDS: [u64; 19] = [
    0,
    lookup::JULY_1981,
    lookup::JULY_1982,
    lookup::JULY_1983,
    lookup::JULY_1985,
    lookup::JANUARY_1988,
    lookup::JANUARY_1990,
    lookup::JANUARY_1991,
    lookup::JULY_1992,
    lookup::JULY_1993,
    lookup::JULY_1994,
    lookup::JANUARY_1996,
    lookup::JULY_1997,
    lookup::JANUARY_1999,
    lookup::JANUARY_2006,
    lookup::JANUARY_2009,
    lookup::JULY_2012,
    lookup::JULY_2015,
    lookup::JANUARY_2017,
];

// TAI minus UTC in seconds, from each threshold on.
pub const BUILTIN_OFFSETS: [i32; 19] = [
    19, 20, 21, 22, 23, 24, 25, 26, 27, 28, 29, 30, 31, 32, 33, 34, 35, 36, 37,
];

// The table itself, to be extended.
pub fn from_builtin() -> LeapTable
    ensures { result ≡ table_of builtin }
{
    table_of(&BUILTIN_THRESHOLDS, &BUILTIN_OFFSETS)
}

// The offset in force at a TAI reading.
pub fn tai_minus_utc_at(tai: Tai) -> i32
    ensures { result ≡ offset_at builtin tai.0 }
{
    lookup::entry_told(lookup::event_at(tai.0)).offset
}

pub fn gps_to_utc(gps: Gps) -> Result<Utc, Refusal>
    ensures { utc_in result ≡ gps_to_utc builtin gps.0 }
{
    lookup::utc_from_gps(Ok(gps.0)).map(Utc)
}

// Where a UTC count repeats it is the first of two.
pub fn utc_to_gps(utc: Utc) -> Result<Gps, Refusal>
    ensures { gps_in result ≡ utc_to_gps builtin utc.0 }
{
    by_utc::gps_from_utc(Ok(utc.0)).map(Gps)
}

pub fn glonass_to_gps(glonass: Glonass) -> Result<Gps, Refusal>
    ensures { gps_in result ≡ glonass_to_gps builtin glonass.0 }
{
    let utc = steps::utc_from_glonass(Ok(glonass.0));
    by_utc::gps_from_utc(utc).map(Gps)
}

pub fn gps_to_glonass(gps: Gps) -> Result<Glonass, Refusal>
    ensures { glonass_in result ≡ gps_to_glonass builtin gps.0 }
{
    let utc = lookup::utc_from_gps(Ok(gps.0));
    steps::glonass_from_utc(utc).map(Glonass)
}

pub fn gps_from_unix_seconds(seconds: i64) -> Result<Gps, Refusal>
    ensures { gps_in result ≡ unix_to_gps builtin seconds }
{
    by_utc::gps_from_utc(unix::from_unix_seconds(seconds)).map(Gps)
}

pub fn gps_as_unix_seconds(gps: Gps) -> Result<i64, Refusal>
    ensures { outcome_in result ≡ gps_to_unix builtin gps.0 }
{
    steps::unix_from_utc(lookup::utc_from_gps(Ok(gps.0)))
}
