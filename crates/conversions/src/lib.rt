// Conversions between GPS, UTC, GLONASS and Unix time by a leap-second table, after leap.rs, and of scales that differ
// from GPS by a fixed number of seconds.
// Every call with a table refuses an invalid one with 8 before anything else, and tells whether the table is stale at
// the TAI reading that was looked up last.
#![tactic(auto)]

pub mod by_table;
pub mod inner;

ghost use Rattle.std.specs.Prelude.{◌≡◌, ◌+◌};
ghost use Rattle.tables.specs.Answers.{dated_in};
ghost use Rattle.counts.specs.Exact.{up, down};
ghost use Rattle.refusals.specs.Outcome.{value_in};
ghost use Rattle.tables.specs.Slots.{entries_of};
ghost use Rattle.tables.specs.Expiry.{by_table};
ghost use Rattle.scales.specs.Answers.{utc_in, glonass_in};
ghost use Rattle.scales.specs.Scales.{tai_minus_gps};
ghost use Rattle.conversions.specs.Conversions.{gps_to_utc, last_reading, utc_to_gps, glonass_epoch, glonass_to_gps};
ghost use Rattle.conversions.specs.Conversions.{gps_to_glonass, unix_to_utc, unix_to_gps, gps_to_unix};
ghost use Rattle.conversions.specs.Answers.{dated_gps_in, dated_utc_in, dated_glonass_in};

use crate::inner::by_table::{gps_from_utc, utc_from_gps};
use crate::inner::{dated, steps};
use counts::unix;
use refusals::Refusal;
use scales::glonass::Glonass;
use scales::gps::Gps;
use scales::utc::Utc;
use tables::{Dated, LeapTable};

// Refuses 8, then 1, 9, 1: the table, the TAI reading, the offset, the result.
pub fn gps_to_utc(gps: Gps, table: LeapTable) -> Dated<Utc>
    ensures { dated_utc_in result ≡ by_table table (gps.0 + tai_minus_gps) (gps_to_utc (entries_of table) gps.0) }
{
    dated::on_scale(utc_from_gps(Ok(gps.0), table))
}

// Refuses 8, then 9, 1: the table, the offset, the result. Where a UTC count repeats it is the first of two.
pub fn utc_to_gps(utc: Utc, table: LeapTable) -> Dated<Gps>
    ensures { dated_gps_in result ≡
        by_table table (last_reading (entries_of table) utc.0) (utc_to_gps (entries_of table) utc.0) }
{
    dated::on_scale(gps_from_utc(Ok(utc.0), table))
}

pub fn glonass_to_utc(glonass: Glonass) -> Result<Utc, Refusal>
    ensures { utc_in result ≡ up glonass_epoch glonass.0 }
{
    steps::utc_from_glonass(Ok(glonass.0)).map(Utc)
}

pub fn utc_to_glonass(utc: Utc) -> Result<Glonass, Refusal>
    ensures { glonass_in result ≡ down glonass_epoch utc.0 }
{
    steps::glonass_from_utc(Ok(utc.0)).map(Glonass)
}

// By way of UTC.
pub fn glonass_to_gps(glonass: Glonass, table: LeapTable) -> Dated<Gps>
    ensures { dated_gps_in result ≡
        by_table table (last_reading (entries_of table) (glonass.0 + glonass_epoch))
        (glonass_to_gps (entries_of table) glonass.0) }
{
    let utc = steps::utc_from_glonass(Ok(glonass.0));
    dated::on_scale(gps_from_utc(utc, table))
}

// By way of UTC.
pub fn gps_to_glonass(gps: Gps, table: LeapTable) -> Dated<Glonass>
    ensures { dated_glonass_in result ≡
        by_table table (gps.0 + tai_minus_gps) (gps_to_glonass (entries_of table) gps.0) }
{
    let utc = utc_from_gps(Ok(gps.0), table);
    dated::on_scale(dated::glonass_from_utc(utc))
}

// The GPS count of Unix seconds, by way of UTC.
pub fn gps_from_unix_seconds(seconds: i64, table: LeapTable) -> Dated<Gps>
    ensures { dated_gps_in result ≡
        by_table table (last_reading (entries_of table) (value_in 0 (unix_to_utc seconds)))
        (unix_to_gps (entries_of table) seconds) }
{
    dated::on_scale(gps_from_utc(unix::from_unix_seconds(seconds), table))
}

// The whole Unix seconds of a GPS count, by way of UTC.
pub fn gps_as_unix_seconds(gps: Gps, table: LeapTable) -> Dated<i64>
    ensures { dated_in result ≡ by_table table (gps.0 + tai_minus_gps) (gps_to_unix (entries_of table) gps.0) }
{
    dated::unix_from_utc(utc_from_gps(Ok(gps.0), table))
}
