// The conversions between GPS and UTC in parts, on plain counts, whatever store the lookups are made in. A count may
// come from a step before: what that refused stays refused.
pub mod by_table;
pub mod dated;
pub mod later;
pub mod steps;

ghost use Rattle.std.specs.Prelude.{◌≡◌, ◌<◌, ◌^◌, pos, ◌-ℤ◌};
ghost use Rattle.std.specs.Int.Signed.{mag};
ghost use Rattle.refusals.specs.Outcome.{value_in, then, outcome_in};
ghost use Rattle.counts.specs.Exact.{up};
ghost use Rattle.scales.specs.Scales.{tai_minus_gps};
ghost use Rattle.conversions.specs.Conversions.{E, in_nanos, gps_at_offset, first_reading, second_reading};
ghost use Rattle.conversions.specs.ByLookup.{utc_of_tai, utc_from_lookup, first_for, last_for, gps_from_lookup};

use counts::{Duration, sums, units};
use refusals::Refusal;
use scales::gps_tai::TAI_MINUS_GPS_NS;
use tables::Lookup;

// 1972-01-01 to 1980-01-06: 2,927 days of 86,400 s
pub const GPS_EPOCH_FROM_UTC_EPOCH_NS: u64 = 252_892_800 * units::NANOS_PER_SECOND;

// The least offset of which 19 less fits 32 bits. One below it is refused.
const LEAST_OFFSET: i32 = -2_147_483_629;

// UTC − scale, for a scale counted from 1980-01-06 that leads UTC by `lead` seconds.
fn utc_minus_scale(lead: i64) -> i64
    requires { mag lead < 2 ^ 32 }
    ensures { result ≡ pos E -ℤ in_nanos lead }
{
    GPS_EPOCH_FROM_UTC_EPOCH_NS as i64 - lead * (units::NANOS_PER_SECOND as i64)
}

// UTC − TAI, at an offset.
pub fn utc_minus_tai(offset: i32) -> i64
    ensures { result ≡ pos E -ℤ in_nanos offset }
{
    utc_minus_scale(offset as i64)
}

// UTC − GPS, at an offset.
fn utc_minus_gps(offset: i32) -> i64
    ensures { result ≡ pos E -ℤ in_nanos (offset -ℤ pos 19) }
{
    utc_minus_scale((offset as i64) - 19)
}

// The UTC count of a TAI reading, at an offset.
fn utc_at_offset(offset: i32, tai: u64) -> Result<u64, Refusal>
    ensures { outcome_in result ≡ utc_of_tai offset tai }
{
    if offset < LEAST_OFFSET {
        return Err(Refusal::OffsetRange);
    }
    sums::later(tai, Duration(utc_minus_tai(offset)))
}

// The GPS count of a UTC count, at an offset.
fn gps_at_offset(offset: i32, utc: u64) -> Result<u64, Refusal>
    ensures { outcome_in result ≡ gps_at_offset offset utc }
{
    if offset < LEAST_OFFSET {
        return Err(Refusal::OffsetRange);
    }
    sums::earlier(utc, Duration(utc_minus_gps(offset)))
}

fn first_reading(utc: u64) -> u64
    ensures { result ≡ first_reading utc }
{
    sums::minus(utc, GPS_EPOCH_FROM_UTC_EPOCH_NS - TAI_MINUS_GPS_NS).unwrap_or(0)
}

fn second_reading(utc: u64, offset: i32, first: u64) -> u64
    ensures { result ≡ second_reading utc offset first }
{
    sums::earlier(utc, Duration(utc_minus_tai(offset))).unwrap_or(first)
}

// The TAI reading of a GPS count.
pub fn tai_of(gps: Result<u64, Refusal>) -> Result<u64, Refusal>
    ensures { outcome_in result ≡ then (outcome_in gps) (up tai_minus_gps) }
{
    steps::up(gps, TAI_MINUS_GPS_NS)
}

// Where to look up: the reading, or 0 where there is none.
pub fn reading_of(tai: Result<u64, Refusal>) -> u64
    ensures { result ≡ value_in 0 (outcome_in tai) }
{
    tai.unwrap_or(0)
}

// A TAI reading as UTC, by what a lookup there tells.
pub fn utc_from_lookup(
    found: Result<Lookup, Refusal>,
    tai: Result<u64, Refusal>,
) -> Result<u64, Refusal>
    ensures { outcome_in result ≡ then (outcome_in found) (utc_from_lookup (outcome_in tai)) }
{
    let lookup = found?;
    utc_at_offset(lookup.offset, tai?)
}

// The TAI reading for the first lookup of a UTC count, 0 where there is none.
pub fn first_reading_of(utc: Result<u64, Refusal>) -> u64
    ensures { result ≡ first_for (outcome_in utc) }
{
    utc.map_or(0, first_reading)
}

// The TAI reading for the last lookup, by what the first one told at `reading`.
pub fn last_reading_of(utc: Result<u64, Refusal>, first: Lookup, reading: u64) -> u64
    ensures { result ≡ last_for (outcome_in utc) first reading }
{
    utc.map_or(
        reading,
        |count| second_reading(count, first.offset, reading),
    )
}

// A UTC count as GPS, by what the last lookup tells.
pub fn gps_from_lookup(found: Lookup, utc: Result<u64, Refusal>) -> Result<u64, Refusal>
    ensures { outcome_in result ≡ gps_from_lookup found (outcome_in utc) }
{
    gps_at_offset(found.offset, utc?)
}
