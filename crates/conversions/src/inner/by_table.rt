// GPS to UTC and UTC to GPS by a table that is held by value, and the same of a scale that is behind GPS by a fixed
// number of nanoseconds. An invalid table is refused with 8 before anything else.
ghost use Rattle.std.specs.Prelude.{◌≡◌, true, ◌+◌};
ghost use Rattle.tables.specs.Answers.{dated_in};
ghost use Rattle.refusals.specs.Outcome.{value_in, then, outcome_in};
ghost use Rattle.counts.specs.Exact.{down};
ghost use Rattle.counts.specs.Units.{second};
ghost use Rattle.scales.specs.Scales.{tai_minus_gps};
ghost use Rattle.tables.specs.Slots.{entries_of, valid_table};
ghost use Rattle.tables.specs.Expiry.{stale_at, dated, by_table};
ghost use Rattle.conversions.specs.Conversions.{gps_to_utc, last_reading, utc_to_gps};
ghost use Rattle.conversions.specs.Shifted.{later_of, shifted_to_utc, utc_to_shifted, shifted_reading};

use crate::inner::later::later_of;
use crate::inner::{
    first_reading_of, gps_from_lookup, last_reading_of, reading_of, steps, tai_of, utc_from_lookup,
};
use counts::sums;
use refusals::Refusal;
use tables::inner::slots::Slots;
use tables::inner::{checked_look_up, is_stale};
use tables::{Dated, LeapTable};

pub fn utc_from_gps(gps: Result<u64, Refusal>, table: LeapTable) -> Dated<u64>
    ensures { dated_in result ≡
        by_table table (value_in 0 (outcome_in gps) + tai_minus_gps) (then (outcome_in gps) (gps_to_utc (entries_of table))) }
{
    let tai = tai_of(gps);
    let reading = reading_of(tai);
    let found = checked_look_up(&table, reading);
    let stale = is_stale(table.expiry, reading);
    Dated::new(utc_from_lookup(found, tai), stale)
}

pub fn gps_from_utc(utc: Result<u64, Refusal>, table: LeapTable) -> Dated<u64>
    ensures { dated_in result ≡
        by_table table (last_reading (entries_of table) (value_in 0 (outcome_in utc)))
        (then (outcome_in utc) (utc_to_gps (entries_of table))) }
{
    let a = first_reading_of(utc);
    match checked_look_up(&table, a) {
        Ok(first) => {
            let b = last_reading_of(utc, first, a);
            let found = Slots::of_valid(&table).look_up(b);
            let stale = is_stale(table.expiry, b);
            Dated::new(gps_from_lookup(found, utc), stale)
        }
        Err(why) => Dated::new(Err(why), false),
    }
}

pub fn utc_from_shifted(count: Result<u64, Refusal>, table: LeapTable, behind: u64) -> Dated<u64>
    ensures { dated_in result ≡
        by_table table (value_in 0 (outcome_in count) + behind + tai_minus_gps)
        (then (outcome_in count) (shifted_to_utc behind (entries_of table))) }
{
    utc_from_gps(steps::up(count, behind), table)
}

// By the later of two GPS counts that share a UTC count; the TAI reading looked up last is its own.
pub fn shifted_by_later(gps: u64, table: LeapTable, behind: u64) -> Dated<u64>
    requires { valid_table table ≡ true }
    ensures { dated_in result ≡
        dated (stale_at table.expiry (gps + second + tai_minus_gps))
        (then (later_of (entries_of table) gps) (down behind)) }
{
    let later = later_of(gps, table);
    let stale = is_stale(table.expiry, reading_of(tai_of(later)));
    Dated::new(steps::down(later, behind), stale)
}

pub fn shifted_from_utc(utc: Result<u64, Refusal>, table: LeapTable, behind: u64) -> Dated<u64>
    ensures { dated_in result ≡
        by_table table (shifted_reading behind (entries_of table) (value_in 0 (outcome_in utc)))
        (then (outcome_in utc) (utc_to_shifted behind (entries_of table))) }
{
    let found = gps_from_utc(utc, table);
    match found.answer {
        Ok(gps) if gps < behind => shifted_by_later(gps, table, behind),
        Ok(gps) => Dated::new(sums::minus(gps, behind), found.stale),
        Err(why) => Dated::new(Err(why), false),
    }
}
