// What the stores share: a reading, and fields back to a count, by what a lookup tells.
ghost use Rattle.std.specs.Prelude.{◌≡◌, ◌-◌};
ghost use Rattle.refusals.specs.Outcome.{value_in, then, changed, outcome_in};
ghost use Rattle.counts.specs.Units.{second};
ghost use Rattle.civil.specs.Real.{of_real};
ghost use Rattle.conversions.specs.ByLookup.{utc_from_lookup};
ghost use Rattle.readings.specs.Readings.{same_fields};
ghost use Rattle.readings.specs.ByLookup.{near_before, in_first_second, sixty, reading_from, later_from, read_so_from, back_from};

use civil::CivilDateTime;
use conversions::inner::{reading_of, tai_of, utc_from_lookup};
use counts::sums;
use counts::units::NANOS_PER_SECOND;
use refusals::Refusal;
use tables::Lookup;

// The second of an inserted second.
pub const INSERTED: u8 = 60;

// Whether the next threshold is at most a second after a TAI reading.
fn near_before(next: Option<u64>, tai: u64) -> bool
    ensures { result ≡ near_before next tai }
{
    next.is_some_and(|threshold| threshold.saturating_sub(tai) <= NANOS_PER_SECOND)
}

// The fields of the second before a UTC count, with 60 in place of 59.
fn sixty(utc: u64) -> CivilDateTime
    ensures { result ≡ sixty utc }
{
    let last = CivilDateTime::from_utc_nanos(utc.saturating_sub(NANOS_PER_SECOND));
    CivilDateTime {
        second: last.second + 1,
        ..last
    }
}

// Whether fields are in the first second of a day.
fn in_first_second(fields: CivilDateTime) -> bool
    ensures { result ≡ in_first_second fields }
{
    (fields.hour == 0) & (fields.minute == 0) & (fields.second == 0)
}

// The reading of a TAI reading that has this UTC count, by what a lookup there tells. An inserted second has the UTC counts
// of the second after it, the first of a day, so only there is the next threshold compared.
fn reading_from(found: Lookup, tai: u64, utc: u64) -> CivilDateTime
    ensures { result ≡ reading_from found tai utc }
{
    let fields = CivilDateTime::from_utc_nanos(utc);
    if in_first_second(fields) && near_before(found.next, tai) {
        sixty(utc)
    } else {
        fields
    }
}

// The reading of a TAI reading, by what a lookup there tells.
pub fn read(found: Lookup, tai: Result<u64, Refusal>) -> Result<CivilDateTime, Refusal>
    ensures { outcome_in result ≡
        changed (reading_from found (value_in 0 (outcome_in tai))) (utc_from_lookup (outcome_in tai) found) }
{
    let utc = utc_from_lookup(Ok(found), tai)?;
    Ok(reading_from(found, reading_of(tai), utc))
}

// A GPS count that has this UTC count, if it is read as these fields.
fn read_so(
    found: Lookup,
    tai: u64,
    utc: u64,
    fields: CivilDateTime,
    gps: Result<u64, Refusal>,
) -> Result<u64, Refusal>
    ensures { outcome_in result ≡ read_so_from found tai utc fields (outcome_in gps) }
{
    match gps {
        Ok(_) if reading_from(found, tai, utc) == fields => gps,
        _ => Err(Refusal::NoInsertedSecond),
    }
}

// A GPS count, or the one a second later where the next threshold is in between.
fn later_from(found: Lookup, tai: u64, gps: Result<u64, Refusal>) -> Result<u64, Refusal>
    ensures { outcome_in result ≡ then (outcome_in gps) (later_from found tai) }
{
    let count = gps?;
    if near_before(found.next, tai) {
        sums::plus(count, NANOS_PER_SECOND)
    } else {
        Ok(count)
    }
}

// Fields that exist to GPS, by their UTC count, the first GPS count that has it, and what a lookup at its TAI reading tells.
pub fn back(
    fields: CivilDateTime,
    utc: Result<u64, Refusal>,
    first: Result<u64, Refusal>,
    found: Lookup,
) -> Result<u64, Refusal>
    ensures { outcome_in result ≡ back_from fields (outcome_in utc) (outcome_in first) found }
{
    let tai = reading_of(tai_of(first));
    if fields.second == INSERTED {
        read_so(found, tai, reading_of(utc), fields, first)
    } else {
        later_from(found, tai, first)
    }
}

// An answer to fields that exist, and else the refusal of the first that is out of range.
pub fn if_real(fields: CivilDateTime, answer: Result<u64, Refusal>) -> Result<u64, Refusal>
    ensures { outcome_in result ≡ of_real fields (outcome_in answer) }
{
    fields.check()?;
    answer
}
