// Where two lists of entries part, and the first counts that this may change.
ghost use Rattle.std.specs.Prelude.{◌≡◌};
ghost use Rattle.refusals.specs.Outcome.{outcome_in};
ghost use Rattle.alike.specs.Alike.{earlier, counts_from, parting, told};

use crate::{Alike, Counts};
use conversions::inner::utc_minus_tai;
use counts::{Duration, sums, units};
use refusals::Refusal;
use scales::gps_tai::TAI_MINUS_GPS_NS;
use tables::LeapEntry;
use tables::inner::slots::Slots;

// Where two lists part: nowhere, at the first entry that one has after the other, or at the earlier of two that differ.
#[derive(Clone, Copy)]
pub enum Parting {
    Nowhere,
    Onward(LeapEntry),
    Apart(LeapEntry),
}

fn earlier(one: LeapEntry, other: LeapEntry) -> LeapEntry
    ensures { result ≡ earlier one other }
{
    if one.tai_nanos <= other.tai_nanos {
        one
    } else {
        other
    }
}

// Two lists, an entry at a time.
pub fn parting_of(old: &Slots, new: &Slots) -> Parting
    ensures { result ≡ parting old.now new.now }
{
    for place in 0..old.len().max(new.len()) {
        match (old.get(place), new.get(place)) {
            (Some(one), Some(other)) => {
                if one != other {
                    return Parting::Apart(earlier(one, other));
                }
            }
            (Some(next), None) => return Parting::Onward(next),
            (None, Some(next)) => return Parting::Onward(next),
            (None, None) => return Parting::Nowhere,
        }
    }
    Parting::Nowhere
}

// The GPS count at an entry's threshold, and the UTC count one second past its event.
fn counts_from(entry: LeapEntry) -> Result<Counts, Refusal>
    ensures { outcome_in result ≡ counts_from entry }
{
    let gps = sums::minus(entry.tai_nanos, TAI_MINUS_GPS_NS)?;
    let event = sums::later(
        entry.tai_nanos,
        Duration(utc_minus_tai(entry.tai_minus_utc)),
    )?;
    let utc = sums::plus(event, units::NANOS_PER_SECOND)?;
    Ok(Counts { gps, utc })
}

// What is told of where two lists part, which are both regular or not.
pub fn told(regular: bool, at: Parting) -> Result<Alike, Refusal>
    ensures { outcome_in result ≡ told regular at }
{
    match at {
        Parting::Nowhere => Ok(Alike::Everywhere),
        Parting::Onward(entry) if regular => Ok(Alike::Before(counts_from(entry)?)),
        Parting::Apart(entry) if regular => Ok(Alike::Apart(counts_from(entry)?)),
        _ => Ok(Alike::Irregular),
    }
}
