// The entry of a leap-second event, from what IERS Bulletin C says of it: the UTC date that begins with the new offset,
// and that offset. Do not take the threshold from `utc_to_gps`: the UTC count of that midnight is the inserted second's
// too, and the conversion gives the first of the two, a second before the threshold.
ghost use Rattle.std.specs.Prelude.{◌≡◌, pos, ◌+ℤ◌, ◌-ℤ◌};
ghost use Rattle.refusals.specs.Outcome.{outcome_in};
ghost use Rattle.counts.specs.Exact.{count_of};
ghost use Rattle.calendar.specs.Answers.{date_in};
ghost use Rattle.civil.specs.Fields.{count_at};
ghost use Rattle.conversions.specs.Conversions.{E, in_nanos};
ghost use Rattle.builtin.specs.Events.{midnight, event_threshold, entry_of_event};

use calendar::CivilDate;
use civil::CivilDateTime;
use conversions::inner::utc_minus_tai;
use counts::{Duration, sums};
use refusals::Refusal;
use tables::LeapEntry;

// The UTC count of a date's midnight.
fn utc_at_midnight(date: CivilDate) -> Result<u64, Refusal>
    ensures { outcome_in result ≡ count_at (midnight (date_in date)) }
{
    let fields = CivilDateTime {
        year: date.year,
        month: date.month,
        day: date.day,
        hour: 0,
        minute: 0,
        second: 0,
        nanos: 0,
    };
    fields.to_utc_nanos()
}

// The TAI reading of a UTC count, at an offset.
fn tai_at(utc: u64, offset: i32) -> Result<u64, Refusal>
    ensures { outcome_in result ≡ count_of (pos utc -ℤ pos E +ℤ in_nanos offset) }
{
    sums::earlier(utc, Duration(utc_minus_tai(offset)))
}

fn threshold(date: CivilDate, tai_minus_utc: i32) -> Result<u64, Refusal>
    ensures { outcome_in result ≡ event_threshold (date_in date) tai_minus_utc }
{
    tai_at(utc_at_midnight(date)?, tai_minus_utc)
}

// The entry of an event: 2017-01-01 and 37 give (1,167,264,037 s, 37). Any fields make a date, as in `to_utc_nanos`.
// Refuses 1 where the date has no UTC count, and where the threshold is no count.
pub fn entry_of_event(date: CivilDate, tai_minus_utc: i32) -> Result<LeapEntry, Refusal>
    ensures { outcome_in result ≡ entry_of_event (date_in date) tai_minus_utc }
{
    Ok(LeapEntry {
        tai_nanos: threshold(date, tai_minus_utc)?,
        tai_minus_utc,
    })
}
