// Civil dates of the Gregorian calendar, the days between them, and the epochs of the time scales: epoch.rs, and the
// two directions of civil.rs. Any field is taken; real dates follow the calendar, the rest the formula.
#![tactic(auto)]

pub mod engine;
pub mod epochs;

ghost use Rattle.std.specs.Prelude.{◌≡◌, ◌*◌, pos, ◌*ℤ◌};
ghost use Rattle.refusals.specs.Outcome.{outcome_in};
ghost use Rattle.counts.specs.Exact.{duration_of};
ghost use Rattle.counts.specs.Units.{second, day_seconds};
ghost use Rattle.calendar.specs.Calendar.{on};
ghost use Rattle.calendar.specs.Dates.{too_early, days_between, days_from_unix, days_until, seconds_until, nanos_until};
ghost use Rattle.calendar.specs.Answers.{date_in};

use counts::units::NANOS_PER_SECOND;
use refusals::Refusal;

const SECONDS_PER_DAY: i64 = 86_400;

const NANOS_PER_DAY: i64 = SECONDS_PER_DAY * NANOS_PER_SECOND as i64;

// The year before which there is none of 32 bits.
const LEAST_YEAR: i32 = i32::MIN;

// A date, with any fields.
#[derive(Clone, Copy, Debug, PartialEq, Eq, Hash)]
pub struct CivilDate {
    pub year: i32,
    pub month: u8,
    pub day: u8,
}

// Whether the year of the March before it is none of 32 bits, where epoch.rs's step overflows.
fn too_early(date: CivilDate) -> bool
    ensures { result ≡ too_early (date_in date) }
{
    date.year == LEAST_YEAR && date.month < 3
}

// Days from one date to another, whatever the dates.
fn days_between(from: CivilDate, to: CivilDate) -> i64
    ensures { result ≡ days_between (date_in from) (date_in to) }
{
    engine::days_of_date(to) - engine::days_of_date(from)
}

// Days in nanoseconds.
fn nanos_of_days(days: i64) -> Result<i64, Refusal>
    ensures { outcome_in result ≡ duration_of (days *ℤ pos (day_seconds * second)) }
{
    days.checked_mul(NANOS_PER_DAY).ok_or(Refusal::Overflow)
}

impl CivilDate {
    pub fn new(year: i32, month: u8, day: u8) -> Self
        ensures { date_in result ≡ on year month day }
    {
        CivilDate { year, month, day }
    }

    // Days from 1970-01-01, negative before it.
    pub fn days_from_unix(self) -> Result<i64, Refusal>
        ensures { outcome_in result ≡ days_from_unix (date_in self) }
    {
        if too_early(self) {
            return Err(Refusal::Overflow);
        }
        Ok(engine::days_of_date(self))
    }

    // Days from this date to another.
    pub fn days_until(self, other: CivilDate) -> Result<i64, Refusal>
        ensures { outcome_in result ≡ days_until (date_in self) (date_in other) }
    {
        if too_early(self) || too_early(other) {
            return Err(Refusal::Overflow);
        }
        Ok(days_between(self, other))
    }

    // The same in seconds.
    pub fn seconds_until(self, other: CivilDate) -> Result<i64, Refusal>
        ensures { outcome_in result ≡ seconds_until (date_in self) (date_in other) }
    {
        Ok(self.days_until(other)? * SECONDS_PER_DAY)
    }

    // The same in nanoseconds, refused where they do not fit.
    pub fn nanos_until(self, other: CivilDate) -> Result<i64, Refusal>
        ensures { outcome_in result ≡ nanos_until (date_in self) (date_in other) }
    {
        nanos_of_days(self.days_until(other)?)
    }
}
