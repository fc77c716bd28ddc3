// Civil dates and times of day in UTC, and their counts: civil.rs. No field is checked on the way to a count; a real
// date follows the calendar, any other the formula, and a time of day only its sum. Which fields exist is told apart from
// it, by `check`.
#![tactic(auto)]

pub mod inner;

ghost use Rattle.std.specs.Prelude.{◌≡◌, pos, ◌-ℤ◌, eqb, drop};
ghost use Rattle.refusals.specs.Outcome.{outcome_in};
ghost use Rattle.scales.specs.Answers.{utc_in};
ghost use Rattle.calendar.specs.Dates.{utc_epoch_day};
ghost use Rattle.civil.specs.Fields.{fields_of, time_of, on_day, count_at};
ghost use Rattle.civil.specs.Real.{field_tests, first_failed, out_of_range, check_in};

use calendar::{CivilDate, engine};
use counts::sums;
use counts::units::NANOS_PER_SECOND;
use inner::{SECONDS_PER_DAY, SECONDS_PER_HOUR, SECONDS_PER_MINUTE, fields_at};
use refusals::Refusal;
use scales::utc::Utc;

const NANOS_PER_DAY: u64 = SECONDS_PER_DAY * NANOS_PER_SECOND;

// The Unix day of 1972-01-01: two years without a leap day.
const UTC_EPOCH_DAY: i64 = 730;

// The last Unix day that a count reaches: 2^64 / NANOS_PER_DAY is 213,503.98.
const LAST_UNIX_DAY: i64 = UTC_EPOCH_DAY + 213_503;

// A date and a time of day, with any fields.
#[derive(Clone, Copy, Debug, PartialEq, Eq, Hash)]
pub struct CivilDateTime {
    pub year: i32,
    pub month: u8,
    pub day: u8,
    pub hour: u8,
    pub minute: u8,
    pub second: u8,
    pub nanos: u32,
}

// The count of a time on a Unix day.
fn count_on_day(unix_day: i64, time: u64) -> Result<u64, Refusal>
    ensures { outcome_in result ≡ on_day (unix_day -ℤ pos utc_epoch_day) time }
{
    if unix_day < UTC_EPOCH_DAY || unix_day > LAST_UNIX_DAY {
        return Err(Refusal::Overflow);
    }
    let day = (unix_day - UTC_EPOCH_DAY) as u64;
    sums::plus(day * NANOS_PER_DAY, time)
}

impl CivilDateTime {
    // The fields of a count.
    pub fn from_utc_nanos(count: u64) -> CivilDateTime
        ensures { result ≡ fields_of count }
    {
        fields_at(count / NANOS_PER_SECOND, (count % NANOS_PER_SECOND) as u32)
    }

    fn date(self) -> CivilDate
        ensures { result ≡ record { year = self.year; month = self.month; day = self.day } }
    {
        CivilDate {
            year: self.year,
            month: self.month,
            day: self.day,
        }
    }

    // Tests hour, minute, second and nanoseconds.
    fn check_time(self) -> Result<(), Refusal>
        ensures { check_in result ≡ first_failed (drop 2 (field_tests self)) }
    {
        if self.hour >= 24 {
            return Err(Refusal::NoSuchHour);
        }
        if self.minute >= 60 {
            return Err(Refusal::NoSuchMinute);
        }
        if self.second > 60 {
            return Err(Refusal::NoSuchSecond);
        }
        if self.nanos as u64 >= NANOS_PER_SECOND {
            return Err(Refusal::InvalidNanos);
        }
        Ok(())
    }

    // Tests the fields from the month on, and refuses the first that does not exist. Second 60 passes: whether one was
    // inserted there is for a table to say.
    pub fn check(self) -> Result<(), Refusal>
        ensures { check_in result ≡ out_of_range self }
    {
        let date = self.date();
        if !engine::has_month(date) {
            return Err(Refusal::NoSuchMonth);
        }
        if !engine::has_day(date) {
            return Err(Refusal::NoSuchDay);
        }
        self.check_time()
    }

    // The nanoseconds of the time of day.
    fn time_of_day(self) -> u64
        ensures { result ≡ time_of self }
    {
        let hour = self.hour as u64;
        let minute = self.minute as u64;
        let second = self.second as u64;
        (hour * SECONDS_PER_HOUR + minute * SECONDS_PER_MINUTE + second) * NANOS_PER_SECOND
            + self.nanos as u64
    }

    // The count of the fields: refused before 1972-01-01, and where it does not fit.
    pub fn to_utc_nanos(self) -> Result<u64, Refusal>
        ensures { outcome_in result ≡ count_at self }
    {
        count_on_day(engine::days_of_date(self.date()), self.time_of_day())
    }

    // The same as a count of its scale.
    pub fn to_utc(self) -> Result<Utc, Refusal>
        ensures { utc_in result ≡ count_at self }
    {
        Ok(Utc(self.to_utc_nanos()?))
    }

    // Whether there is no part of a second.
    pub fn is_whole_second(self) -> bool
        ensures { result ≡ eqb self.nanos 0 }
    {
        self.nanos == 0
    }
}

// The fields of a UTC count.
pub fn to_civil(utc: Utc) -> CivilDateTime
    ensures { result ≡ fields_of utc.0 }
{
    CivilDateTime::from_utc_nanos(utc.0)
}
