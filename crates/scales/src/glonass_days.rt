// What GLONASS alone has: days and weekdays.
ghost use Rattle.std.specs.Prelude.{◌≡◌, ◌*◌, ◌/◌, ◌%◌, leb};
ghost use Rattle.counts.specs.Units.{second, day_seconds, of_units};
ghost use Rattle.scales.specs.Answers.{glonass_in};
ghost use Rattle.scales.specs.Scales.{weekday_of};

use crate::glonass::Glonass;
use counts::units;
use counts::units::DurationParts;
use refusals::Refusal;

const SECONDS_PER_DAY: u32 = 86_400;

const NANOS_PER_DAY: u64 = SECONDS_PER_DAY as u64 * units::NANOS_PER_SECOND;

impl Glonass {
    // Whole days and the time of the day.
    pub fn from_day_tod(day: u32, tod: DurationParts) -> Result<Glonass, Refusal>
        ensures { glonass_in result ≡ of_units day_seconds day tod.seconds tod.nanos }
    {
        Ok(Glonass(units::of_units(SECONDS_PER_DAY, day, tod)?))
    }

    pub fn day(self) -> u32
        ensures { result ≡ self.0 / (day_seconds * second) }
    {
        (self.0 / NANOS_PER_DAY) as u32
    }

    // Whole seconds of the day.
    pub fn tod_seconds(self) -> u32
        ensures { result ≡ self.0 % (day_seconds * second) / second }
    {
        (self.0 % NANOS_PER_DAY / units::NANOS_PER_SECOND) as u32
    }

    // Monday is 1, Sunday 7; day 0 is a Monday.
    pub fn day_of_week(self) -> u8
        ensures { result ≡ weekday_of self.0 }
    {
        (self.0 / NANOS_PER_DAY % 7) as u8 + 1
    }

    // Saturday and Sunday.
    pub fn is_weekend(self) -> bool
        ensures { result ≡ leb 6 (weekday_of self.0) }
    {
        6 <= self.day_of_week()
    }
}
