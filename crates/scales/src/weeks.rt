// Scales whose counts are read in weeks.
ghost use Rattle.std.specs.Prelude.{◌≡◌, ◌*◌, ◌/◌, ◌%◌};
ghost use Rattle.refusals.specs.Outcome.{outcome_in, changed};
ghost use Rattle.counts.specs.Units.{second, week_seconds, of_units};

use crate::scale::Scale;
use counts::units;
use counts::units::DurationParts;
use refusals::Refusal;

pub trait Weeks: Scale {
    // Whole weeks and the time of the week.
    fn from_week_tow(week: u32, tow: DurationParts) -> Result<Self, Refusal>
        ensures { changed Self.count (outcome_in result) ≡ of_units week_seconds week tow.seconds tow.nanos }
    {
        Ok(Self::from_nanos(units::of_units(units::SECONDS_PER_WEEK, week, tow)?))
    }

    fn week(self) -> u32
        ensures { result ≡ Self.count self / (week_seconds * second) }
    {
        (self.as_nanos() / units::NANOS_PER_WEEK) as u32
    }

    // Whole seconds of the week.
    fn tow_seconds(self) -> u32
        ensures { result ≡ Self.count self % (week_seconds * second) / second }
    {
        (self.as_nanos() % units::NANOS_PER_WEEK / units::NANOS_PER_SECOND) as u32
    }
}
