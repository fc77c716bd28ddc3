// What every time scale has: counts of nanoseconds since its epoch, and the arithmetic on them.
ghost use Rattle.std.specs.Prelude.{◌≡◌, ℕ, ◌-◌, ◌*◌, ◌/◌, ◌%◌, ◌^◌, pos, ◌+ℤ◌, ◌-ℤ◌};
ghost use Rattle.refusals.specs.Outcome.{outcome_in, changed};
ghost use Rattle.counts.specs.Exact.{count_of, duration_of, nearest_count};
ghost use Rattle.counts.specs.Units.{second, day_seconds, parts_of};
ghost use Rattle.counts.specs.Answers.{duration_in};

use counts::units::DurationParts;
use counts::{Duration, sums, units};
use refusals::Refusal;

// A scale is a type of its own, so that a count of one scale is never taken where another is due.
pub trait Scale: Copy {
    ghost count: { Self → ℕ };

    ghost EPOCH: { Self };

    const EPOCH: Self;

    ghost MIN: { Self };

    const MIN: Self;

    ghost MAX: { Self };

    const MAX: Self;

    ghost NANOS_PER_YEAR: { ℕ };

    const NANOS_PER_YEAR: u64;

    fn from_nanos(nanos: u64) -> Self
        ensures { count result ≡ nanos };

    fn as_nanos(self) -> u64
        ensures { result ≡ count self };

    // A plain answer as one of the scale.
    fn of(plain: Result<u64, Refusal>) -> Result<Self, Refusal>
        ensures { changed count (outcome_in result) ≡ outcome_in plain }
    {
        Ok(Self::from_nanos(plain?))
    }

    fn checked_from_seconds(seconds: u64) -> Result<Self, Refusal>
        ensures { changed count (outcome_in result) ≡ count_of (pos (seconds * second)) }
    {
        Self::of(units::from_seconds(seconds))
    }

    // Whole seconds.
    fn as_seconds(self) -> u64
        ensures { result ≡ count self / second }
    {
        self.as_nanos() / units::NANOS_PER_SECOND
    }

    // Whole seconds, and the nanoseconds left.
    fn as_parts(self) -> DurationParts
        ensures { result ≡ parts_of (count self) }
    {
        units::parts(self.as_nanos())
    }

    fn sub_second_nanos(self) -> u32
        ensures { result ≡ count self % second }
    {
        (self.as_nanos() % units::NANOS_PER_SECOND) as u32
    }

    fn checked_add(self, d: Duration) -> Result<Self, Refusal>
        ensures { changed count (outcome_in result) ≡ count_of (pos (count self) +ℤ d.0) }
    {
        Self::of(sums::later(self.as_nanos(), d))
    }

    fn checked_sub_duration(self, d: Duration) -> Result<Self, Refusal>
        ensures { changed count (outcome_in result) ≡ count_of (pos (count self) -ℤ d.0) }
    {
        Self::of(sums::earlier(self.as_nanos(), d))
    }

    // Stops at the first and the last count.
    fn saturating_add(self, d: Duration) -> Self
        ensures { count result ≡ nearest_count (pos (count self) +ℤ d.0) }
    {
        Self::from_nanos(sums::saturating_later(self.as_nanos(), d))
    }

    // Stops at the first and the last count.
    fn saturating_sub_duration(self, d: Duration) -> Self
        ensures { count result ≡ nearest_count (pos (count self) -ℤ d.0) }
    {
        Self::from_nanos(sums::saturating_earlier(self.as_nanos(), d))
    }

    // The duration since an earlier count, or, with a minus sign, to a later one.
    fn checked_elapsed(self, earlier: Self) -> Result<Duration, Refusal>
        ensures { duration_in result ≡ duration_of (pos (count self) -ℤ pos (count earlier)) }
    {
        sums::elapsed(self.as_nanos(), earlier.as_nanos())
    }

    // Counts begin at 0, the epoch, and end at the largest number of 64 bits.
    ghost ends: { (count EPOCH ≡ 0) × (count MIN ≡ 0) × (count MAX ≡ 2 ^ 64 - 1) };

    // A year has 365 days.
    ghost year: { NANOS_PER_YEAR ≡ 365 * day_seconds * second };

    // A count tells which value of the scale it is.
    ghost tells: { (x y : Self) → count x ≡ count y → x ≡ y };
}
