// Counts by seconds, and by whole days or weeks with the rest of one.
ghost use Rattle.std.specs.Prelude.{◌≡◌, ◌+◌, ◌*◌, pos};
ghost use Rattle.refusals.specs.Outcome.{outcome_in};
ghost use Rattle.counts.specs.Exact.{count_of};
ghost use Rattle.counts.specs.Units.{second, parts_of, parts_from, of_units};

use crate::sums;
use refusals::Refusal;

pub const NANOS_PER_SECOND: u64 = 1_000_000_000;

pub const SECONDS_PER_WEEK: u32 = 604_800;

pub const NANOS_PER_WEEK: u64 = SECONDS_PER_WEEK as u64 * NANOS_PER_SECOND;
// of 365 days
pub const NANOS_PER_YEAR: u64 = 31_536_000 * NANOS_PER_SECOND;

pub const LARGEST_COUNT: u64 = u64::MAX;

// Whole seconds and the remaining nanoseconds.
#[derive(Clone, Copy, Debug, PartialEq, Eq, Hash)]
pub struct DurationParts {
    pub seconds: u64,
    pub nanos: u32,
}

// The count of whole seconds and further nanoseconds.
pub fn from_seconds_and(seconds: u64, nanos: u64) -> Result<u64, Refusal>
    ensures { outcome_in result ≡ count_of (pos (seconds * second + nanos)) }
{
    let whole = seconds
        .checked_mul(NANOS_PER_SECOND)
        .ok_or(Refusal::Overflow)?;
    sums::plus(whole, nanos)
}

// The count of whole seconds.
pub fn from_seconds(seconds: u64) -> Result<u64, Refusal>
    ensures { outcome_in result ≡ count_of (pos (seconds * second)) }
{
    from_seconds_and(seconds, 0)
}

// A count as whole seconds and the remaining nanoseconds.
pub fn parts(n: u64) -> DurationParts
    ensures { result ≡ parts_of n }
{
    DurationParts {
        seconds: n / NANOS_PER_SECOND,
        nanos: (n % NANOS_PER_SECOND) as u32,
    }
}

impl DurationParts {
    // Parts whose nanoseconds are less than a second.
    pub fn new(seconds: u64, nanos: u32) -> Result<DurationParts, Refusal>
        ensures { outcome_in result ≡ parts_from seconds nanos }
    {
        if NANOS_PER_SECOND <= nanos as u64 {
            return Err(Refusal::InvalidNanos);
        }
        Ok(DurationParts { seconds, nanos })
    }
}

// The count of `whole` units of `unit` seconds each, and the rest of one.
pub fn of_units(unit_seconds: u32, whole: u32, rest: DurationParts) -> Result<u64, Refusal>
    ensures { outcome_in result ≡ of_units unit_seconds whole rest.seconds rest.nanos }
{
    let unit = unit_seconds as u64;
    let seconds = rest.seconds;
    let nanos = rest.nanos as u64;
    if unit <= seconds {
        return Err(Refusal::InvalidSeconds);
    }
    if NANOS_PER_SECOND <= nanos {
        return Err(Refusal::InvalidNanos);
    }
    from_seconds_and((whole as u64) * unit + seconds, nanos)
}
