// UTC counts, which begin with 1972, and Unix time, which begins with 1970.
ghost use Rattle.std.specs.Prelude.{◌≡◌, ◌+◌, ◌*◌, ◌/◌, ◌-◌, ◌^◌, min, pos, ◌-ℤ◌, ◌*ℤ◌};
ghost use Rattle.refusals.specs.Outcome.{outcome_in};
ghost use Rattle.counts.specs.Exact.{count_of};
ghost use Rattle.counts.specs.Units.{second, unix_offset};

use crate::sums::Step;
use crate::units::NANOS_PER_SECOND;
use crate::{Duration, sums, units};
use refusals::Refusal;

// 1970-01-01 to 1972-01-01: 730 days of 86,400 s
pub const UTC_EPOCH_UNIX_OFFSET_S: u64 = 63_072_000;

pub const UTC_EPOCH_UNIX_OFFSET_NS: u64 = UTC_EPOCH_UNIX_OFFSET_S * NANOS_PER_SECOND;

const LARGEST_SIGNED: u64 = i64::MAX as u64;

pub fn from_unix_seconds(seconds: i64) -> Result<u64, Refusal>
    ensures { outcome_in result ≡ count_of ((seconds -ℤ pos unix_offset) *ℤ pos second) }
{
    match sums::by_sign(Duration(seconds)) {
        Step::Forward(s) => units::from_seconds(sums::minus(s, UTC_EPOCH_UNIX_OFFSET_S)?),
        Step::Back(_) => Err(Refusal::Overflow),
    }
}

pub fn from_unix_nanos(nanos: i64) -> Result<u64, Refusal>
    ensures { outcome_in result ≡ count_of (nanos -ℤ pos (unix_offset * second)) }
{
    match sums::by_sign(Duration(nanos)) {
        Step::Forward(n) => sums::minus(n, UTC_EPOCH_UNIX_OFFSET_NS),
        Step::Back(_) => Err(Refusal::Overflow),
    }
}

pub fn as_unix_seconds(count: u64) -> i64
    ensures { result ≡ pos (count / second + unix_offset) }
{
    (count / NANOS_PER_SECOND + UTC_EPOCH_UNIX_OFFSET_S) as i64
}

// Stops at the largest signed number.
pub fn as_unix_nanos(count: u64) -> i64
    ensures { result ≡ pos (min (count + unix_offset * second) (2 ^ 63 - 1)) }
{
    count
        .saturating_add(UTC_EPOCH_UNIX_OFFSET_NS)
        .min(LARGEST_SIGNED) as i64
}
