// The other scales, as steps before and after a conversion between GPS and UTC, for every store: a count goes on, and a
// refusal stays.
ghost use Rattle.std.specs.Prelude.{◌≡◌};
ghost use Rattle.refusals.specs.Outcome.{then, changed, outcome_in};
ghost use Rattle.counts.specs.Exact.{up, down};
ghost use Rattle.conversions.specs.Conversions.{glonass_epoch, utc_to_unix};

use counts::{sums, units, unix};
use refusals::Refusal;

// 1972-01-01 to 1995-12-31 21:00: 8,766 days of 86,400 s, less three hours
const GLONASS_EPOCH_FROM_UTC_EPOCH_NS: u64 = 757_371_600 * units::NANOS_PER_SECOND;

// A fixed difference added.
pub fn up(answer: Result<u64, Refusal>, difference: u64) -> Result<u64, Refusal>
    ensures { outcome_in result ≡ then (outcome_in answer) (up difference) }
{
    sums::plus(answer?, difference)
}

// A fixed difference taken away.
pub fn down(answer: Result<u64, Refusal>, difference: u64) -> Result<u64, Refusal>
    ensures { outcome_in result ≡ then (outcome_in answer) (down difference) }
{
    sums::minus(answer?, difference)
}

pub fn utc_from_glonass(glonass: Result<u64, Refusal>) -> Result<u64, Refusal>
    ensures { outcome_in result ≡ then (outcome_in glonass) (up glonass_epoch) }
{
    up(glonass, GLONASS_EPOCH_FROM_UTC_EPOCH_NS)
}

pub fn glonass_from_utc(utc: Result<u64, Refusal>) -> Result<u64, Refusal>
    ensures { outcome_in result ≡ then (outcome_in utc) (down glonass_epoch) }
{
    down(utc, GLONASS_EPOCH_FROM_UTC_EPOCH_NS)
}

// The whole Unix seconds.
pub fn unix_from_utc(utc: Result<u64, Refusal>) -> Result<i64, Refusal>
    ensures { outcome_in result ≡ changed utc_to_unix (outcome_in utc) }
{
    utc.map(unix::as_unix_seconds)
}
