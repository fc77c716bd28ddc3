// A scale that is behind GPS by a fixed number of nanoseconds, to UTC and back by the built-in table.
ghost use Rattle.std.specs.Prelude.{◌≡◌};
ghost use Rattle.refusals.specs.Outcome.{then, outcome_in};
ghost use Rattle.counts.specs.Exact.{down};
ghost use Rattle.conversions.specs.Shifted.{shifted_to_utc, later_of, utc_to_shifted, glonass_to_shifted};
ghost use Rattle.builtin.specs.Builtin.{builtin};

use crate::from_builtin;
use crate::inner::by_utc::gps_from_utc;
use crate::inner::lookup::utc_from_gps;
use conversions::inner::later::later_of;
use conversions::inner::steps;
use counts::sums;
use refusals::Refusal;

pub fn utc_from_shifted(count: Result<u64, Refusal>, behind: u64) -> Result<u64, Refusal>
    ensures { outcome_in result ≡ then (outcome_in count) (shifted_to_utc behind builtin) }
{
    utc_from_gps(steps::up(count, behind))
}

// The count by the later of two GPS counts that share a UTC count.
fn shifted_by_later(gps: u64, behind: u64) -> Result<u64, Refusal>
    ensures { outcome_in result ≡ then (later_of builtin gps) (down behind) }
{
    steps::down(later_of(gps, from_builtin()), behind)
}

pub fn shifted_from_utc(utc: Result<u64, Refusal>, behind: u64) -> Result<u64, Refusal>
    ensures { outcome_in result ≡ then (outcome_in utc) (utc_to_shifted behind builtin) }
{
    let gps = gps_from_utc(utc)?;
    if gps < behind {
        shifted_by_later(gps, behind)
    } else {
        sums::minus(gps, behind)
    }
}

// The same from GLONASS, by way of UTC. It is written out: what is rare, and taken by two functions, the compiler leaves
// out of line. By a call of `shifted_from_utc` GLONASS to BeiDou takes 8.1 ns in place of 7.1.
pub fn shifted_from_glonass(glonass: Result<u64, Refusal>, behind: u64) -> Result<u64, Refusal>
    ensures { outcome_in result ≡ then (outcome_in glonass) (glonass_to_shifted behind builtin) }
{
    let gps = gps_from_utc(steps::utc_from_glonass(glonass))?;
    if gps < behind {
        shifted_by_later(gps, behind)
    } else {
        sums::minus(gps, behind)
    }
}
