// Scales whose counts are fewer than the GPS counts by a fixed number of seconds.
ghost use Rattle.std.specs.Prelude.{◌≡◌, ℕ};
ghost use Rattle.refusals.specs.Outcome.{outcome_in, changed, then};
ghost use Rattle.counts.specs.Exact.{up, down};
ghost use Rattle.scales.specs.Answers.{gps_in};

use crate::gps::Gps;
use crate::scale::Scale;
use counts::sums;
use refusals::Refusal;

pub trait BehindGps: Scale {
    ghost BEHIND_GPS_NS: { ℕ };

    // How far a count is behind the GPS count.
    const BEHIND_GPS_NS: u64;

    fn to_gps(self) -> Result<Gps, Refusal>
        ensures { gps_in result ≡ up BEHIND_GPS_NS (Self.count self) }
    {
        Ok(Gps(sums::plus(self.as_nanos(), Self::BEHIND_GPS_NS)?))
    }

    // Refuses 1 before the scale's epoch.
    fn from_gps(gps: Gps) -> Result<Self, Refusal>
        ensures { changed Self.count (outcome_in result) ≡ down BEHIND_GPS_NS gps.0 }
    {
        Ok(Self::from_nanos(sums::minus(gps.0, Self::BEHIND_GPS_NS)?))
    }
}

// The count of one such scale as that of another, by way of GPS. Refuses 1 where the GPS count is above 64 bits, and
// before the other scale's epoch.
pub(crate) fn across<A: BehindGps, B: BehindGps>(count: A) -> Result<B, Refusal>
    ensures { changed B.count (outcome_in result) ≡ then (up A.BEHIND_GPS_NS (A.count count)) (down B.BEHIND_GPS_NS) }
{
    B::from_gps(count.to_gps()?)
}
