// What GPS alone has: the TAI count, which is 19 s ahead.
ghost use Rattle.std.specs.Prelude.{◌≡◌};
ghost use Rattle.counts.specs.Exact.{up, down};
ghost use Rattle.scales.specs.Answers.{gps_in, tai_in};
ghost use Rattle.scales.specs.Scales.{tai_minus_gps};

use crate::gps::Gps;
use crate::tai::Tai;
use counts::{sums, units};
use refusals::Refusal;

// TAI is 19 s ahead of GPS.
pub const TAI_MINUS_GPS_NS: u64 = 19 * units::NANOS_PER_SECOND;

impl Gps {
    pub fn to_tai(self) -> Result<Tai, Refusal>
        ensures { tai_in result ≡ up tai_minus_gps self.0 }
    {
        Ok(Tai(sums::plus(self.0, TAI_MINUS_GPS_NS)?))
    }

    pub fn from_tai(tai: Tai) -> Result<Gps, Refusal>
        ensures { gps_in result ≡ down tai_minus_gps tai.0 }
    {
        Ok(Gps(sums::minus(tai.0, TAI_MINUS_GPS_NS)?))
    }
}
