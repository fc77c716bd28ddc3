// Galileo and BeiDou, by way of GPS.
ghost use Rattle.std.specs.Prelude.{◌≡◌};
ghost use Rattle.refusals.specs.Outcome.{then};
ghost use Rattle.counts.specs.Exact.{up, down};
ghost use Rattle.scales.specs.Answers.{galileo_in, beidou_in};
ghost use Rattle.scales.specs.Scales.{gps_minus_galileo, gps_minus_beidou};

use crate::behind_gps::across;
use crate::beidou::Beidou;
use crate::galileo::Galileo;
use refusals::Refusal;

impl Galileo {
    // Refuses 1 where the GPS count is above 64 bits, and before the epoch of BeiDou.
    pub fn to_beidou(self) -> Result<Beidou, Refusal>
        ensures { beidou_in result ≡ then (up gps_minus_galileo self.0) (down gps_minus_beidou) }
    {
        across(self)
    }
}

impl Beidou {
    // Refuses 1 where the GPS count is above 64 bits.
    pub fn to_galileo(self) -> Result<Galileo, Refusal>
        ensures { galileo_in result ≡ then (up gps_minus_beidou self.0) (down gps_minus_galileo) }
    {
        across(self)
    }
}
