// Scales behind GPS to UTC and GLONASS and back, by way of GPS, by the built-in table.
ghost use Rattle.std.specs.Prelude.{◌≡◌};
ghost use Rattle.refusals.specs.Outcome.{outcome_in, changed};
ghost use Rattle.scales.specs.Answers.{utc_in, glonass_in};
ghost use Rattle.conversions.specs.Shifted.{shifted_to_utc, utc_to_shifted, shifted_to_glonass, glonass_to_shifted};
ghost use Rattle.builtin.specs.Builtin.{builtin};

use crate::inner::shifted::{shifted_from_glonass, shifted_from_utc, utc_from_shifted};
use conversions::inner::steps;
use refusals::Refusal;
use scales::behind_gps::BehindGps;
use scales::beidou::Beidou;
use scales::galileo::Galileo;
use scales::glonass::Glonass;
use scales::utc::Utc;

pub trait ByBuiltin: BehindGps {
    fn to_utc(self) -> Result<Utc, Refusal>
        ensures { utc_in result ≡ shifted_to_utc Self.BEHIND_GPS_NS builtin (Self.count self) }
    {
        utc_from_shifted(Ok(self.as_nanos()), Self::BEHIND_GPS_NS).map(Utc)
    }

    // Where two counts share a UTC count it is the first.
    fn from_utc(utc: Utc) -> Result<Self, Refusal>
        ensures { changed Self.count (outcome_in result) ≡ utc_to_shifted Self.BEHIND_GPS_NS builtin utc.0 }
    {
        Ok(Self::from_nanos(shifted_from_utc(Ok(utc.0), Self::BEHIND_GPS_NS)?))
    }

    fn to_glonass(self) -> Result<Glonass, Refusal>
        ensures { glonass_in result ≡ shifted_to_glonass Self.BEHIND_GPS_NS builtin (Self.count self) }
    {
        let utc = utc_from_shifted(Ok(self.as_nanos()), Self::BEHIND_GPS_NS);
        steps::glonass_from_utc(utc).map(Glonass)
    }

    fn from_glonass(glonass: Glonass) -> Result<Self, Refusal>
        ensures { changed Self.count (outcome_in result) ≡
            glonass_to_shifted Self.BEHIND_GPS_NS builtin glonass.0 }
    {
        Ok(Self::from_nanos(shifted_from_glonass(Ok(glonass.0), Self::BEHIND_GPS_NS)?))
    }
}

impl ByBuiltin for Galileo {}

impl ByBuiltin for Beidou {}
