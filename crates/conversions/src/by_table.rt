// Scales behind GPS to UTC and GLONASS and back, by way of GPS, by a leap-second table. Each call tells whether the table
// is stale at the TAI reading that was looked up last.
ghost use Rattle.std.specs.Prelude.{◌≡◌, ◌+◌};
ghost use Rattle.tables.specs.Slots.{entries_of};
ghost use Rattle.tables.specs.Expiry.{by_table};
ghost use Rattle.scales.specs.Scales.{tai_minus_gps};
ghost use Rattle.conversions.specs.Conversions.{glonass_epoch};
ghost use Rattle.conversions.specs.Shifted.{shifted_to_utc, utc_to_shifted, shifted_reading, shifted_to_glonass};
ghost use Rattle.conversions.specs.Shifted.{glonass_to_shifted};
ghost use Rattle.conversions.specs.Answers.{dated_on, dated_utc_in, dated_glonass_in};

use crate::inner::by_table::{shifted_from_utc, utc_from_shifted};
use crate::inner::{dated, steps};
use scales::behind_gps::BehindGps;
use scales::beidou::Beidou;
use scales::galileo::Galileo;
use scales::glonass::Glonass;
use scales::utc::Utc;
use tables::{Dated, LeapTable};

pub trait ByTable: BehindGps {
    fn to_utc(self, table: LeapTable) -> Dated<Utc>
        ensures { dated_utc_in result ≡
            by_table table (Self.count self + Self.BEHIND_GPS_NS + tai_minus_gps)
            (shifted_to_utc Self.BEHIND_GPS_NS (entries_of table) (Self.count self)) }
    {
        dated::on_scale(utc_from_shifted(Ok(self.as_nanos()), table, Self::BEHIND_GPS_NS))
    }

    // Where two counts share a UTC count it is the first.
    fn from_utc(utc: Utc, table: LeapTable) -> Dated<Self>
        ensures { dated_on Self.count result ≡
            by_table table (shifted_reading Self.BEHIND_GPS_NS (entries_of table) utc.0)
            (utc_to_shifted Self.BEHIND_GPS_NS (entries_of table) utc.0) }
    {
        dated::on_scale(shifted_from_utc(Ok(utc.0), table, Self::BEHIND_GPS_NS))
    }

    fn to_glonass(self, table: LeapTable) -> Dated<Glonass>
        ensures { dated_glonass_in result ≡
            by_table table (Self.count self + Self.BEHIND_GPS_NS + tai_minus_gps)
            (shifted_to_glonass Self.BEHIND_GPS_NS (entries_of table) (Self.count self)) }
    {
        let utc = utc_from_shifted(Ok(self.as_nanos()), table, Self::BEHIND_GPS_NS);
        dated::on_scale(dated::glonass_from_utc(utc))
    }

    fn from_glonass(glonass: Glonass, table: LeapTable) -> Dated<Self>
        ensures { dated_on Self.count result ≡
            by_table table (shifted_reading Self.BEHIND_GPS_NS (entries_of table) (glonass.0 + glonass_epoch))
            (glonass_to_shifted Self.BEHIND_GPS_NS (entries_of table) glonass.0) }
    {
        let utc = steps::utc_from_glonass(Ok(glonass.0));
        dated::on_scale(shifted_from_utc(utc, table, Self::BEHIND_GPS_NS))
    }
}

impl ByTable for Galileo {}

impl ByTable for Beidou {}
