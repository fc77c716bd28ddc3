// The calls of scales behind GPS: to GPS, UTC and GLONASS, and back, by the built-in table and by one that the host holds
// as an image. `scale` in the name of a call and of a count stands for the scale, as in every_scale.rt.
ghost use Rattle.std.specs.Prelude.{◌+◌};
ghost use Rattle.refusals.specs.Outcome.{Gives};
ghost use Rattle.counts.specs.Exact.{up, down};
ghost use Rattle.scales.specs.Scales.{tai_minus_gps};
ghost use Rattle.conversions.specs.Conversions.{glonass_epoch};
ghost use Rattle.conversions.specs.Shifted.{shifted_to_utc, utc_to_shifted, shifted_reading, shifted_to_glonass};
ghost use Rattle.conversions.specs.Shifted.{glonass_to_shifted};
ghost use Rattle.builtin.specs.Builtin.{builtin};
ghost use Rattle.images.specs.Image.{dated_by_image};
ghost use Rattle.plaitgate.specs.Tables.{dated_as, with_stale};

use crate::give;
use builtin::inner::shifted;
use conversions::inner::{dated, steps};
use images::table;
use scales::behind_gps::BehindGps;
use scales::beidou::Beidou;
use scales::galileo::Galileo;
use scales::gps::Gps;
use scales::scale::Scale;

pub trait HostShifted: BehindGps {
    fn scale_to_gps(scale: u64, gps: &mut u64) -> u32
        ensures { Gives 0 (up Self.BEHIND_GPS_NS scale) result gps.new }
    {
        give::count(Self::from_nanos(scale).to_gps(), gps)
    }

    fn gps_to_scale(gps: u64, scale: &mut u64) -> u32
        ensures { Gives 0 (down Self.BEHIND_GPS_NS gps) result scale.new }
    {
        give::count(Self::from_gps(Gps(gps)), scale)
    }

    fn builtin_scale_to_utc(scale: u64, utc: &mut u64) -> u32
        ensures { Gives 0 (shifted_to_utc Self.BEHIND_GPS_NS builtin scale) result utc.new }
    {
        let answer = shifted::utc_from_shifted(Ok(scale), Self::BEHIND_GPS_NS);
        give::value(answer, 0, utc)
    }

    fn builtin_utc_to_scale(utc: u64, scale: &mut u64) -> u32
        ensures { Gives 0 (utc_to_shifted Self.BEHIND_GPS_NS builtin utc) result scale.new }
    {
        let answer = shifted::shifted_from_utc(Ok(utc), Self::BEHIND_GPS_NS);
        give::value(answer, 0, scale)
    }

    fn builtin_scale_to_glonass(scale: u64, glonass: &mut u64) -> u32
        ensures { Gives 0 (shifted_to_glonass Self.BEHIND_GPS_NS builtin scale) result glonass.new }
    {
        let utc = shifted::utc_from_shifted(Ok(scale), Self::BEHIND_GPS_NS);
        give::value(steps::glonass_from_utc(utc), 0, glonass)
    }

    fn builtin_glonass_to_scale(glonass: u64, scale: &mut u64) -> u32
        ensures { Gives 0 (glonass_to_shifted Self.BEHIND_GPS_NS builtin glonass) result scale.new }
    {
        let answer = shifted::shifted_from_glonass(Ok(glonass), Self::BEHIND_GPS_NS);
        give::value(answer, 0, scale)
    }

    fn table_scale_to_utc(scale: u64, image: &[u8], utc: &mut u64, stale: &mut u8) -> u32
        ensures { Gives (dated_as 0 0)
            (with_stale (dated_by_image image.now (λ es. scale + Self.BEHIND_GPS_NS + tai_minus_gps)
            (λ es. shifted_to_utc Self.BEHIND_GPS_NS es scale))) result
            (dated_as utc.new stale.new) }
    {
        let answer = table::utc_from_shifted(Ok(scale), image, Self::BEHIND_GPS_NS);
        give::dated(answer, 0, utc, stale)
    }

    fn table_utc_to_scale(utc: u64, image: &[u8], scale: &mut u64, stale: &mut u8) -> u32
        ensures { Gives (dated_as 0 0)
            (with_stale (dated_by_image image.now (λ es. shifted_reading Self.BEHIND_GPS_NS es utc)
            (λ es. utc_to_shifted Self.BEHIND_GPS_NS es utc))) result
            (dated_as scale.new stale.new) }
    {
        let answer = table::shifted_from_utc(Ok(utc), image, Self::BEHIND_GPS_NS);
        give::dated(answer, 0, scale, stale)
    }

    fn table_scale_to_glonass(scale: u64, image: &[u8], glonass: &mut u64, stale: &mut u8) -> u32
        ensures { Gives (dated_as 0 0)
            (with_stale (dated_by_image image.now (λ es. scale + Self.BEHIND_GPS_NS + tai_minus_gps)
            (λ es. shifted_to_glonass Self.BEHIND_GPS_NS es scale))) result
            (dated_as glonass.new stale.new) }
    {
        let utc = table::utc_from_shifted(Ok(scale), image, Self::BEHIND_GPS_NS);
        give::dated(dated::glonass_from_utc(utc), 0, glonass, stale)
    }

    fn table_glonass_to_scale(glonass: u64, image: &[u8], scale: &mut u64, stale: &mut u8) -> u32
        ensures { Gives (dated_as 0 0)
            (with_stale (dated_by_image image.now (λ es. shifted_reading Self.BEHIND_GPS_NS es (glonass + glonass_epoch))
            (λ es. glonass_to_shifted Self.BEHIND_GPS_NS es glonass))) result
            (dated_as scale.new stale.new) }
    {
        let utc = steps::utc_from_glonass(Ok(glonass));
        let answer = table::shifted_from_utc(utc, image, Self::BEHIND_GPS_NS);
        give::dated(answer, 0, scale, stale)
    }
}

impl HostShifted for Galileo {}

impl HostShifted for Beidou {}
