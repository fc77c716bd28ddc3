// Conversions by a table that the host holds as an image: GPS to UTC or UTC to GPS, with a step before or after for
// GLONASS and Unix time. Each tells whether the table is stale at the TAI reading that was looked up last.
ghost use Rattle.std.specs.Prelude.{pos, ◌+◌};
ghost use Rattle.refusals.specs.Outcome.{Gives, value_in};
ghost use Rattle.scales.specs.Scales.{tai_minus_gps};
ghost use Rattle.conversions.specs.Conversions.{gps_to_utc, last_reading, utc_to_gps, glonass_epoch, glonass_to_gps};
ghost use Rattle.conversions.specs.Conversions.{gps_to_glonass, unix_to_utc, unix_to_gps, gps_to_unix};
ghost use Rattle.images.specs.Image.{dated_by_image};
ghost use Rattle.plaitgate.specs.Tables.{dated_as, with_stale};

use crate::give;
use conversions::inner::{dated, steps};
use counts::unix;
use images::table;

#[unsafe(no_mangle)]
pub extern "C" fn plaitgate_table_gps_to_utc(
    gps: u64,
    image: &[u8],
    utc: &mut u64,
    stale: &mut u8,
) -> u32
    ensures { Gives (dated_as 0 0)
        (with_stale (dated_by_image image.now (λ es. gps + tai_minus_gps) (λ es. gps_to_utc es gps))) result
        (dated_as utc.new stale.new) }
{
    give::dated(table::utc_from_gps(Ok(gps), image), 0, utc, stale)
}

#[unsafe(no_mangle)]
pub extern "C" fn plaitgate_table_utc_to_gps(
    utc: u64,
    image: &[u8],
    gps: &mut u64,
    stale: &mut u8,
) -> u32
    ensures { Gives (dated_as 0 0)
        (with_stale (dated_by_image image.now (λ es. last_reading es utc) (λ es. utc_to_gps es utc))) result
        (dated_as gps.new stale.new) }
{
    give::dated(table::gps_from_utc(Ok(utc), image), 0, gps, stale)
}

#[unsafe(no_mangle)]
pub extern "C" fn plaitgate_table_glonass_to_gps(
    glonass: u64,
    image: &[u8],
    gps: &mut u64,
    stale: &mut u8,
) -> u32
    ensures { Gives (dated_as 0 0)
        (with_stale (dated_by_image image.now (λ es. last_reading es (glonass + glonass_epoch))
        (λ es. glonass_to_gps es glonass))) result
        (dated_as gps.new stale.new) }
{
    let utc = steps::utc_from_glonass(Ok(glonass));
    give::dated(table::gps_from_utc(utc, image), 0, gps, stale)
}

#[unsafe(no_mangle)]
pub extern "C" fn plaitgate_table_gps_to_glonass(
    gps: u64,
    image: &[u8],
    glonass: &mut u64,
    stale: &mut u8,
) -> u32
    ensures { Gives (dated_as 0 0)
        (with_stale (dated_by_image image.now (λ es. gps + tai_minus_gps) (λ es. gps_to_glonass es gps))) result
        (dated_as glonass.new stale.new) }
{
    let utc = table::utc_from_gps(Ok(gps), image);
    give::dated(dated::glonass_from_utc(utc), 0, glonass, stale)
}

#[unsafe(no_mangle)]
pub extern "C" fn plaitgate_table_gps_from_unix_seconds(
    seconds: i64,
    image: &[u8],
    gps: &mut u64,
    stale: &mut u8,
) -> u32
    ensures { Gives (dated_as 0 0)
        (with_stale (dated_by_image image.now (λ es. last_reading es (value_in 0 (unix_to_utc seconds)))
        (λ es. unix_to_gps es seconds))) result
        (dated_as gps.new stale.new) }
{
    let utc = unix::from_unix_seconds(seconds);
    give::dated(table::gps_from_utc(utc, image), 0, gps, stale)
}

#[unsafe(no_mangle)]
pub extern "C" fn plaitgate_table_gps_as_unix_seconds(
    gps: u64,
    image: &[u8],
    seconds: &mut i64,
    stale: &mut u8,
) -> u32
    ensures { Gives (dated_as (pos 0) 0)
        (with_stale (dated_by_image image.now (λ es. gps + tai_minus_gps) (λ es. gps_to_unix es gps))) result
        (dated_as seconds.new stale.new) }
{
    let utc = table::utc_from_gps(Ok(gps), image);
    give::dated(dated::unix_from_utc(utc), 0, seconds, stale)
}
