// The calls of plaitgate::by_table, for hosts. Written by tools/write-exports.
ghost use Rattle.std.specs.Prelude.{pos, ◌+◌};
ghost use Rattle.refusals.specs.Outcome.{Gives, value_in};
ghost use Rattle.scales.specs.Scales.{tai_minus_gps};
ghost use Rattle.conversions.specs.Conversions.{gps_to_utc, last_reading, utc_to_gps, glonass_epoch, glonass_to_gps};
ghost use Rattle.conversions.specs.Conversions.{gps_to_glonass, unix_to_utc, unix_to_gps, gps_to_unix};
ghost use Rattle.images.specs.Image.{dated_by_image};
ghost use Rattle.plaitgate.specs.Tables.{dated_as, with_stale};

#[unsafe(no_mangle)]
pub extern "C" fn plaitgate_table_gps_to_utc(
    gps: u64,
    image: &[u8],
    utc: &mut u64,
    stale: &mut u8,
) -> u32
    ensures { Gives (dated_as 0 0)
        (with_stale (dated_by_image image.now (λ es. gps + tai_minus_gps) (λ es. gps_to_utc es gps))) result
        (dated_as utc.new stale.new) }
{
    plaitgate::by_table::plaitgate_table_gps_to_utc(gps, image, utc, stale)
}

#[unsafe(no_mangle)]
pub extern "C" fn plaitgate_table_utc_to_gps(
    utc: u64,
    image: &[u8],
    gps: &mut u64,
    stale: &mut u8,
) -> u32
    ensures { Gives (dated_as 0 0)
        (with_stale (dated_by_image image.now (λ es. last_reading es utc) (λ es. utc_to_gps es utc))) result
        (dated_as gps.new stale.new) }
{
    plaitgate::by_table::plaitgate_table_utc_to_gps(utc, image, gps, stale)
}

#[unsafe(no_mangle)]
pub extern "C" fn plaitgate_table_glonass_to_gps(
    glonass: u64,
    image: &[u8],
    gps: &mut u64,
    stale: &mut u8,
) -> u32
    ensures { Gives (dated_as 0 0)
        (with_stale (dated_by_image image.now (λ es. last_reading es (glonass + glonass_epoch))
        (λ es. glonass_to_gps es glonass))) result
        (dated_as gps.new stale.new) }
{
    plaitgate::by_table::plaitgate_table_glonass_to_gps(glonass, image, gps, stale)
}

#[unsafe(no_mangle)]
pub extern "C" fn plaitgate_table_gps_to_glonass(
    gps: u64,
    image: &[u8],
    glonass: &mut u64,
    stale: &mut u8,
) -> u32
    ensures { Gives (dated_as 0 0)
        (with_stale (dated_by_image image.now (λ es. gps + tai_minus_gps) (λ es. gps_to_glonass es gps))) result
        (dated_as glonass.new stale.new) }
{
    plaitgate::by_table::plaitgate_table_gps_to_glonass(gps, image, glonass, stale)
}

#[unsafe(no_mangle)]
pub extern "C" fn plaitgate_table_gps_from_unix_seconds(
    seconds: i64,
    image: &[u8],
    gps: &mut u64,
    stale: &mut u8,
) -> u32
    ensures { Gives (dated_as 0 0)
        (with_stale (dated_by_image image.now (λ es. last_reading es (value_in 0 (unix_to_utc seconds)))
        (λ es. unix_to_gps es seconds))) result
        (dated_as gps.new stale.new) }
{
    plaitgate::by_table::plaitgate_table_gps_from_unix_seconds(seconds, image, gps, stale)
}

#[unsafe(no_mangle)]
pub extern "C" fn plaitgate_table_gps_as_unix_seconds(
    gps: u64,
    image: &[u8],
    seconds: &mut i64,
    stale: &mut u8,
) -> u32
    ensures { Gives (dated_as (pos 0) 0)
        (with_stale (dated_by_image image.now (λ es. gps + tai_minus_gps) (λ es. gps_to_unix es gps))) result
        (dated_as seconds.new stale.new) }
{
    plaitgate::by_table::plaitgate_table_gps_as_unix_seconds(gps, image, seconds, stale)
}
