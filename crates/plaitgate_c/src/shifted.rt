// The calls of plaitgate::shifted, for hosts. Written by tools/write-exports.
ghost use Rattle.std.specs.Prelude.{◌+◌};
ghost use Rattle.refusals.specs.Outcome.{Gives};
ghost use Rattle.counts.specs.Exact.{up, down};
ghost use Rattle.scales.specs.Scales.{tai_minus_gps};
ghost use Rattle.conversions.specs.Conversions.{glonass_epoch};
ghost use Rattle.conversions.specs.Shifted.{shifted_to_utc, utc_to_shifted, shifted_reading, shifted_to_glonass};
ghost use Rattle.conversions.specs.Shifted.{glonass_to_shifted};
ghost use Rattle.builtin.specs.Builtin.{builtin};
ghost use Rattle.images.specs.Image.{dated_by_image};
ghost use Rattle.plaitgate.specs.Tables.{dated_as, with_stale};
ghost use Rattle.scales.specs.Scales.{gps_minus_galileo};
ghost use Rattle.scales.specs.Scales.{gps_minus_beidou};

use plaitgate::shifted::HostShifted;
use scales::beidou::Beidou;
use scales::galileo::Galileo;

#[unsafe(no_mangle)]
pub extern "C" fn plaitgate_galileo_to_gps(galileo: u64, gps: &mut u64) -> u32
    ensures { Gives 0 (up gps_minus_galileo galileo) result gps.new }
{
    <Galileo as HostShifted>::scale_to_gps(galileo, gps)
}

#[unsafe(no_mangle)]
pub extern "C" fn plaitgate_gps_to_galileo(gps: u64, galileo: &mut u64) -> u32
    ensures { Gives 0 (down gps_minus_galileo gps) result galileo.new }
{
    <Galileo as HostShifted>::gps_to_scale(gps, galileo)
}

#[unsafe(no_mangle)]
pub extern "C" fn plaitgate_builtin_galileo_to_utc(galileo: u64, utc: &mut u64) -> u32
    ensures { Gives 0 (shifted_to_utc gps_minus_galileo builtin galileo) result utc.new }
{
    <Galileo as HostShifted>::builtin_scale_to_utc(galileo, utc)
}

#[unsafe(no_mangle)]
pub extern "C" fn plaitgate_builtin_utc_to_galileo(utc: u64, galileo: &mut u64) -> u32
    ensures { Gives 0 (utc_to_shifted gps_minus_galileo builtin utc) result galileo.new }
{
    <Galileo as HostShifted>::builtin_utc_to_scale(utc, galileo)
}

#[unsafe(no_mangle)]
pub extern "C" fn plaitgate_builtin_galileo_to_glonass(galileo: u64, glonass: &mut u64) -> u32
    ensures { Gives 0 (shifted_to_glonass gps_minus_galileo builtin galileo) result glonass.new }
{
    <Galileo as HostShifted>::builtin_scale_to_glonass(galileo, glonass)
}

#[unsafe(no_mangle)]
pub extern "C" fn plaitgate_builtin_glonass_to_galileo(glonass: u64, galileo: &mut u64) -> u32
    ensures { Gives 0 (glonass_to_shifted gps_minus_galileo builtin glonass) result galileo.new }
{
    <Galileo as HostShifted>::builtin_glonass_to_scale(glonass, galileo)
}

#[unsafe(no_mangle)]
pub extern "C" fn plaitgate_table_galileo_to_utc(
    galileo: u64,
    image: &[u8],
    utc: &mut u64,
    stale: &mut u8,
) -> u32
    ensures { Gives (dated_as 0 0)
        (with_stale (dated_by_image image.now (λ es. galileo + gps_minus_galileo + tai_minus_gps)
        (λ es. shifted_to_utc gps_minus_galileo es galileo))) result
        (dated_as utc.new stale.new) }
{
    <Galileo as HostShifted>::table_scale_to_utc(galileo, image, utc, stale)
}

#[unsafe(no_mangle)]
pub extern "C" fn plaitgate_table_utc_to_galileo(
    utc: u64,
    image: &[u8],
    galileo: &mut u64,
    stale: &mut u8,
) -> u32
    ensures { Gives (dated_as 0 0)
        (with_stale (dated_by_image image.now (λ es. shifted_reading gps_minus_galileo es utc)
        (λ es. utc_to_shifted gps_minus_galileo es utc))) result
        (dated_as galileo.new stale.new) }
{
    <Galileo as HostShifted>::table_utc_to_scale(utc, image, galileo, stale)
}

#[unsafe(no_mangle)]
pub extern "C" fn plaitgate_table_galileo_to_glonass(
    galileo: u64,
    image: &[u8],
    glonass: &mut u64,
    stale: &mut u8,
) -> u32
    ensures { Gives (dated_as 0 0)
        (with_stale (dated_by_image image.now (λ es. galileo + gps_minus_galileo + tai_minus_gps)
        (λ es. shifted_to_glonass gps_minus_galileo es galileo))) result
        (dated_as glonass.new stale.new) }
{
    <Galileo as HostShifted>::table_scale_to_glonass(galileo, image, glonass, stale)
}

#[unsafe(no_mangle)]
pub extern "C" fn plaitgate_table_glonass_to_galileo(
    glonass: u64,
    image: &[u8],
    galileo: &mut u64,
    stale: &mut u8,
) -> u32
    ensures { Gives (dated_as 0 0)
        (with_stale (dated_by_image image.now (λ es. shifted_reading gps_minus_galileo es (glonass + glonass_epoch))
        (λ es. glonass_to_shifted gps_minus_galileo es glonass))) result
        (dated_as galileo.new stale.new) }
{
    <Galileo as HostShifted>::table_glonass_to_scale(glonass, image, galileo, stale)
}

#[unsafe(no_mangle)]
pub extern "C" fn plaitgate_beidou_to_gps(beidou: u64, gps: &mut u64) -> u32
    ensures { Gives 0 (up gps_minus_beidou beidou) result gps.new }
{
    <Beidou as HostShifted>::scale_to_gps(beidou, gps)
}

#[unsafe(no_mangle)]
pub extern "C" fn plaitgate_gps_to_beidou(gps: u64, beidou: &mut u64) -> u32
    ensures { Gives 0 (down gps_minus_beidou gps) result beidou.new }
{
    <Beidou as HostShifted>::gps_to_scale(gps, beidou)
}

#[unsafe(no_mangle)]
pub extern "C" fn plaitgate_builtin_beidou_to_utc(beidou: u64, utc: &mut u64) -> u32
    ensures { Gives 0 (shifted_to_utc gps_minus_beidou builtin beidou) result utc.new }
{
    <Beidou as HostShifted>::builtin_scale_to_utc(beidou, utc)
}

#[unsafe(no_mangle)]
pub extern "C" fn plaitgate_builtin_utc_to_beidou(utc: u64, beidou: &mut u64) -> u32
    ensures { Gives 0 (utc_to_shifted gps_minus_beidou builtin utc) result beidou.new }
{
    <Beidou as HostShifted>::builtin_utc_to_scale(utc, beidou)
}

#[unsafe(no_mangle)]
pub extern "C" fn plaitgate_builtin_beidou_to_glonass(beidou: u64, glonass: &mut u64) -> u32
    ensures { Gives 0 (shifted_to_glonass gps_minus_beidou builtin beidou) result glonass.new }
{
    <Beidou as HostShifted>::builtin_scale_to_glonass(beidou, glonass)
}

#[unsafe(no_mangle)]
pub extern "C" fn plaitgate_builtin_glonass_to_beidou(glonass: u64, beidou: &mut u64) -> u32
    ensures { Gives 0 (glonass_to_shifted gps_minus_beidou builtin glonass) result beidou.new }
{
    <Beidou as HostShifted>::builtin_glonass_to_scale(glonass, beidou)
}

#[unsafe(no_mangle)]
pub extern "C" fn plaitgate_table_beidou_to_utc(
    beidou: u64,
    image: &[u8],
    utc: &mut u64,
    stale: &mut u8,
) -> u32
    ensures { Gives (dated_as 0 0)
        (with_stale (dated_by_image image.now (λ es. beidou + gps_minus_beidou + tai_minus_gps)
        (λ es. shifted_to_utc gps_minus_beidou es beidou))) result
        (dated_as utc.new stale.new) }
{
    <Beidou as HostShifted>::table_scale_to_utc(beidou, image, utc, stale)
}

#[unsafe(no_mangle)]
pub extern "C" fn plaitgate_table_utc_to_beidou(
    utc: u64,
    image: &[u8],
    beidou: &mut u64,
    stale: &mut u8,
) -> u32
    ensures { Gives (dated_as 0 0)
        (with_stale (dated_by_image image.now (λ es. shifted_reading gps_minus_beidou es utc)
        (λ es. utc_to_shifted gps_minus_beidou es utc))) result
        (dated_as beidou.new stale.new) }
{
    <Beidou as HostShifted>::table_utc_to_scale(utc, image, beidou, stale)
}

#[unsafe(no_mangle)]
pub extern "C" fn plaitgate_table_beidou_to_glonass(
    beidou: u64,
    image: &[u8],
    glonass: &mut u64,
    stale: &mut u8,
) -> u32
    ensures { Gives (dated_as 0 0)
        (with_stale (dated_by_image image.now (λ es. beidou + gps_minus_beidou + tai_minus_gps)
        (λ es. shifted_to_glonass gps_minus_beidou es beidou))) result
        (dated_as glonass.new stale.new) }
{
    <Beidou as HostShifted>::table_scale_to_glonass(beidou, image, glonass, stale)
}

#[unsafe(no_mangle)]
pub extern "C" fn plaitgate_table_glonass_to_beidou(
    glonass: u64,
    image: &[u8],
    beidou: &mut u64,
    stale: &mut u8,
) -> u32
    ensures { Gives (dated_as 0 0)
        (with_stale (dated_by_image image.now (λ es. shifted_reading gps_minus_beidou es (glonass + glonass_epoch))
        (λ es. glonass_to_shifted gps_minus_beidou es glonass))) result
        (dated_as beidou.new stale.new) }
{
    <Beidou as HostShifted>::table_glonass_to_scale(glonass, image, beidou, stale)
}
