// Civil readings of GPS counts, in which an inserted second is 23:59:60, and back: by the built-in table, and by a table
// that the host holds as an image.
ghost use Rattle.std.specs.Prelude.{◌+◌, pos};
ghost use Rattle.refusals.specs.Outcome.{Gives, value_in};
ghost use Rattle.scales.specs.Scales.{tai_minus_gps};
ghost use Rattle.civil.specs.Fields.{fields};
ghost use Rattle.builtin.specs.Builtin.{builtin};
ghost use Rattle.images.specs.Image.{dated_by_image};
ghost use Rattle.readings.specs.Readings.{gps_to_civil, civil_to_gps};
ghost use Rattle.plaitgate.specs.Tables.{dated_as, with_stale};

use crate::give;
use crate::give::of_readings::{dated_reading, reading};
use civil::CivilDateTime;
use readings::{by_builtin, by_image};
use scales::gps::Gps;

#[unsafe(no_mangle)]
pub extern "C" fn plaitgate_builtin_gps_to_civil(
    gps: u64,
    year: &mut i32,
    month: &mut u8,
    day: &mut u8,
    hour: &mut u8,
    minute: &mut u8,
    second: &mut u8,
    nanos: &mut u32,
) -> u32
    ensures { Gives (fields (pos 0) 0 0 0 0 0 0) (gps_to_civil builtin gps) result
        (fields year.new month.new day.new hour.new minute.new
        second.new nanos.new) }
{
    reading(
        by_builtin::gps_to_civil(Gps(gps)),
        year,
        month,
        day,
        hour,
        minute,
        second,
        nanos,
    )
}

#[unsafe(no_mangle)]
pub extern "C" fn plaitgate_builtin_civil_to_gps(
    year: i32,
    month: u8,
    day: u8,
    hour: u8,
    minute: u8,
    second: u8,
    nanos: u32,
    gps: &mut u64,
) -> u32
    ensures { Gives 0 (civil_to_gps builtin (fields year month day hour minute second nanos)) result gps.new }
{
    let c = CivilDateTime {
        year,
        month,
        day,
        hour,
        minute,
        second,
        nanos,
    };
    give::count(by_builtin::civil_to_gps(c), gps)
}

#[unsafe(no_mangle)]
pub extern "C" fn plaitgate_table_gps_to_civil(
    gps: u64,
    image: &[u8],
    year: &mut i32,
    month: &mut u8,
    day: &mut u8,
    hour: &mut u8,
    minute: &mut u8,
    second: &mut u8,
    nanos: &mut u32,
    stale: &mut u8,
) -> u32
    ensures { Gives (dated_as (fields (pos 0) 0 0 0 0 0 0) 0)
        (with_stale (dated_by_image image.now (λ es. gps + tai_minus_gps) (λ es. gps_to_civil es gps))) result
        (dated_as (fields year.new month.new day.new hour.new
        minute.new second.new nanos.new) stale.new) }
{
    dated_reading(
        by_image::gps_to_civil(Gps(gps), image),
        year,
        month,
        day,
        hour,
        minute,
        second,
        nanos,
        stale,
    )
}

#[unsafe(no_mangle)]
pub extern "C" fn plaitgate_table_civil_to_gps(
    year: i32,
    month: u8,
    day: u8,
    hour: u8,
    minute: u8,
    second: u8,
    nanos: u32,
    image: &[u8],
    gps: &mut u64,
    stale: &mut u8,
) -> u32
    ensures { Gives (dated_as 0 0)
        (with_stale (dated_by_image image.now
        (λ es. value_in 0 (civil_to_gps es (fields year month day hour minute second nanos)) + tai_minus_gps)
        (λ es. civil_to_gps es (fields year month day hour minute second nanos)))) result
        (dated_as gps.new stale.new) }
{
    let c = CivilDateTime {
        year,
        month,
        day,
        hour,
        minute,
        second,
        nanos,
    };
    give::dated(by_image::civil_to_gps(c, image), 0, gps, stale)
}
