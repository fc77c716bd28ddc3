// GLONASS and UTC, and the conversions by the built-in table.
ghost use Rattle.std.specs.Prelude.{◌≡◌, pos};
ghost use Rattle.refusals.specs.Outcome.{Gives, answered};
ghost use Rattle.counts.specs.Exact.{up, down};
ghost use Rattle.tables.specs.Entries.{offset_at};
ghost use Rattle.conversions.specs.Conversions.{gps_to_utc, utc_to_gps, glonass_epoch, glonass_to_gps, gps_to_glonass};
ghost use Rattle.conversions.specs.Conversions.{unix_to_gps, gps_to_unix};
ghost use Rattle.builtin.specs.Builtin.{builtin};

use crate::give;
use builtin::inner::by_utc::gps_from_utc;
use builtin::inner::lookup::utc_from_gps;
use conversions::inner::steps;
use counts::unix;
use scales::tai::Tai;

#[unsafe(no_mangle)]
pub extern "C" fn plaitgate_builtin_tai_minus_utc_at(tai: u64, offset: &mut i32) -> u32
    ensures { Gives (pos 0) (answered (offset_at builtin tai)) result offset.new }
{
    *offset = builtin::tai_minus_utc_at(Tai(tai));
    0
}

#[unsafe(no_mangle)]
pub extern "C" fn plaitgate_glonass_to_utc(glonass: u64, utc: &mut u64) -> u32
    ensures { Gives 0 (up glonass_epoch glonass) result utc.new }
{
    give::value(steps::utc_from_glonass(Ok(glonass)), 0, utc)
}

#[unsafe(no_mangle)]
pub extern "C" fn plaitgate_utc_to_glonass(utc: u64, glonass: &mut u64) -> u32
    ensures { Gives 0 (down glonass_epoch utc) result glonass.new }
{
    give::value(steps::glonass_from_utc(Ok(utc)), 0, glonass)
}

#[unsafe(no_mangle)]
pub extern "C" fn plaitgate_builtin_gps_to_utc(gps: u64, utc: &mut u64) -> u32
    ensures { Gives 0 (gps_to_utc builtin gps) result utc.new }
{
    give::value(utc_from_gps(Ok(gps)), 0, utc)
}

#[unsafe(no_mangle)]
pub extern "C" fn plaitgate_builtin_utc_to_gps(utc: u64, gps: &mut u64) -> u32
    ensures { Gives 0 (utc_to_gps builtin utc) result gps.new }
{
    give::value(gps_from_utc(Ok(utc)), 0, gps)
}

#[unsafe(no_mangle)]
pub extern "C" fn plaitgate_builtin_glonass_to_gps(glonass: u64, gps: &mut u64) -> u32
    ensures { Gives 0 (glonass_to_gps builtin glonass) result gps.new }
{
    let utc = steps::utc_from_glonass(Ok(glonass));
    give::value(gps_from_utc(utc), 0, gps)
}

#[unsafe(no_mangle)]
pub extern "C" fn plaitgate_builtin_gps_to_glonass(gps: u64, glonass: &mut u64) -> u32
    ensures { Gives 0 (gps_to_glonass builtin gps) result glonass.new }
{
    let utc = utc_from_gps(Ok(gps));
    give::value(steps::glonass_from_utc(utc), 0, glonass)
}

#[unsafe(no_mangle)]
pub extern "C" fn plaitgate_builtin_gps_from_unix_seconds(seconds: i64, gps: &mut u64) -> u32
    ensures { Gives 0 (unix_to_gps builtin seconds) result gps.new }
{
    give::value(gps_from_utc(unix::from_unix_seconds(seconds)), 0, gps)
}

#[unsafe(no_mangle)]
pub extern "C" fn plaitgate_builtin_gps_as_unix_seconds(gps: u64, seconds: &mut i64) -> u32
    ensures { Gives (pos 0) (gps_to_unix builtin gps) result seconds.new }
{
    let utc = utc_from_gps(Ok(gps));
    give::value(steps::unix_from_utc(utc), 0, seconds)
}
