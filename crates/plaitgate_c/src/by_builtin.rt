// The calls of plaitgate::by_builtin, for hosts. Written by tools/write-exports.
ghost use Rattle.std.specs.Prelude.{pos};
ghost use Rattle.refusals.specs.Outcome.{Gives, answered};
ghost use Rattle.counts.specs.Exact.{up, down};
ghost use Rattle.tables.specs.Entries.{offset_at};
ghost use Rattle.conversions.specs.Conversions.{gps_to_utc, utc_to_gps, glonass_epoch, glonass_to_gps, gps_to_glonass};
ghost use Rattle.conversions.specs.Conversions.{unix_to_gps, gps_to_unix};
ghost use Rattle.builtin.specs.Builtin.{builtin};

#[unsafe(no_mangle)]
pub extern "C" fn plaitgate_builtin_tai_minus_utc_at(tai: u64, offset: &mut i32) -> u32
    ensures { Gives (pos 0) (answered (offset_at builtin tai)) result offset.new }
{
    plaitgate::by_builtin::plaitgate_builtin_tai_minus_utc_at(tai, offset)
}

#[unsafe(no_mangle)]
pub extern "C" fn plaitgate_glonass_to_utc(glonass: u64, utc: &mut u64) -> u32
    ensures { Gives 0 (up glonass_epoch glonass) result utc.new }
{
    plaitgate::by_builtin::plaitgate_glonass_to_utc(glonass, utc)
}

#[unsafe(no_mangle)]
pub extern "C" fn plaitgate_utc_to_glonass(utc: u64, glonass: &mut u64) -> u32
    ensures { Gives 0 (down glonass_epoch utc) result glonass.new }
{
    plaitgate::by_builtin::plaitgate_utc_to_glonass(utc, glonass)
}

#[unsafe(no_mangle)]
pub extern "C" fn plaitgate_builtin_gps_to_utc(gps: u64, utc: &mut u64) -> u32
    ensures { Gives 0 (gps_to_utc builtin gps) result utc.new }
{
    plaitgate::by_builtin::plaitgate_builtin_gps_to_utc(gps, utc)
}

#[unsafe(no_mangle)]
pub extern "C" fn plaitgate_builtin_utc_to_gps(utc: u64, gps: &mut u64) -> u32
    ensures { Gives 0 (utc_to_gps builtin utc) result gps.new }
{
    plaitgate::by_builtin::plaitgate_builtin_utc_to_gps(utc, gps)
}

#[unsafe(no_mangle)]
pub extern "C" fn plaitgate_builtin_glonass_to_gps(glonass: u64, gps: &mut u64) -> u32
    ensures { Gives 0 (glonass_to_gps builtin glonass) result gps.new }
{
    plaitgate::by_builtin::plaitgate_builtin_glonass_to_gps(glonass, gps)
}

#[unsafe(no_mangle)]
pub extern "C" fn plaitgate_builtin_gps_to_glonass(gps: u64, glonass: &mut u64) -> u32
    ensures { Gives 0 (gps_to_glonass builtin gps) result glonass.new }
{
    plaitgate::by_builtin::plaitgate_builtin_gps_to_glonass(gps, glonass)
}

#[unsafe(no_mangle)]
pub extern "C" fn plaitgate_builtin_gps_from_unix_seconds(seconds: i64, gps: &mut u64) -> u32
    ensures { Gives 0 (unix_to_gps builtin seconds) result gps.new }
{
    plaitgate::by_builtin::plaitgate_builtin_gps_from_unix_seconds(seconds, gps)
}

#[unsafe(no_mangle)]
pub extern "C" fn plaitgate_builtin_gps_as_unix_seconds(gps: u64, seconds: &mut i64) -> u32
    ensures { Gives (pos 0) (gps_to_unix builtin gps) result seconds.new }
{
    plaitgate::by_builtin::plaitgate_builtin_gps_as_unix_seconds(gps, seconds)
}
