// The calls of plaitgate::glonass_days, for hosts. Written by tools/write-exports.
ghost use Rattle.std.specs.Prelude.{cond, ◌*◌, ◌/◌, ◌%◌, leb};
ghost use Rattle.refusals.specs.Outcome.{Gives, answered};
ghost use Rattle.counts.specs.Units.{second, day_seconds, of_units};
ghost use Rattle.scales.specs.Scales.{weekday_of};

#[unsafe(no_mangle)]
pub extern "C" fn plaitgate_glonass_from_day_tod(
    day: u32,
    seconds: u64,
    nanos: u32,
    count: &mut u64,
) -> u32
    ensures { Gives 0 (of_units day_seconds day seconds nanos) result count.new }
{
    plaitgate::glonass_days::plaitgate_glonass_from_day_tod(day, seconds, nanos, count)
}

#[unsafe(no_mangle)]
pub extern "C" fn plaitgate_glonass_day(count: u64, day: &mut u32) -> u32
    ensures { Gives 0 (answered (count / (day_seconds * second))) result day.new }
{
    plaitgate::glonass_days::plaitgate_glonass_day(count, day)
}

#[unsafe(no_mangle)]
pub extern "C" fn plaitgate_glonass_tod_seconds(count: u64, seconds: &mut u32) -> u32
    ensures { Gives 0 (answered (count % (day_seconds * second) / second)) result seconds.new }
{
    plaitgate::glonass_days::plaitgate_glonass_tod_seconds(count, seconds)
}

#[unsafe(no_mangle)]
pub extern "C" fn plaitgate_glonass_sub_second_nanos(count: u64, nanos: &mut u32) -> u32
    ensures { Gives 0 (answered (count % second)) result nanos.new }
{
    plaitgate::glonass_days::plaitgate_glonass_sub_second_nanos(count, nanos)
}

#[unsafe(no_mangle)]
pub extern "C" fn plaitgate_glonass_day_of_week(count: u64, weekday: &mut u8) -> u32
    ensures { Gives 0 (answered (weekday_of count)) result weekday.new }
{
    plaitgate::glonass_days::plaitgate_glonass_day_of_week(count, weekday)
}

#[unsafe(no_mangle)]
pub extern "C" fn plaitgate_glonass_is_weekend(count: u64, yes: &mut u8) -> u32
    ensures { Gives 0 (answered (cond (leb 6 (weekday_of count)) 1 0)) result yes.new }
{
    plaitgate::glonass_days::plaitgate_glonass_is_weekend(count, yes)
}
