// The calls of plaitgate::weeks, for hosts. Written by tools/write-exports.
ghost use Rattle.std.specs.Prelude.{◌*◌, ◌/◌, ◌%◌};
ghost use Rattle.refusals.specs.Outcome.{Gives, answered};
ghost use Rattle.counts.specs.Units.{second, week_seconds, of_units};

use plaitgate::weeks::HostWeeks;
use scales::beidou::Beidou;
use scales::galileo::Galileo;
use scales::gps::Gps;

#[unsafe(no_mangle)]
pub extern "C" fn plaitgate_gps_from_week_tow(
    week: u32,
    seconds: u64,
    nanos: u32,
    count: &mut u64,
) -> u32
    ensures { Gives 0 (of_units week_seconds week seconds nanos) result count.new }
{
    <Gps as HostWeeks>::scale_from_week_tow(week, seconds, nanos, count)
}

#[unsafe(no_mangle)]
pub extern "C" fn plaitgate_gps_week(count: u64, week: &mut u32) -> u32
    ensures { Gives 0 (answered (count / (week_seconds * second))) result week.new }
{
    <Gps as HostWeeks>::scale_week(count, week)
}

#[unsafe(no_mangle)]
pub extern "C" fn plaitgate_gps_tow_seconds(count: u64, seconds: &mut u32) -> u32
    ensures { Gives 0 (answered (count % (week_seconds * second) / second)) result seconds.new }
{
    <Gps as HostWeeks>::scale_tow_seconds(count, seconds)
}

#[unsafe(no_mangle)]
pub extern "C" fn plaitgate_gps_sub_second_nanos(count: u64, nanos: &mut u32) -> u32
    ensures { Gives 0 (answered (count % second)) result nanos.new }
{
    <Gps as HostWeeks>::scale_sub_second_nanos(count, nanos)
}

#[unsafe(no_mangle)]
pub extern "C" fn plaitgate_galileo_from_week_tow(
    week: u32,
    seconds: u64,
    nanos: u32,
    count: &mut u64,
) -> u32
    ensures { Gives 0 (of_units week_seconds week seconds nanos) result count.new }
{
    <Galileo as HostWeeks>::scale_from_week_tow(week, seconds, nanos, count)
}

#[unsafe(no_mangle)]
pub extern "C" fn plaitgate_galileo_week(count: u64, week: &mut u32) -> u32
    ensures { Gives 0 (answered (count / (week_seconds * second))) result week.new }
{
    <Galileo as HostWeeks>::scale_week(count, week)
}

#[unsafe(no_mangle)]
pub extern "C" fn plaitgate_galileo_tow_seconds(count: u64, seconds: &mut u32) -> u32
    ensures { Gives 0 (answered (count % (week_seconds * second) / second)) result seconds.new }
{
    <Galileo as HostWeeks>::scale_tow_seconds(count, seconds)
}

#[unsafe(no_mangle)]
pub extern "C" fn plaitgate_galileo_sub_second_nanos(count: u64, nanos: &mut u32) -> u32
    ensures { Gives 0 (answered (count % second)) result nanos.new }
{
    <Galileo as HostWeeks>::scale_sub_second_nanos(count, nanos)
}

#[unsafe(no_mangle)]
pub extern "C" fn plaitgate_beidou_from_week_tow(
    week: u32,
    seconds: u64,
    nanos: u32,
    count: &mut u64,
) -> u32
    ensures { Gives 0 (of_units week_seconds week seconds nanos) result count.new }
{
    <Beidou as HostWeeks>::scale_from_week_tow(week, seconds, nanos, count)
}

#[unsafe(no_mangle)]
pub extern "C" fn plaitgate_beidou_week(count: u64, week: &mut u32) -> u32
    ensures { Gives 0 (answered (count / (week_seconds * second))) result week.new }
{
    <Beidou as HostWeeks>::scale_week(count, week)
}

#[unsafe(no_mangle)]
pub extern "C" fn plaitgate_beidou_tow_seconds(count: u64, seconds: &mut u32) -> u32
    ensures { Gives 0 (answered (count % (week_seconds * second) / second)) result seconds.new }
{
    <Beidou as HostWeeks>::scale_tow_seconds(count, seconds)
}

#[unsafe(no_mangle)]
pub extern "C" fn plaitgate_beidou_sub_second_nanos(count: u64, nanos: &mut u32) -> u32
    ensures { Gives 0 (answered (count % second)) result nanos.new }
{
    <Beidou as HostWeeks>::scale_sub_second_nanos(count, nanos)
}
