// GLONASS counts: days and weekdays.
ghost use Rattle.std.specs.Prelude.{◌≡◌, cond, ◌*◌, ◌/◌, ◌%◌, leb};
ghost use Rattle.refusals.specs.Outcome.{Gives, answered};
ghost use Rattle.counts.specs.Units.{second, day_seconds, of_units};
ghost use Rattle.scales.specs.Scales.{weekday_of};

use crate::give;
use counts::units::DurationParts;
use scales::glonass::Glonass;
use scales::scale::Scale;

#[unsafe(no_mangle)]
pub extern "C" fn plaitgate_glonass_from_day_tod(
    day: u32,
    seconds: u64,
    nanos: u32,
    count: &mut u64,
) -> u32
    ensures { Gives 0 (of_units day_seconds day seconds nanos) result count.new }
{
    give::count(
        Glonass::from_day_tod(day, DurationParts { seconds, nanos }),
        count,
    )
}

#[unsafe(no_mangle)]
pub extern "C" fn plaitgate_glonass_day(count: u64, day: &mut u32) -> u32
    ensures { Gives 0 (answered (count / (day_seconds * second))) result day.new }
{
    *day = Glonass(count).day();
    0
}

#[unsafe(no_mangle)]
pub extern "C" fn plaitgate_glonass_tod_seconds(count: u64, seconds: &mut u32) -> u32
    ensures { Gives 0 (answered (count % (day_seconds * second) / second)) result seconds.new }
{
    *seconds = Glonass(count).tod_seconds();
    0
}

#[unsafe(no_mangle)]
pub extern "C" fn plaitgate_glonass_sub_second_nanos(count: u64, nanos: &mut u32) -> u32
    ensures { Gives 0 (answered (count % second)) result nanos.new }
{
    *nanos = Glonass(count).sub_second_nanos();
    0
}

#[unsafe(no_mangle)]
pub extern "C" fn plaitgate_glonass_day_of_week(count: u64, weekday: &mut u8) -> u32
    ensures { Gives 0 (answered (weekday_of count)) result weekday.new }
{
    *weekday = Glonass(count).day_of_week();
    0
}

#[unsafe(no_mangle)]
pub extern "C" fn plaitgate_glonass_is_weekend(count: u64, yes: &mut u8) -> u32
    ensures { Gives 0 (answered (cond (leb 6 (weekday_of count)) 1 0)) result yes.new }
{
    *yes = give::byte(Glonass(count).is_weekend());
    0
}
