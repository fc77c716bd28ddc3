// The calls of scales that are read in weeks; `scale` stands for the scale, as in every_scale.rt.
ghost use Rattle.std.specs.Prelude.{◌*◌, ◌/◌, ◌%◌};
ghost use Rattle.refusals.specs.Outcome.{Gives, answered};
ghost use Rattle.counts.specs.Units.{second, week_seconds, of_units};

use crate::give;
use counts::units::DurationParts;
use scales::beidou::Beidou;
use scales::galileo::Galileo;
use scales::gps::Gps;
use scales::scale::Scale;
use scales::weeks::Weeks;

pub trait HostWeeks: Weeks {
    fn scale_from_week_tow(week: u32, seconds: u64, nanos: u32, count: &mut u64) -> u32
        ensures { Gives 0 (of_units week_seconds week seconds nanos) result count.new }
    {
        give::count(
            Self::from_week_tow(week, DurationParts { seconds, nanos }),
            count,
        )
    }

    fn scale_week(count: u64, week: &mut u32) -> u32
        ensures { Gives 0 (answered (count / (week_seconds * second))) result week.new }
    {
        *week = Self::from_nanos(count).week();
        0
    }

    fn scale_tow_seconds(count: u64, seconds: &mut u32) -> u32
        ensures { Gives 0 (answered (count % (week_seconds * second) / second)) result seconds.new }
    {
        *seconds = Self::from_nanos(count).tow_seconds();
        0
    }

    fn scale_sub_second_nanos(count: u64, nanos: &mut u32) -> u32
        ensures { Gives 0 (answered (count % second)) result nanos.new }
    {
        *nanos = Self::from_nanos(count).sub_second_nanos();
        0
    }
}

impl HostWeeks for Gps {}

impl HostWeeks for Galileo {}

impl HostWeeks for Beidou {}
