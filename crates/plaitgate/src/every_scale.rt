// The calls that every scale has. tools/write-exports exports each for every scale that has the trait: `scale` in the name
// of a call stands for the scale, as `scale_checked_add` for `plaitgate_gps_checked_add`.
ghost use Rattle.std.specs.Prelude.{◌≡◌, ◌*◌, ◌/◌, pos, ◌+ℤ◌, ◌-ℤ◌};
ghost use Rattle.refusals.specs.Outcome.{Gives, answered};
ghost use Rattle.counts.specs.Exact.{count_of, duration_of, nearest_count};
ghost use Rattle.counts.specs.Units.{second, parts_of};
ghost use Rattle.plaitgate.specs.Limits.{limits, limits_at};

use crate::give;
use counts::Duration;
use scales::beidou::Beidou;
use scales::galileo::Galileo;
use scales::glonass::Glonass;
use scales::gps::Gps;
use scales::scale::Scale;
use scales::tai::Tai;
use scales::utc::Utc;

pub trait HostCounts: Scale {
    fn scale_from_nanos(nanos: u64, count: &mut u64) -> u32
        ensures { Gives 0 (answered nanos) result count.new }
    {
        *count = Self::from_nanos(nanos).as_nanos();
        0
    }

    fn scale_as_nanos(count: u64, nanos: &mut u64) -> u32
        ensures { Gives 0 (answered count) result nanos.new }
    {
        *nanos = Self::from_nanos(count).as_nanos();
        0
    }

    fn scale_checked_from_seconds(seconds: u64, count: &mut u64) -> u32
        ensures { Gives 0 (count_of (pos (seconds * second))) result count.new }
    {
        give::count(Self::checked_from_seconds(seconds), count)
    }

    fn scale_as_seconds(count: u64, seconds: &mut u64) -> u32
        ensures { Gives 0 (answered (count / second)) result seconds.new }
    {
        *seconds = Self::from_nanos(count).as_seconds();
        0
    }

    fn scale_as_parts(count: u64, seconds: &mut u64, nanos: &mut u32) -> u32
        ensures { Gives (parts_of 0) (answered (parts_of count)) result
            (record { seconds = seconds.new; nanos = nanos.new }) }
    {
        let parts = Self::from_nanos(count).as_parts();
        *seconds = parts.seconds;
        *nanos = parts.nanos;
        0
    }

    fn scale_checked_add(count: u64, duration: i64, sum: &mut u64) -> u32
        ensures { Gives 0 (count_of (pos count +ℤ duration)) result sum.new }
    {
        give::count(Self::from_nanos(count).checked_add(Duration(duration)), sum)
    }

    fn scale_checked_sub_duration(count: u64, duration: i64, difference: &mut u64) -> u32
        ensures { Gives 0 (count_of (pos count -ℤ duration)) result difference.new }
    {
        give::count(
            Self::from_nanos(count).checked_sub_duration(Duration(duration)),
            difference,
        )
    }

    fn scale_saturating_add(count: u64, duration: i64, sum: &mut u64) -> u32
        ensures { Gives 0 (answered (nearest_count (pos count +ℤ duration))) result sum.new }
    {
        *sum = Self::from_nanos(count)
            .saturating_add(Duration(duration))
            .as_nanos();
        0
    }

    fn scale_saturating_sub_duration(count: u64, duration: i64, difference: &mut u64) -> u32
        ensures { Gives 0 (answered (nearest_count (pos count -ℤ duration))) result difference.new }
    {
        *difference = Self::from_nanos(count)
            .saturating_sub_duration(Duration(duration))
            .as_nanos();
        0
    }

    fn scale_checked_elapsed(count: u64, earlier: u64, duration: &mut i64) -> u32
        ensures { Gives (pos 0) (duration_of (pos count -ℤ pos earlier)) result duration.new }
    {
        let answer = Self::from_nanos(count).checked_elapsed(Self::from_nanos(earlier));
        give::duration(answer, duration)
    }

    fn scale_limits(epoch: &mut u64, min: &mut u64, max: &mut u64, nanos_per_year: &mut u64) -> u32
        ensures { Gives (limits_at 0 0 0 0) (answered limits) result
            (limits_at epoch.new min.new max.new nanos_per_year.new) }
    {
        *epoch = Self::EPOCH.as_nanos();
        *min = Self::MIN.as_nanos();
        *max = Self::MAX.as_nanos();
        *nanos_per_year = Self::NANOS_PER_YEAR;
        0
    }
}

impl HostCounts for Gps {}

impl HostCounts for Utc {}

impl HostCounts for Glonass {}

impl HostCounts for Tai {}

impl HostCounts for Galileo {}

impl HostCounts for Beidou {}
