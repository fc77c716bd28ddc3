// The calls of plaitgate::every_scale, for hosts. Written by tools/write-exports.
ghost use Rattle.std.specs.Prelude.{◌*◌, ◌/◌, pos, ◌+ℤ◌, ◌-ℤ◌};
ghost use Rattle.refusals.specs.Outcome.{Gives, answered};
ghost use Rattle.counts.specs.Exact.{count_of, duration_of, nearest_count};
ghost use Rattle.counts.specs.Units.{second, parts_of};
ghost use Rattle.plaitgate.specs.Limits.{limits, limits_at};

use plaitgate::every_scale::HostCounts;
use scales::beidou::Beidou;
use scales::galileo::Galileo;
use scales::glonass::Glonass;
use scales::gps::Gps;
use scales::tai::Tai;
use scales::utc::Utc;

#[unsafe(no_mangle)]
pub extern "C" fn plaitgate_gps_from_nanos(nanos: u64, count: &mut u64) -> u32
    ensures { Gives 0 (answered nanos) result count.new }
{
    <Gps as HostCounts>::scale_from_nanos(nanos, count)
}

#[unsafe(no_mangle)]
pub extern "C" fn plaitgate_gps_as_nanos(count: u64, nanos: &mut u64) -> u32
    ensures { Gives 0 (answered count) result nanos.new }
{
    <Gps as HostCounts>::scale_as_nanos(count, nanos)
}

#[unsafe(no_mangle)]
pub extern "C" fn plaitgate_gps_checked_from_seconds(seconds: u64, count: &mut u64) -> u32
    ensures { Gives 0 (count_of (pos (seconds * second))) result count.new }
{
    <Gps as HostCounts>::scale_checked_from_seconds(seconds, count)
}

#[unsafe(no_mangle)]
pub extern "C" fn plaitgate_gps_as_seconds(count: u64, seconds: &mut u64) -> u32
    ensures { Gives 0 (answered (count / second)) result seconds.new }
{
    <Gps as HostCounts>::scale_as_seconds(count, seconds)
}

#[unsafe(no_mangle)]
pub extern "C" fn plaitgate_gps_as_parts(count: u64, seconds: &mut u64, nanos: &mut u32) -> u32
    ensures { Gives (parts_of 0) (answered (parts_of count)) result
        (record { seconds = seconds.new; nanos = nanos.new }) }
{
    <Gps as HostCounts>::scale_as_parts(count, seconds, nanos)
}

#[unsafe(no_mangle)]
pub extern "C" fn plaitgate_gps_checked_add(count: u64, duration: i64, sum: &mut u64) -> u32
    ensures { Gives 0 (count_of (pos count +ℤ duration)) result sum.new }
{
    <Gps as HostCounts>::scale_checked_add(count, duration, sum)
}

#[unsafe(no_mangle)]
pub extern "C" fn plaitgate_gps_checked_sub_duration(
    count: u64,
    duration: i64,
    difference: &mut u64,
) -> u32
    ensures { Gives 0 (count_of (pos count -ℤ duration)) result difference.new }
{
    <Gps as HostCounts>::scale_checked_sub_duration(count, duration, difference)
}

#[unsafe(no_mangle)]
pub extern "C" fn plaitgate_gps_saturating_add(count: u64, duration: i64, sum: &mut u64) -> u32
    ensures { Gives 0 (answered (nearest_count (pos count +ℤ duration))) result sum.new }
{
    <Gps as HostCounts>::scale_saturating_add(count, duration, sum)
}

#[unsafe(no_mangle)]
pub extern "C" fn plaitgate_gps_saturating_sub_duration(
    count: u64,
    duration: i64,
    difference: &mut u64,
) -> u32
    ensures { Gives 0 (answered (nearest_count (pos count -ℤ duration))) result difference.new }
{
    <Gps as HostCounts>::scale_saturating_sub_duration(count, duration, difference)
}

#[unsafe(no_mangle)]
pub extern "C" fn plaitgate_gps_checked_elapsed(count: u64, earlier: u64, duration: &mut i64) -> u32
    ensures { Gives (pos 0) (duration_of (pos count -ℤ pos earlier)) result duration.new }
{
    <Gps as HostCounts>::scale_checked_elapsed(count, earlier, duration)
}

#[unsafe(no_mangle)]
pub extern "C" fn plaitgate_gps_limits(
    epoch: &mut u64,
    min: &mut u64,
    max: &mut u64,
    nanos_per_year: &mut u64,
) -> u32
    ensures { Gives (limits_at 0 0 0 0) (answered limits) result
        (limits_at epoch.new min.new max.new nanos_per_year.new) }
{
    <Gps as HostCounts>::scale_limits(epoch, min, max, nanos_per_year)
}

#[unsafe(no_mangle)]
pub extern "C" fn plaitgate_utc_from_nanos(nanos: u64, count: &mut u64) -> u32
    ensures { Gives 0 (answered nanos) result count.new }
{
    <Utc as HostCounts>::scale_from_nanos(nanos, count)
}

#[unsafe(no_mangle)]
pub extern "C" fn plaitgate_utc_as_nanos(count: u64, nanos: &mut u64) -> u32
    ensures { Gives 0 (answered count) result nanos.new }
{
    <Utc as HostCounts>::scale_as_nanos(count, nanos)
}

#[unsafe(no_mangle)]
pub extern "C" fn plaitgate_utc_checked_from_seconds(seconds: u64, count: &mut u64) -> u32
    ensures { Gives 0 (count_of (pos (seconds * second))) result count.new }
{
    <Utc as HostCounts>::scale_checked_from_seconds(seconds, count)
}

#[unsafe(no_mangle)]
pub extern "C" fn plaitgate_utc_as_seconds(count: u64, seconds: &mut u64) -> u32
    ensures { Gives 0 (answered (count / second)) result seconds.new }
{
    <Utc as HostCounts>::scale_as_seconds(count, seconds)
}

#[unsafe(no_mangle)]
pub extern "C" fn plaitgate_utc_as_parts(count: u64, seconds: &mut u64, nanos: &mut u32) -> u32
    ensures { Gives (parts_of 0) (answered (parts_of count)) result
        (record { seconds = seconds.new; nanos = nanos.new }) }
{
    <Utc as HostCounts>::scale_as_parts(count, seconds, nanos)
}

#[unsafe(no_mangle)]
pub extern "C" fn plaitgate_utc_checked_add(count: u64, duration: i64, sum: &mut u64) -> u32
    ensures { Gives 0 (count_of (pos count +ℤ duration)) result sum.new }
{
    <Utc as HostCounts>::scale_checked_add(count, duration, sum)
}

#[unsafe(no_mangle)]
pub extern "C" fn plaitgate_utc_checked_sub_duration(
    count: u64,
    duration: i64,
    difference: &mut u64,
) -> u32
    ensures { Gives 0 (count_of (pos count -ℤ duration)) result difference.new }
{
    <Utc as HostCounts>::scale_checked_sub_duration(count, duration, difference)
}

#[unsafe(no_mangle)]
pub extern "C" fn plaitgate_utc_saturating_add(count: u64, duration: i64, sum: &mut u64) -> u32
    ensures { Gives 0 (answered (nearest_count (pos count +ℤ duration))) result sum.new }
{
    <Utc as HostCounts>::scale_saturating_add(count, duration, sum)
}

#[unsafe(no_mangle)]
pub extern "C" fn plaitgate_utc_saturating_sub_duration(
    count: u64,
    duration: i64,
    difference: &mut u64,
) -> u32
    ensures { Gives 0 (answered (nearest_count (pos count -ℤ duration))) result difference.new }
{
    <Utc as HostCounts>::scale_saturating_sub_duration(count, duration, difference)
}

#[unsafe(no_mangle)]
pub extern "C" fn plaitgate_utc_checked_elapsed(count: u64, earlier: u64, duration: &mut i64) -> u32
    ensures { Gives (pos 0) (duration_of (pos count -ℤ pos earlier)) result duration.new }
{
    <Utc as HostCounts>::scale_checked_elapsed(count, earlier, duration)
}

#[unsafe(no_mangle)]
pub extern "C" fn plaitgate_utc_limits(
    epoch: &mut u64,
    min: &mut u64,
    max: &mut u64,
    nanos_per_year: &mut u64,
) -> u32
    ensures { Gives (limits_at 0 0 0 0) (answered limits) result
        (limits_at epoch.new min.new max.new nanos_per_year.new) }
{
    <Utc as HostCounts>::scale_limits(epoch, min, max, nanos_per_year)
}

#[unsafe(no_mangle)]
pub extern "C" fn plaitgate_glonass_from_nanos(nanos: u64, count: &mut u64) -> u32
    ensures { Gives 0 (answered nanos) result count.new }
{
    <Glonass as HostCounts>::scale_from_nanos(nanos, count)
}

#[unsafe(no_mangle)]
pub extern "C" fn plaitgate_glonass_as_nanos(count: u64, nanos: &mut u64) -> u32
    ensures { Gives 0 (answered count) result nanos.new }
{
    <Glonass as HostCounts>::scale_as_nanos(count, nanos)
}

#[unsafe(no_mangle)]
pub extern "C" fn plaitgate_glonass_checked_from_seconds(seconds: u64, count: &mut u64) -> u32
    ensures { Gives 0 (count_of (pos (seconds * second))) result count.new }
{
    <Glonass as HostCounts>::scale_checked_from_seconds(seconds, count)
}

#[unsafe(no_mangle)]
pub extern "C" fn plaitgate_glonass_as_seconds(count: u64, seconds: &mut u64) -> u32
    ensures { Gives 0 (answered (count / second)) result seconds.new }
{
    <Glonass as HostCounts>::scale_as_seconds(count, seconds)
}

#[unsafe(no_mangle)]
pub extern "C" fn plaitgate_glonass_as_parts(count: u64, seconds: &mut u64, nanos: &mut u32) -> u32
    ensures { Gives (parts_of 0) (answered (parts_of count)) result
        (record { seconds = seconds.new; nanos = nanos.new }) }
{
    <Glonass as HostCounts>::scale_as_parts(count, seconds, nanos)
}

#[unsafe(no_mangle)]
pub extern "C" fn plaitgate_glonass_checked_add(count: u64, duration: i64, sum: &mut u64) -> u32
    ensures { Gives 0 (count_of (pos count +ℤ duration)) result sum.new }
{
    <Glonass as HostCounts>::scale_checked_add(count, duration, sum)
}

#[unsafe(no_mangle)]
pub extern "C" fn plaitgate_glonass_checked_sub_duration(
    count: u64,
    duration: i64,
    difference: &mut u64,
) -> u32
    ensures { Gives 0 (count_of (pos count -ℤ duration)) result difference.new }
{
    <Glonass as HostCounts>::scale_checked_sub_duration(count, duration, difference)
}

#[unsafe(no_mangle)]
pub extern "C" fn plaitgate_glonass_saturating_add(count: u64, duration: i64, sum: &mut u64) -> u32
    ensures { Gives 0 (answered (nearest_count (pos count +ℤ duration))) result sum.new }
{
    <Glonass as HostCounts>::scale_saturating_add(count, duration, sum)
}

#[unsafe(no_mangle)]
pub extern "C" fn plaitgate_glonass_saturating_sub_duration(
    count: u64,
    duration: i64,
    difference: &mut u64,
) -> u32
    ensures { Gives 0 (answered (nearest_count (pos count -ℤ duration))) result difference.new }
{
    <Glonass as HostCounts>::scale_saturating_sub_duration(count, duration, difference)
}

#[unsafe(no_mangle)]
pub extern "C" fn plaitgate_glonass_checked_elapsed(
    count: u64,
    earlier: u64,
    duration: &mut i64,
) -> u32
    ensures { Gives (pos 0) (duration_of (pos count -ℤ pos earlier)) result duration.new }
{
    <Glonass as HostCounts>::scale_checked_elapsed(count, earlier, duration)
}

#[unsafe(no_mangle)]
pub extern "C" fn plaitgate_glonass_limits(
    epoch: &mut u64,
    min: &mut u64,
    max: &mut u64,
    nanos_per_year: &mut u64,
) -> u32
    ensures { Gives (limits_at 0 0 0 0) (answered limits) result
        (limits_at epoch.new min.new max.new nanos_per_year.new) }
{
    <Glonass as HostCounts>::scale_limits(epoch, min, max, nanos_per_year)
}

#[unsafe(no_mangle)]
pub extern "C" fn plaitgate_tai_from_nanos(nanos: u64, count: &mut u64) -> u32
    ensures { Gives 0 (answered nanos) result count.new }
{
    <Tai as HostCounts>::scale_from_nanos(nanos, count)
}

#[unsafe(no_mangle)]
pub extern "C" fn plaitgate_tai_as_nanos(count: u64, nanos: &mut u64) -> u32
    ensures { Gives 0 (answered count) result nanos.new }
{
    <Tai as HostCounts>::scale_as_nanos(count, nanos)
}

#[unsafe(no_mangle)]
pub extern "C" fn plaitgate_tai_checked_from_seconds(seconds: u64, count: &mut u64) -> u32
    ensures { Gives 0 (count_of (pos (seconds * second))) result count.new }
{
    <Tai as HostCounts>::scale_checked_from_seconds(seconds, count)
}

#[unsafe(no_mangle)]
pub extern "C" fn plaitgate_tai_as_seconds(count: u64, seconds: &mut u64) -> u32
    ensures { Gives 0 (answered (count / second)) result seconds.new }
{
    <Tai as HostCounts>::scale_as_seconds(count, seconds)
}

#[unsafe(no_mangle)]
pub extern "C" fn plaitgate_tai_as_parts(count: u64, seconds: &mut u64, nanos: &mut u32) -> u32
    ensures { Gives (parts_of 0) (answered (parts_of count)) result
        (record { seconds = seconds.new; nanos = nanos.new }) }
{
    <Tai as HostCounts>::scale_as_parts(count, seconds, nanos)
}

#[unsafe(no_mangle)]
pub extern "C" fn plaitgate_tai_checked_add(count: u64, duration: i64, sum: &mut u64) -> u32
    ensures { Gives 0 (count_of (pos count +ℤ duration)) result sum.new }
{
    <Tai as HostCounts>::scale_checked_add(count, duration, sum)
}

#[unsafe(no_mangle)]
pub extern "C" fn plaitgate_tai_checked_sub_duration(
    count: u64,
    duration: i64,
    difference: &mut u64,
) -> u32
    ensures { Gives 0 (count_of (pos count -ℤ duration)) result difference.new }
{
    <Tai as HostCounts>::scale_checked_sub_duration(count, duration, difference)
}

#[unsafe(no_mangle)]
pub extern "C" fn plaitgate_tai_saturating_add(count: u64, duration: i64, sum: &mut u64) -> u32
    ensures { Gives 0 (answered (nearest_count (pos count +ℤ duration))) result sum.new }
{
    <Tai as HostCounts>::scale_saturating_add(count, duration, sum)
}

#[unsafe(no_mangle)]
pub extern "C" fn plaitgate_tai_saturating_sub_duration(
    count: u64,
    duration: i64,
    difference: &mut u64,
) -> u32
    ensures { Gives 0 (answered (nearest_count (pos count -ℤ duration))) result difference.new }
{
    <Tai as HostCounts>::scale_saturating_sub_duration(count, duration, difference)
}

#[unsafe(no_mangle)]
pub extern "C" fn plaitgate_tai_checked_elapsed(count: u64, earlier: u64, duration: &mut i64) -> u32
    ensures { Gives (pos 0) (duration_of (pos count -ℤ pos earlier)) result duration.new }
{
    <Tai as HostCounts>::scale_checked_elapsed(count, earlier, duration)
}

#[unsafe(no_mangle)]
pub extern "C" fn plaitgate_tai_limits(
    epoch: &mut u64,
    min: &mut u64,
    max: &mut u64,
    nanos_per_year: &mut u64,
) -> u32
    ensures { Gives (limits_at 0 0 0 0) (answered limits) result
        (limits_at epoch.new min.new max.new nanos_per_year.new) }
{
    <Tai as HostCounts>::scale_limits(epoch, min, max, nanos_per_year)
}

#[unsafe(no_mangle)]
pub extern "C" fn plaitgate_galileo_from_nanos(nanos: u64, count: &mut u64) -> u32
    ensures { Gives 0 (answered nanos) result count.new }
{
    <Galileo as HostCounts>::scale_from_nanos(nanos, count)
}

#[unsafe(no_mangle)]
pub extern "C" fn plaitgate_galileo_as_nanos(count: u64, nanos: &mut u64) -> u32
    ensures { Gives 0 (answered count) result nanos.new }
{
    <Galileo as HostCounts>::scale_as_nanos(count, nanos)
}

#[unsafe(no_mangle)]
pub extern "C" fn plaitgate_galileo_checked_from_seconds(seconds: u64, count: &mut u64) -> u32
    ensures { Gives 0 (count_of (pos (seconds * second))) result count.new }
{
    <Galileo as HostCounts>::scale_checked_from_seconds(seconds, count)
}

#[unsafe(no_mangle)]
pub extern "C" fn plaitgate_galileo_as_seconds(count: u64, seconds: &mut u64) -> u32
    ensures { Gives 0 (answered (count / second)) result seconds.new }
{
    <Galileo as HostCounts>::scale_as_seconds(count, seconds)
}

#[unsafe(no_mangle)]
pub extern "C" fn plaitgate_galileo_as_parts(count: u64, seconds: &mut u64, nanos: &mut u32) -> u32
    ensures { Gives (parts_of 0) (answered (parts_of count)) result
        (record { seconds = seconds.new; nanos = nanos.new }) }
{
    <Galileo as HostCounts>::scale_as_parts(count, seconds, nanos)
}

#[unsafe(no_mangle)]
pub extern "C" fn plaitgate_galileo_checked_add(count: u64, duration: i64, sum: &mut u64) -> u32
    ensures { Gives 0 (count_of (pos count +ℤ duration)) result sum.new }
{
    <Galileo as HostCounts>::scale_checked_add(count, duration, sum)
}

#[unsafe(no_mangle)]
pub extern "C" fn plaitgate_galileo_checked_sub_duration(
    count: u64,
    duration: i64,
    difference: &mut u64,
) -> u32
    ensures { Gives 0 (count_of (pos count -ℤ duration)) result difference.new }
{
    <Galileo as HostCounts>::scale_checked_sub_duration(count, duration, difference)
}

#[unsafe(no_mangle)]
pub extern "C" fn plaitgate_galileo_saturating_add(count: u64, duration: i64, sum: &mut u64) -> u32
    ensures { Gives 0 (answered (nearest_count (pos count +ℤ duration))) result sum.new }
{
    <Galileo as HostCounts>::scale_saturating_add(count, duration, sum)
}

#[unsafe(no_mangle)]
pub extern "C" fn plaitgate_galileo_saturating_sub_duration(
    count: u64,
    duration: i64,
    difference: &mut u64,
) -> u32
    ensures { Gives 0 (answered (nearest_count (pos count -ℤ duration))) result difference.new }
{
    <Galileo as HostCounts>::scale_saturating_sub_duration(count, duration, difference)
}

#[unsafe(no_mangle)]
pub extern "C" fn plaitgate_galileo_checked_elapsed(
    count: u64,
    earlier: u64,
    duration: &mut i64,
) -> u32
    ensures { Gives (pos 0) (duration_of (pos count -ℤ pos earlier)) result duration.new }
{
    <Galileo as HostCounts>::scale_checked_elapsed(count, earlier, duration)
}

#[unsafe(no_mangle)]
pub extern "C" fn plaitgate_galileo_limits(
    epoch: &mut u64,
    min: &mut u64,
    max: &mut u64,
    nanos_per_year: &mut u64,
) -> u32
    ensures { Gives (limits_at 0 0 0 0) (answered limits) result
        (limits_at epoch.new min.new max.new nanos_per_year.new) }
{
    <Galileo as HostCounts>::scale_limits(epoch, min, max, nanos_per_year)
}

#[unsafe(no_mangle)]
pub extern "C" fn plaitgate_beidou_from_nanos(nanos: u64, count: &mut u64) -> u32
    ensures { Gives 0 (answered nanos) result count.new }
{
    <Beidou as HostCounts>::scale_from_nanos(nanos, count)
}

#[unsafe(no_mangle)]
pub extern "C" fn plaitgate_beidou_as_nanos(count: u64, nanos: &mut u64) -> u32
    ensures { Gives 0 (answered count) result nanos.new }
{
    <Beidou as HostCounts>::scale_as_nanos(count, nanos)
}

#[unsafe(no_mangle)]
pub extern "C" fn plaitgate_beidou_checked_from_seconds(seconds: u64, count: &mut u64) -> u32
    ensures { Gives 0 (count_of (pos (seconds * second))) result count.new }
{
    <Beidou as HostCounts>::scale_checked_from_seconds(seconds, count)
}

#[unsafe(no_mangle)]
pub extern "C" fn plaitgate_beidou_as_seconds(count: u64, seconds: &mut u64) -> u32
    ensures { Gives 0 (answered (count / second)) result seconds.new }
{
    <Beidou as HostCounts>::scale_as_seconds(count, seconds)
}

#[unsafe(no_mangle)]
pub extern "C" fn plaitgate_beidou_as_parts(count: u64, seconds: &mut u64, nanos: &mut u32) -> u32
    ensures { Gives (parts_of 0) (answered (parts_of count)) result
        (record { seconds = seconds.new; nanos = nanos.new }) }
{
    <Beidou as HostCounts>::scale_as_parts(count, seconds, nanos)
}

#[unsafe(no_mangle)]
pub extern "C" fn plaitgate_beidou_checked_add(count: u64, duration: i64, sum: &mut u64) -> u32
    ensures { Gives 0 (count_of (pos count +ℤ duration)) result sum.new }
{
    <Beidou as HostCounts>::scale_checked_add(count, duration, sum)
}

#[unsafe(no_mangle)]
pub extern "C" fn plaitgate_beidou_checked_sub_duration(
    count: u64,
    duration: i64,
    difference: &mut u64,
) -> u32
    ensures { Gives 0 (count_of (pos count -ℤ duration)) result difference.new }
{
    <Beidou as HostCounts>::scale_checked_sub_duration(count, duration, difference)
}

#[unsafe(no_mangle)]
pub extern "C" fn plaitgate_beidou_saturating_add(count: u64, duration: i64, sum: &mut u64) -> u32
    ensures { Gives 0 (answered (nearest_count (pos count +ℤ duration))) result sum.new }
{
    <Beidou as HostCounts>::scale_saturating_add(count, duration, sum)
}

#[unsafe(no_mangle)]
pub extern "C" fn plaitgate_beidou_saturating_sub_duration(
    count: u64,
    duration: i64,
    difference: &mut u64,
) -> u32
    ensures { Gives 0 (answered (nearest_count (pos count -ℤ duration))) result difference.new }
{
    <Beidou as HostCounts>::scale_saturating_sub_duration(count, duration, difference)
}

#[unsafe(no_mangle)]
pub extern "C" fn plaitgate_beidou_checked_elapsed(
    count: u64,
    earlier: u64,
    duration: &mut i64,
) -> u32
    ensures { Gives (pos 0) (duration_of (pos count -ℤ pos earlier)) result duration.new }
{
    <Beidou as HostCounts>::scale_checked_elapsed(count, earlier, duration)
}

#[unsafe(no_mangle)]
pub extern "C" fn plaitgate_beidou_limits(
    epoch: &mut u64,
    min: &mut u64,
    max: &mut u64,
    nanos_per_year: &mut u64,
) -> u32
    ensures { Gives (limits_at 0 0 0 0) (answered limits) result
        (limits_at epoch.new min.new max.new nanos_per_year.new) }
{
    <Beidou as HostCounts>::scale_limits(epoch, min, max, nanos_per_year)
}
