// Durations, and seconds with their nanoseconds.
ghost use Rattle.std.specs.Prelude.{◌≡◌, pos};
ghost use Rattle.refusals.specs.Outcome.{Gives, answered};
ghost use Rattle.counts.specs.Units.{parts_of, parts_from};

use crate::give;
use counts::Duration;
use counts::units::DurationParts;
use scales::duration;

#[unsafe(no_mangle)]
pub extern "C" fn plaitgate_duration_parts_new(
    seconds: u64,
    nanos: u32,
    parts_seconds: &mut u64,
    parts_nanos: &mut u32,
) -> u32
    ensures { Gives (parts_of 0) (parts_from seconds nanos) result
        (record { seconds = parts_seconds.new; nanos = parts_nanos.new }) }
{
    give::parts(
        DurationParts::new(seconds, nanos),
        parts_seconds,
        parts_nanos,
    )
}

#[unsafe(no_mangle)]
pub extern "C" fn plaitgate_duration_from_nanos(nanos: i64, lasts: &mut i64) -> u32
    ensures { Gives (pos 0) (answered nanos) result lasts.new }
{
    *lasts = duration::from_nanos(nanos).0;
    0
}

#[unsafe(no_mangle)]
pub extern "C" fn plaitgate_duration_as_nanos(lasts: i64, nanos: &mut i64) -> u32
    ensures { Gives (pos 0) (answered lasts) result nanos.new }
{
    *nanos = duration::as_nanos(Duration(lasts));
    0
}
