// UTC counts: Unix time.
ghost use Rattle.std.specs.Prelude.{◌≡◌, ◌+◌, ◌-◌, ◌*◌, ◌/◌, ◌^◌, min, pos, ◌-ℤ◌, ◌*ℤ◌};
ghost use Rattle.refusals.specs.Outcome.{Gives, answered};
ghost use Rattle.counts.specs.Exact.{count_of};
ghost use Rattle.counts.specs.Units.{second, unix_offset};

use crate::give;
use scales::utc::Utc;

#[unsafe(no_mangle)]
pub extern "C" fn plaitgate_utc_from_unix_seconds(seconds: i64, count: &mut u64) -> u32
    ensures { Gives 0 (count_of ((seconds -ℤ pos unix_offset) *ℤ pos second)) result count.new }
{
    give::count(Utc::from_unix_seconds(seconds), count)
}

#[unsafe(no_mangle)]
pub extern "C" fn plaitgate_utc_from_unix_nanos(nanos: i64, count: &mut u64) -> u32
    ensures { Gives 0 (count_of (nanos -ℤ pos (unix_offset * second))) result count.new }
{
    give::count(Utc::from_unix_nanos(nanos), count)
}

#[unsafe(no_mangle)]
pub extern "C" fn plaitgate_utc_as_unix_seconds(count: u64, seconds: &mut i64) -> u32
    ensures { Gives (pos 0) (answered (pos (count / second + unix_offset))) result seconds.new }
{
    *seconds = Utc(count).as_unix_seconds();
    0
}

#[unsafe(no_mangle)]
pub extern "C" fn plaitgate_utc_as_unix_nanos(count: u64, nanos: &mut i64) -> u32
    ensures { Gives (pos 0) (answered (pos (min (count + unix_offset * second) (2 ^ 63 - 1)))) result
        nanos.new }
{
    *nanos = Utc(count).as_unix_nanos();
    0
}
