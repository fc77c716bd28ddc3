// The fields of a UTC second, for callers that have seconds and not a count.
ghost use Rattle.std.specs.Prelude.{◌≡◌, ◌<◌, ◌^◌};
ghost use Rattle.civil.specs.Fields.{fields_at};

use crate::CivilDateTime;
use calendar::engine;

pub const SECONDS_PER_DAY: u64 = 86_400;

pub const SECONDS_PER_HOUR: u64 = 3_600;

pub const SECONDS_PER_MINUTE: u64 = 60;

// The fields of a UTC second, counted from 1972-01-01, and of nanoseconds after it.
pub fn fields_at(second: u64, nanos: u32) -> CivilDateTime
    requires { second < 2 ^ 48 }
    ensures { result ≡ fields_at second nanos }
{
    let date = engine::date_of_utc_day((second / SECONDS_PER_DAY) as u32);
    CivilDateTime {
        year: date.year,
        month: date.month,
        day: date.day,
        hour: (second % SECONDS_PER_DAY / SECONDS_PER_HOUR) as u8,
        minute: (second % SECONDS_PER_HOUR / SECONDS_PER_MINUTE) as u8,
        second: (second % SECONDS_PER_MINUTE) as u8,
        nanos,
    }
}
