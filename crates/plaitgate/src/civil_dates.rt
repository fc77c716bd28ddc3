// Dates of any fields, and the days, seconds and nanoseconds between them. C has a name for each call, and passes the
// fields of a date one by one.
ghost use Rattle.std.specs.Prelude.{◌≡◌, pos};
ghost use Rattle.refusals.specs.Outcome.{Gives, answered};
ghost use Rattle.calendar.specs.Calendar.{on};
ghost use Rattle.calendar.specs.Dates.{days_from_unix, days_until, seconds_until, nanos_until};

use crate::give;
use calendar::CivilDate;

#[unsafe(no_mangle)]
pub extern "C" fn plaitgate_civil_date_new(
    year: i32,
    month: u8,
    day: u8,
    date_year: &mut i32,
    date_month: &mut u8,
    date_day: &mut u8,
) -> u32
    ensures { Gives (on (pos 0) 0 0) (answered (on year month day)) result
        (on date_year.new date_month.new date_day.new) }
{
    let date = CivilDate::new(year, month, day);
    *date_year = date.year;
    *date_month = date.month;
    *date_day = date.day;
    0
}

#[unsafe(no_mangle)]
pub extern "C" fn plaitgate_civil_date_days_from_unix(
    year: i32,
    month: u8,
    day: u8,
    days: &mut i64,
) -> u32
    ensures { Gives (pos 0) (days_from_unix (on year month day)) result days.new }
{
    let date = CivilDate { year, month, day };
    give::value(date.days_from_unix(), 0, days)
}

#[unsafe(no_mangle)]
pub extern "C" fn plaitgate_civil_date_days_until(
    year: i32,
    month: u8,
    day: u8,
    other_year: i32,
    other_month: u8,
    other_day: u8,
    days: &mut i64,
) -> u32
    ensures { Gives (pos 0) (days_until (on year month day) (on other_year other_month other_day)) result
        days.new }
{
    let date = CivilDate { year, month, day };
    let other = CivilDate {
        year: other_year,
        month: other_month,
        day: other_day,
    };
    give::value(date.days_until(other), 0, days)
}

#[unsafe(no_mangle)]
pub extern "C" fn plaitgate_civil_date_seconds_until(
    year: i32,
    month: u8,
    day: u8,
    other_year: i32,
    other_month: u8,
    other_day: u8,
    seconds: &mut i64,
) -> u32
    ensures { Gives (pos 0) (seconds_until (on year month day) (on other_year other_month other_day)) result
        seconds.new }
{
    let date = CivilDate { year, month, day };
    let other = CivilDate {
        year: other_year,
        month: other_month,
        day: other_day,
    };
    give::value(date.seconds_until(other), 0, seconds)
}

#[unsafe(no_mangle)]
pub extern "C" fn plaitgate_civil_date_nanos_until(
    year: i32,
    month: u8,
    day: u8,
    other_year: i32,
    other_month: u8,
    other_day: u8,
    nanos: &mut i64,
) -> u32
    ensures { Gives (pos 0) (nanos_until (on year month day) (on other_year other_month other_day)) result
        nanos.new }
{
    let date = CivilDate { year, month, day };
    let other = CivilDate {
        year: other_year,
        month: other_month,
        day: other_day,
    };
    give::value(date.nanos_until(other), 0, nanos)
}
