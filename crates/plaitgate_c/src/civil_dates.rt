// The calls of plaitgate::civil_dates, for hosts. Written by tools/write-exports.
ghost use Rattle.std.specs.Prelude.{pos};
ghost use Rattle.refusals.specs.Outcome.{Gives, answered};
ghost use Rattle.calendar.specs.Calendar.{on};
ghost use Rattle.calendar.specs.Dates.{days_from_unix, days_until, seconds_until, nanos_until};

#[unsafe(no_mangle)]
pub extern "C" fn plaitgate_civil_date_new(
    year: i32,
    month: u8,
    day: u8,
    date_year: &mut i32,
    date_month: &mut u8,
    date_day: &mut u8,
) -> u32
    ensures { Gives (on (pos 0) 0 0) (answered (on year month day)) result
        (on date_year.new date_month.new date_day.new) }
{
    plaitgate::civil_dates::plaitgate_civil_date_new(
        year, month, day, date_year, date_month, date_day,
    )
}

#[unsafe(no_mangle)]
pub extern "C" fn plaitgate_civil_date_days_from_unix(
    year: i32,
    month: u8,
    day: u8,
    days: &mut i64,
) -> u32
    ensures { Gives (pos 0) (days_from_unix (on year month day)) result days.new }
{
    plaitgate::civil_dates::plaitgate_civil_date_days_from_unix(year, month, day, days)
}

#[unsafe(no_mangle)]
pub extern "C" fn plaitgate_civil_date_days_until(
    year: i32,
    month: u8,
    day: u8,
    other_year: i32,
    other_month: u8,
    other_day: u8,
    days: &mut i64,
) -> u32
    ensures { Gives (pos 0) (days_until (on year month day) (on other_year other_month other_day)) result
        days.new }
{
    plaitgate::civil_dates::plaitgate_civil_date_days_until(
        year,
        month,
        day,
        other_year,
        other_month,
        other_day,
        days,
    )
}

#[unsafe(no_mangle)]
pub extern "C" fn plaitgate_civil_date_seconds_until(
    year: i32,
    month: u8,
    day: u8,
    other_year: i32,
    other_month: u8,
    other_day: u8,
    seconds: &mut i64,
) -> u32
    ensures { Gives (pos 0) (seconds_until (on year month day) (on other_year other_month other_day)) result
        seconds.new }
{
    plaitgate::civil_dates::plaitgate_civil_date_seconds_until(
        year,
        month,
        day,
        other_year,
        other_month,
        other_day,
        seconds,
    )
}

#[unsafe(no_mangle)]
pub extern "C" fn plaitgate_civil_date_nanos_until(
    year: i32,
    month: u8,
    day: u8,
    other_year: i32,
    other_month: u8,
    other_day: u8,
    nanos: &mut i64,
) -> u32
    ensures { Gives (pos 0) (nanos_until (on year month day) (on other_year other_month other_day)) result
        nanos.new }
{
    plaitgate::civil_dates::plaitgate_civil_date_nanos_until(
        year,
        month,
        day,
        other_year,
        other_month,
        other_day,
        nanos,
    )
}
