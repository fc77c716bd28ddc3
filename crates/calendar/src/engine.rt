// The two directions between a date and its day, each one function, the steps that they are made of, and the test of
// whether the calendar has a date.
// Years begin here on 1 March, so that a leap day is the last of its year: day 0 is 0000-03-01, and month 0 is March.
ghost use Rattle.std.specs.Prelude.{◌≡◌, false, cond, ◌+◌, ◌*◌, ◌≤◌, ◌<◌, ◌^◌, eqb, ltb, pos, get_or};
ghost use Rattle.std.proofs.Math.IntN.{sub_ℕ};
ghost use Rattle.calendar.specs.Calendar.{on, leap, days_in, has_month, has_day, date_of};
ghost use Rattle.calendar.specs.Formula.{day_of, month_start};
ghost use Rattle.calendar.specs.March.{days_in_years, FromMarch, InYear, InMonth, epoch_number, lift_eras, Lifted};
ghost use Rattle.calendar.specs.Dates.{utc_epoch_day};
ghost use Rattle.calendar.specs.Answers.{date_in};

use crate::CivilDate;

// An era is 400 years, after which the calendar repeats: 400 × 365 days and 97 leap days, 100 − 4 + 1.
const ERA_YEARS: i64 = 400;

const ERA_DAYS: i64 = 146_097;

// In quarters of a day: a century has a fourth of an era's days, 36,524 and a quarter; a year of it 365 and a quarter.
const CENTURY_QUARTERS: u64 = ERA_DAYS as u64;

const YEAR_QUARTERS: u64 = 1_461;

// Day of 1970-01-01: 1,969 years, 1,969 × 365 + 492 − 19 + 4 days, and 306 days from 1 March to 1 January.
const UNIX_EPOCH_DAY: i64 = 719_468;

// Day of 1972-01-01: two years without a leap day later.
const UTC_EPOCH_DAY: u64 = UNIX_EPOCH_DAY as u64 + 730;

// Eras by which years are lifted, so that neither a year of 32 bits nor the year before it is negative: 2^31 / 400 is
// 5,368,709.12.
const LIFT_ERAS: i64 = 5_368_710;

const LIFT_YEARS: i64 = LIFT_ERAS * ERA_YEARS;

// The day number of 1970-01-01 in lifted years, where 1 March of the first is day 1, as the days of a month count from
// 1.
const LIFT_DAYS: i64 = LIFT_ERAS * ERA_DAYS + UNIX_EPOCH_DAY + 1;

// The day on which each month starts, in a year that begins on 1 March: 0 for March, 31 for April, 31 + 30 for May, and
// so on to February. A leap day is the last of such a year, after all the starts, so they are the same in every year.
const MONTH_STARTS: [u64; 12] = [0, 31, 61, 92, 122, 153, 184, 214, 245, 275, 306, 337];

const LEAP_YEAR_DAYS: u64 = 366;

// A year that begins in March, and a day of it from 0 on.
#[derive(Clone, Copy)]
struct YearDay {
    year: u64,
    day: u64,
}

// A year that begins in March, and a month of it from 0 on.
#[derive(Clone, Copy)]
struct MarchMonth {
    year: u64,
    month: u64,
}

// A year counted from `LIFT` eras before year 0.
fn lifted(year: i32) -> u64
    ensures { Lifted year result }
{
    (year as i64 + LIFT_YEARS) as u64
}

// A day counted from there on, from 1, as a Unix day.
fn lowered(day: u64) -> i64
    requires { day < 2 ^ 62 }
    ensures { result ≡ sub_ℕ day (epoch_number lift_eras) }
{
    day as i64 - LIFT_DAYS
}

// Days before a year: the quarters of its years, less a day in each hundred, and one more in each four hundred.
fn days_before_year(year: u64) -> u64
    requires { year < 2 ^ 33 }
    ensures { result ≡ days_in_years year }
{
    let century = year / 100;
    year * YEAR_QUARTERS / 4 - century + century / 4
}

// Days before a month, by civil.rs's formula. For the twelve months it gives MONTH_STARTS; but a date may hold any month
// field, and the formula answers for those that no calendar has, too. From March on, five months have 31, 30, 31, 30 and
// 31 days, 153, and then again. A month is so 153 / 5 days on the mean, and 2 more than its fifths, rounded down, give 0,
// 31, 61, 92, 122, 153 .. 337.
fn days_before_month(month: u64) -> u64
    requires { month < 2 ^ 9 }
    ensures { result ≡ month_start month }
{
    (153 * month + 2) / 5
}

// A month of a year, counted from March on.
fn from_march(year: u64, month: u64) -> MarchMonth
    requires { (1 ≤ year) × (month < 2 ^ 8) }
    ensures { FromMarch year month result.year result.month }
{
    if month <= 2 {
        MarchMonth {
            year: year - 1,
            month: month + 9,
        }
    } else {
        MarchMonth {
            year,
            month: month - 3,
        }
    }
}

// The Unix day of a date, by civil.rs's formula, whatever its fields.
pub fn days_of_date(date: CivilDate) -> i64
    ensures { result ≡ day_of (date_in date) }
{
    let at = from_march(lifted(date.year), date.month as u64);
    lowered(days_before_year(at.year) + days_before_month(at.month) + date.day as u64)
}

// The year that holds a day. Centuries, and years of a century, begin after whole quarters, rounded down to days; so
// the last quarter of a day is in the century and the year that hold the day.
fn year_holding(day: u64) -> YearDay
    requires { day < 2 ^ 33 }
    ensures { InYear day result.year result.day }
{
    let quarter = 4 * day + 3;
    let century = quarter / CENTURY_QUARTERS;
    let of_century = 4 * (quarter % CENTURY_QUARTERS / 4) + 3;
    YearDay {
        year: 100 * century + of_century / YEAR_QUARTERS,
        day: of_century % YEAR_QUARTERS / 4,
    }
}

// The day on which the month after this one starts, or a leap year ends; 0 for a number that is no month. The arms
// compile to a table in read-only memory, whereas `starts[month + 1]` would lay all twelve on the stack at each call.
fn next_start(starts: &[u64; 12], month: u64) -> u64
    ensures { result ≡ cond (ltb month 11) (get_or starts.now (month + 1) 0) (cond (eqb month 11) 366 0) }
{
    match month {
        0 => starts[1],
        1 => starts[2],
        2 => starts[3],
        3 => starts[4],
        4 => starts[5],
        5 => starts[6],
        6 => starts[7],
        7 => starts[8],
        8 => starts[9],
        9 => starts[10],
        10 => starts[11],
        11 => LEAP_YEAR_DAYS,
        _ => 0,
    }
}

// The month that holds a day of a year. Month m starts on day 32 * m or up to 15 days before it, so day / 32 is the month
// or the one before it; whether the next month has started tells which.
fn month_holding(day: u64) -> u64
    requires { day < 366 }
    ensures { InMonth day result }
{
    let guess = day / 32;
    if next_start(&MONTH_STARTS, guess) <= day {
        guess + 1
    } else {
        guess
    }
}

// A date of small numbers.
fn date_of(year: u64, month: u64, day: u64) -> CivilDate
    requires { (year < 2 ^ 31) × ((month < 2 ^ 8) × (day < 2 ^ 8)) }
    ensures { date_in result ≡ on (pos year) month day }
{
    CivilDate {
        year: year as i32,
        month: month as u8,
        day: day as u8,
    }
}

// The date of a day from 1972-01-01 on, day 0.
pub fn date_of_utc_day(day: u32) -> CivilDate
    ensures { date_in result ≡ date_of (pos (day + utc_epoch_day)) }
{
    let held = year_holding(day as u64 + UTC_EPOCH_DAY);
    let month = month_holding(held.day);
    let of_month = held.day - days_before_month(month) + 1;
    if month < 10 {
        date_of(held.year, month + 3, of_month)
    } else {
        date_of(held.year + 1, month - 9, of_month)
    }
}

// Whether a year is a leap year. Eras are alike, so the lift changes nothing.
fn is_leap(year: i32) -> bool
    ensures { result ≡ leap year }
{
    let y = lifted(year);
    (y % 4 == 0) & ((y % 100 != 0) | (y % 400 == 0))
}

// The days of a month in a year without a leap day.
fn common_length(month: u8) -> u8
    requires { month ≤ 12 }
    ensures { result ≡ days_in false month }
{
    match month {
        2 => 28,
        4 | 6 | 9 | 11 => 30,
        _ => 31,
    }
}

// Whether a year has the month.
pub fn has_month(date: CivilDate) -> bool
    ensures { result ≡ has_month (date_in date) }
{
    (1 <= date.month) & (date.month <= 12)
}

// Whether the month has the day. The year matters only for 29 February.
pub fn has_day(date: CivilDate) -> bool
    ensures { result ≡ has_day (date_in date) }
{
    if date.month > 12 {
        return false;
    }
    if date.day <= common_length(date.month) {
        1 <= date.day
    } else {
        (date.month == 2) & (date.day == 29) & is_leap(date.year)
    }
}
