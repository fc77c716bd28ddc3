// Civil dates and times of UTC counts, and the counts of any fields. C passes fields one by one.
ghost use Rattle.std.specs.Prelude.{◌≡◌, cond, eqb, pos};
ghost use Rattle.refusals.specs.Outcome.{Gives, answered};
ghost use Rattle.civil.specs.Fields.{fields, fields_of, count_at};

use crate::give;
use civil::CivilDateTime;
use scales::utc::Utc;

#[unsafe(no_mangle)]
pub extern "C" fn plaitgate_civil_from_utc_nanos(
    count: u64,
    year: &mut i32,
    month: &mut u8,
    day: &mut u8,
    hour: &mut u8,
    minute: &mut u8,
    second: &mut u8,
    nanos: &mut u32,
) -> u32
    ensures { Gives (fields (pos 0) 0 0 0 0 0 0) (answered (fields_of count)) result
        (fields year.new month.new day.new hour.new minute.new
        second.new nanos.new) }
{
    give::civil(
        CivilDateTime::from_utc_nanos(count),
        year,
        month,
        day,
        hour,
        minute,
        second,
        nanos,
    );
    0
}

#[unsafe(no_mangle)]
pub extern "C" fn plaitgate_utc_to_civil(
    count: u64,
    year: &mut i32,
    month: &mut u8,
    day: &mut u8,
    hour: &mut u8,
    minute: &mut u8,
    second: &mut u8,
    nanos: &mut u32,
) -> u32
    ensures { Gives (fields (pos 0) 0 0 0 0 0 0) (answered (fields_of count)) result
        (fields year.new month.new day.new hour.new minute.new
        second.new nanos.new) }
{
    give::civil(
        civil::to_civil(Utc(count)),
        year,
        month,
        day,
        hour,
        minute,
        second,
        nanos,
    );
    0
}

#[unsafe(no_mangle)]
pub extern "C" fn plaitgate_civil_to_utc_nanos(
    year: i32,
    month: u8,
    day: u8,
    hour: u8,
    minute: u8,
    second: u8,
    nanos: u32,
    count: &mut u64,
) -> u32
    ensures { Gives 0 (count_at (fields year month day hour minute second nanos)) result count.new }
{
    let c = CivilDateTime {
        year,
        month,
        day,
        hour,
        minute,
        second,
        nanos,
    };
    give::value(c.to_utc_nanos(), 0, count)
}

#[unsafe(no_mangle)]
pub extern "C" fn plaitgate_civil_to_utc(
    year: i32,
    month: u8,
    day: u8,
    hour: u8,
    minute: u8,
    second: u8,
    nanos: u32,
    count: &mut u64,
) -> u32
    ensures { Gives 0 (count_at (fields year month day hour minute second nanos)) result count.new }
{
    let c = CivilDateTime {
        year,
        month,
        day,
        hour,
        minute,
        second,
        nanos,
    };
    give::count(c.to_utc(), count)
}

#[unsafe(no_mangle)]
pub extern "C" fn plaitgate_civil_is_whole_second(
    year: i32,
    month: u8,
    day: u8,
    hour: u8,
    minute: u8,
    second: u8,
    nanos: u32,
    yes: &mut u8,
) -> u32
    ensures { Gives 0 (answered (cond (eqb nanos 0) 1 0)) result yes.new }
{
    let c = CivilDateTime {
        year,
        month,
        day,
        hour,
        minute,
        second,
        nanos,
    };
    *yes = give::byte(c.is_whole_second());
    0
}
