// Civil readings.
ghost use Rattle.std.specs.Prelude.{◌≡◌, pos};
ghost use Rattle.tables.specs.Answers.{dated_in};
ghost use Rattle.refusals.specs.Outcome.{Gives, outcome_in};
ghost use Rattle.civil.specs.Fields.{fields};
ghost use Rattle.plaitgate.specs.Tables.{dated_as, with_stale};

use crate::give::{civil, told, told_by_table};
use civil::CivilDateTime;
use refusals::Refusal;
use tables::Dated;

// The fields with a refusal.
fn no_fields() -> CivilDateTime
    ensures { result ≡ fields (pos 0) 0 0 0 0 0 0 }
{
    CivilDateTime {
        year: 0,
        month: 0,
        day: 0,
        hour: 0,
        minute: 0,
        second: 0,
        nanos: 0,
    }
}

pub fn reading(
    answer: Result<CivilDateTime, Refusal>,
    year: &mut i32,
    month: &mut u8,
    day: &mut u8,
    hour: &mut u8,
    minute: &mut u8,
    second: &mut u8,
    nanos: &mut u32,
) -> u32
    ensures { Gives (fields (pos 0) 0 0 0 0 0 0) (outcome_in answer) result
        (fields year.new month.new day.new hour.new minute.new
        second.new nanos.new) }
{
    let (number, c) = told(answer, no_fields());
    civil(c, year, month, day, hour, minute, second, nanos);
    number
}

// By a table: the last byte is 1 where the table is stale.
pub fn dated_reading(
    found: Dated<CivilDateTime>,
    year: &mut i32,
    month: &mut u8,
    day: &mut u8,
    hour: &mut u8,
    minute: &mut u8,
    second: &mut u8,
    nanos: &mut u32,
    stale: &mut u8,
) -> u32
    ensures { Gives (dated_as (fields (pos 0) 0 0 0 0 0 0) 0) (with_stale (dated_in found)) result
        (dated_as (fields year.new month.new day.new hour.new
        minute.new second.new nanos.new) stale.new) }
{
    let (number, c, old) = told_by_table(found, no_fields());
    civil(c, year, month, day, hour, minute, second, nanos);
    *stale = old;
    number
}
