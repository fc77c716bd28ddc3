// The lent forms, after leap.rs: a list of entries, of any length, checked and looked up where it stands, and a table
// extended in place. Nothing is copied but one entry at a time. A caller may make a list by hand, so every call but the
// check gives 8 first where it is not valid.
#![tactic(auto)]

pub mod inner;

ghost use Rattle.std.specs.Prelude.{◌≡◌, false, eqb, length};
ghost use Rattle.refusals.specs.Outcome.{answered, outcome_in};
ghost use Rattle.tables.specs.Entries.{checking, offset_at, current_offset, last_update};
ghost use Rattle.tables.specs.Slots.{extended};
ghost use Rattle.tables.specs.Answers.{taken_in, update_in, dated_in};
ghost use Rattle.lent.specs.Lists.{of_valid_list};

use crate::inner::Pass;
use refusals::Refusal;
use scales::tai::Tai;
use tables::{Dated, LeapEntry, LeapTable};

// The reading of a pass that looks nothing up.
const NO_READING: u64 = 0;

// Whether a list could be a table: 6 where it is empty, then the first entry refused by 3, 7, 4.
pub fn try_from_slice(entries: &[LeapEntry]) -> Result<(), Refusal>
    ensures { taken_in result ≡ checking entries.now }
{
    Pass::over(entries, NO_READING).check()
}

// The offset in force at a TAI reading. A list has no expiry, so it is never stale.
pub fn tai_minus_utc_at(entries: &[LeapEntry], tai: Tai) -> Dated<i32>
    ensures { dated_in result ≡
        (of_valid_list entries.now (answered (offset_at entries.now tai.0)), false) }
{
    Pass::over(entries, tai.0).in_force()
}

// The number of entries.
pub fn len(entries: &[LeapEntry]) -> Result<usize, Refusal>
    ensures { outcome_in result ≡ of_valid_list entries.now (answered (length entries.now)) }
{
    Pass::over(entries, NO_READING).length()
}

pub fn is_empty(entries: &[LeapEntry]) -> Result<bool, Refusal>
    ensures { outcome_in result ≡
        of_valid_list entries.now (answered (eqb (length entries.now) 0)) }
{
    Pass::over(entries, NO_READING).emptiness()
}

// The threshold of the last event: nothing where there is at most the first entry.
pub fn last_update(entries: &[LeapEntry]) -> Result<Option<Tai>, Refusal>
    ensures { update_in result ≡ of_valid_list entries.now (answered (last_update entries.now)) }
{
    Pass::over(entries, NO_READING).update()
}

// The offset of the last entry, or 19.
pub fn current_tai_minus_utc(entries: &[LeapEntry]) -> Result<i32, Refusal>
    ensures { outcome_in result ≡
        of_valid_list entries.now (answered (current_offset entries.now)) }
{
    Pass::over(entries, NO_READING).current()
}

// Joins an entry at the end of a lent table. On a refusal the table stays as it is, with all 64 slots and its expiry.
// Refuses 8, 5, 3, 7, 4, as the extension by value.
pub fn try_extend(table: &mut LeapTable, entry: LeapEntry) -> Result<(), Refusal>
    ensures { (taken_in result, table.new) ≡ extended table.old entry }
{
    let grown = (*table).try_extend(entry);
    *table = grown.table;
    grown.answer
}
