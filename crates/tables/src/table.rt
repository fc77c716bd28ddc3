// The calls on a table. Each refuses an invalid table with 8 before anything else.
ghost use Rattle.std.specs.Prelude.{◌≡◌, [], eqb, length};
ghost use Rattle.std.proofs.Math.ListN.{get_elem?};
ghost use Rattle.refusals.specs.Number.{number_of};
ghost use Rattle.refusals.specs.Outcome.{answered, outcome_in};
ghost use Rattle.tables.specs.Entries.{offset_at, current_offset, last_update};
ghost use Rattle.tables.specs.Slots.{paired, entries_of, of_valid, table_of, extension_refusal, extended, built};
ghost use Rattle.tables.specs.Expiry.{by_table, expiry_in, expiring};
ghost use Rattle.tables.specs.Answers.{taken_in, table_answer_in, entry_in, update_in, dated_in};

use crate::inner::slots::Slots;
use crate::{Dated, LeapEntry, LeapTable, NO_EXPIRY, RUNTIME_CAPACITY, TableAnswer, inner};
use refusals::Refusal;
use scales::tai::Tai;

impl LeapTable {
    // The table with no entry.
    pub fn new() -> Self
        ensures { result ≡ table_of [] }
    {
        LeapTable {
            thresholds: [0u64; 64],
            offsets: [0i32; 64],
            len: 0,
            expiry: NO_EXPIRY,
        }
    }

    // The table of thresholds and offsets side by side, up to the shorter length.
    pub fn from_lists<'a>(thresholds: &'a [u64], offsets: &'a [i32]) -> TableAnswer
        ensures { table_answer_in result ≡ built (paired thresholds.now offsets.now) }
    {
        let n = thresholds.len().min(offsets.len());
        if n == 0 {
            return unbuilt(Refusal::EmptyTable);
        }
        if RUNTIME_CAPACITY < n {
            return unbuilt(Refusal::BufferFull);
        }
        let (thresholds, offsets) = (&thresholds[..n], &offsets[..n]);
        match inner::first_refusal(thresholds, offsets) {
            Ok(()) => done(inner::table_of(thresholds, offsets)),
            Err(why) => unbuilt(why),
        }
    }

    // The table with an entry joined at its end; on a refusal the table unchanged.
    pub fn try_extend(self, entry: LeapEntry) -> TableAnswer
        ensures { table_answer_in result ≡ extended self entry }
    {
        match extends(&self, entry) {
            Ok(()) => TableAnswer {
                answer: Ok(()),
                table: inner::joined(self, entry),
            },
            Err(why) => refused(why, self),
        }
    }

    // The number of entries.
    pub fn len(self) -> Result<usize, Refusal>
        ensures { outcome_in result ≡ of_valid self (answered (length (entries_of self))) }
    {
        Ok(Slots::of(&self)?.len())
    }

    pub fn is_empty(self) -> Result<bool, Refusal>
        ensures { outcome_in result ≡ of_valid self (answered (eqb (length (entries_of self)) 0)) }
    {
        Ok(self.len()? == 0)
    }

    // The entry at a place, counted from 0.
    pub fn entry_at(self, place: usize) -> Result<Option<LeapEntry>, Refusal>
        ensures { entry_in result ≡ of_valid self (answered (get_elem? (entries_of self) place)) }
    {
        Ok(Slots::of(&self)?.get(place))
    }

    // The threshold of the last event: nothing where there is at most the first entry.
    pub fn last_update(self) -> Result<Option<Tai>, Refusal>
        ensures { update_in result ≡ of_valid self (answered (last_update (entries_of self))) }
    {
        let slots = Slots::of(&self)?;
        if slots.len() <= 1 {
            return Ok(None);
        }
        Ok(slots.last().map(|last| Tai(last.tai_nanos)))
    }

    // The offset of the last entry, or 19.
    pub fn current_tai_minus_utc(self) -> Result<i32, Refusal>
        ensures { outcome_in result ≡ of_valid self (answered (current_offset (entries_of self))) }
    {
        let last = Slots::of(&self)?.last();
        Ok(last.map_or(inner::OFFSET_OF_NO_ENTRY, |last| last.tai_minus_utc))
    }

    // The offset in force at a TAI reading, and whether the table is stale there.
    pub fn tai_minus_utc_at(self, tai: Tai) -> Dated<i32>
        ensures { dated_in result ≡ by_table self tai.0 (answered (offset_at (entries_of self) tai.0)) }
    {
        let found = inner::checked_look_up(&self, tai.0);
        inner::dated_offset_in(found, self.expiry, tai.0)
    }

    // The TAI reading from which on the table is stale, or nothing.
    pub fn expiry(self) -> Result<Option<Tai>, Refusal>
        ensures { update_in result ≡ of_valid self (answered (expiry_in self)) }
    {
        Slots::of(&self)?;
        if self.expiry == NO_EXPIRY {
            Ok(None)
        } else {
            Ok(Some(Tai(self.expiry)))
        }
    }

    // The table with this expiry in place of its own; the largest count takes it away.
    pub fn with_expiry(self, expiry: Tai) -> TableAnswer
        ensures { table_answer_in result ≡ expiring self expiry.0 }
    {
        match Slots::of(&self) {
            Ok(_) => done(LeapTable {
                expiry: expiry.0,
                ..self
            }),
            Err(why) => refused(why, self),
        }
    }
}

// Whether a table can be extended by an entry.
fn extends(table: &LeapTable, entry: LeapEntry) -> Result<(), Refusal>
    ensures { taken_in result ≡ extension_refusal table.now entry }
{
    Slots::of(table)?.joins(entry)
}

fn done(table: LeapTable) -> TableAnswer
    ensures { table_answer_in result ≡ (0, table) }
{
    TableAnswer {
        answer: Ok(()),
        table,
    }
}

// A refusal, with the table unchanged.
fn refused(why: Refusal, table: LeapTable) -> TableAnswer
    ensures { table_answer_in result ≡ (number_of why, table) }
{
    TableAnswer {
        answer: Err(why),
        table,
    }
}

// A refused building: the table with no entry.
fn unbuilt(why: Refusal) -> TableAnswer
    ensures { table_answer_in result ≡ (number_of why, table_of []) }
{
    refused(why, LeapTable::new())
}
