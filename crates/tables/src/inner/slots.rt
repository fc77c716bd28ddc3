// The entries of a valid table, where they lie: thresholds and offsets side by side.
ghost use Rattle.std.specs.Prelude.{◌≡◌, true, ◌-◌, length, Ok};
ghost use Rattle.std.proofs.Math.ListN.{get_elem?};
ghost use Rattle.refusals.specs.Outcome.{answered, outcome_in};
ghost use Rattle.tables.specs.Entries.{join_refusal, lookup, regular};
ghost use Rattle.tables.specs.Slots.{entries_of, valid_table, of_valid};
ghost use Rattle.tables.specs.Answers.{taken_in, entry_in};

use crate::inner::{OFFSET_OF_NO_ENTRY, a_day_on, first_refusal, joins, told_of_none};
use crate::{LeapEntry, LeapTable, Lookup, RUNTIME_CAPACITY};
use refusals::Refusal;
use std::marker::Model;

// A clause sees the list of the entries. It is valid, and no longer than a table.
#[derive(Drop)]
pub struct Slots<'a> {
    thresholds: &'a [u64],
    offsets: &'a [i32],
}

impl<'a> Model for Slots<'a> {
    ghost use Rattle.std.specs.Prelude.{List};
    ghost use Rattle.tables.specs.declared.LeapEntry.{LeapEntry};

    ghost Value = { List LeapEntry };

    ghost use Rattle.std.specs.Prelude.{◌≡◌, ◌≤◌, true, length};
    ghost use Rattle.tables.specs.Entries.{valid};
    ghost use Rattle.tables.specs.Slots.{paired};

    ghost view = { λ s. paired s.thresholds.now s.offsets.now };

    ghost invariant = { λ s.
        (length s.thresholds.now ≡ length s.offsets.now)
        × (length s.thresholds.now ≤ 64)
        × (valid (paired s.thresholds.now s.offsets.now) ≡ true) };
}

// Whether a table is valid.
pub fn is_valid(table: &LeapTable) -> bool
    ensures { result ≡ valid_table table.now }
{
    let n = table.len;
    n <= RUNTIME_CAPACITY && first_refusal(&table.thresholds[..n], &table.offsets[..n]).is_ok()
}

impl<'a> Slots<'a> {
    // The slots of a table, or 8 where it is not valid.
    pub fn of(table: &'a LeapTable) -> Result<Self, Refusal>
        ensures { outcome_in result ≡ of_valid table.now (answered (entries_of table.now)) }
    {
        if is_valid(table) {
            Ok(Slots::of_valid(table))
        } else {
            Err(Refusal::BadTable)
        }
    }

    // The slots of a valid table.
    pub fn of_valid(table: &'a LeapTable) -> Self
        requires { valid_table table.now ≡ true }
        ensures { result ≡ entries_of table.now }
    {
        let n = table.len;
        Slots {
            thresholds: &table.thresholds[..n],
            offsets: &table.offsets[..n],
        }
    }

    pub fn len(&self) -> usize
        ensures { result ≡ length self.now }
    {
        self.thresholds.len()
    }

    // The entry at a place, counted from 0.
    pub fn get(&self, place: usize) -> Option<LeapEntry>
        ensures { entry_in (Ok result) ≡ answered (get_elem? self.now place) }
    {
        let threshold = self.thresholds.get(place)?;
        Some(LeapEntry::new(*threshold, self.offsets[place]))
    }

    // The last entry.
    pub fn last(&self) -> Option<LeapEntry>
        ensures { entry_in (Ok result) ≡ answered (get_elem? self.now (length self.now - 1)) }
    {
        self.get(self.len().saturating_sub(1))
    }

    // Whether the table is regular.
    pub fn is_regular(&self) -> bool
        ensures { result ≡ regular self.now }
    {
        let Some(first) = self.get(0) else {
            return false;
        };
        first == LeapEntry::new(0, OFFSET_OF_NO_ENTRY)
            && self
                .thresholds
                .is_sorted_by(|before, next| a_day_on(*before, *next))
    }

    // What a lookup tells.
    pub fn look_up(&self, tai: u64) -> Lookup
        ensures { result ≡ lookup self.now tai }
    {
        if self.thresholds.is_empty() {
            return told_of_none();
        }
        let reached = self
            .thresholds
            .partition_point(|threshold| *threshold <= tai);
        let place = reached.saturating_sub(1);
        Lookup {
            offset: self.offsets[place],
            place: Some(place),
            next: self.thresholds.get(place + 1).copied(),
        }
    }

    // Whether an entry can be joined to the list.
    pub fn joins(&self, entry: LeapEntry) -> Result<(), Refusal>
        ensures { taken_in result ≡ join_refusal self.now entry }
    {
        joins(self.thresholds, self.offsets, entry)
    }
}
