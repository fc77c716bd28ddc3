// What the calls share.
ghost use Rattle.std.specs.Prelude.{◌≡◌, true, cond, [], ◌+◌, ◌-◌, ◌≤◌, ◌<◌, min, leb, eqb, ltb, length, get_or, None, Some};
ghost use Rattle.refusals.specs.Outcome.{answered, changed, outcome_in};
ghost use Rattle.tables.specs.Entries.{offset_refusal, step_refusal, first_refusal, join_refusal, lookup, valid, neighbours, day};
ghost use Rattle.tables.specs.Entries.{a_day_on, regular};
ghost use Rattle.tables.specs.Slots.{paired, entries_of, of_valid, joined_to, table_of};
ghost use Rattle.tables.specs.Expiry.{stale_at, dated};
ghost use Rattle.tables.specs.Search.{Rises, AtOrBelow};
ghost use Rattle.tables.specs.Answers.{taken_in, dated_in};

pub mod slots;

use crate::inner::slots::Slots;
use crate::{Dated, LeapEntry, LeapTable, Lookup, NO_EXPIRY, RUNTIME_CAPACITY};
use refusals::Refusal;

// The largest offset, after which no entry can follow.
const LARGEST_OFFSET: i32 = i32::MAX;

// The offset in force at every reading of a table with no entry, that of the GPS epoch.
pub const OFFSET_OF_NO_ENTRY: i32 = 19;

// 86,400 s
pub const NANOS_PER_DAY: u64 = 86_400_000_000_000;

// Whether an offset can follow another.
pub fn offset_step(before: i32, next: i32) -> Result<(), Refusal>
    ensures { taken_in result ≡ offset_refusal before next }
{
    if before == LARGEST_OFFSET {
        return Err(Refusal::OffsetOverflow);
    }
    let one_more = before + 1;
    if next == one_more {
        Ok(())
    } else {
        Err(Refusal::NonUnitIncrement)
    }
}

// Whether an entry can follow another.
pub fn step(before: LeapEntry, next: LeapEntry) -> Result<(), Refusal>
    ensures { taken_in result ≡ step_refusal before next }
{
    if next.tai_nanos <= before.tai_nanos {
        return Err(Refusal::NotStrictlyAscending);
    }
    let offset = before.tai_minus_utc;
    let given = next.tai_minus_utc;
    offset_step(offset, given)
}

// The first refusal of an entry by the one before it, up to the shorter length. There is none exactly if the entries are
// valid.
pub fn first_refusal(thresholds: &[u64], offsets: &[i32]) -> Result<(), Refusal>
    ensures first { taken_in result ≡ first_refusal (paired thresholds.now offsets.now) }
    ensures tells { eqb (taken_in result) 0 ≡ valid (paired thresholds.now offsets.now) }
{
    let n = thresholds.len().min(offsets.len());
    for i in 1..n {
        let before = LeapEntry::new(thresholds[i - 1], offsets[i - 1]);
        let next = LeapEntry::new(thresholds[i], offsets[i]);
        step(before, next)?;
    }
    Ok(())
}

// Whether an entry can be joined to a list, valid or not, by the last one of it.
pub fn joins(thresholds: &[u64], offsets: &[i32], entry: LeapEntry) -> Result<(), Refusal>
    ensures { taken_in result ≡ join_refusal (paired thresholds.now offsets.now) entry }
{
    let n = thresholds.len().min(offsets.len());
    if n == 0 {
        return Ok(());
    }
    if RUNTIME_CAPACITY <= n {
        return Err(Refusal::BufferFull);
    }
    let last = LeapEntry::new(thresholds[n - 1], offsets[n - 1]);
    step(last, entry)
}

// Whether a threshold lies a day or more after the one before.
pub fn a_day_on(before: u64, next: u64) -> bool
    ensures { result ≡ leb (before + day) next }
{
    before <= next && NANOS_PER_DAY <= next - before
}

// The place of the entry in force where `reached` thresholds are at or below the reading: the last of them, or the
// first of all.
pub fn place_in_force(reached: usize) -> usize
    ensures { result ≡ reached - 1 }
{
    reached.saturating_sub(1)
}

// What a lookup tells where there is no entry.
pub fn told_of_none() -> Lookup
    ensures { result ≡ lookup [] 0 }
{
    Lookup {
        offset: OFFSET_OF_NO_ENTRY,
        place: None,
        next: None,
    }
}

// What a lookup in a table tells, or 8 where it is not valid.
pub fn checked_look_up(table: &LeapTable, tai: u64) -> Result<Lookup, Refusal>
    ensures { outcome_in result ≡ of_valid table.now (answered (lookup (entries_of table.now) tai)) }
{
    Ok(Slots::of(table)?.look_up(tai))
}

// Whether a table with this expiry is stale at a TAI reading.
pub fn is_stale(expiry: u64, tai: u64) -> bool
    ensures { result ≡ stale_at expiry tai }
{
    (expiry != NO_EXPIRY) & (expiry <= tai)
}

// The offset that a lookup at a TAI reading tells, by a table with this expiry. A refusal is never stale.
pub fn dated_offset_in(found: Result<Lookup, Refusal>, expiry: u64, tai: u64) -> Dated<i32>
    ensures { dated_in result ≡ dated (stale_at expiry tai) (changed (λ l. l.offset) (outcome_in found)) }
{
    Dated::new(found.map(|lookup| lookup.offset), is_stale(expiry, tai))
}

// The table with an entry in the slot at its length.
pub fn joined(table: LeapTable, entry: LeapEntry) -> LeapTable
    requires { table.len < 64 }
    ensures { result ≡ joined_to table entry }
{
    let at = table.len;
    let mut grown = table;
    grown.thresholds[at] = entry.tai_nanos;
    let offset = entry.tai_minus_utc;
    grown.offsets[at] = offset;
    grown.len = at + 1;
    grown
}

// The table of thresholds and offsets side by side.
pub fn table_of(thresholds: &[u64], offsets: &[i32]) -> LeapTable
    requires few { length thresholds.now ≤ 64 }
    requires as_many { length thresholds.now ≡ length offsets.now }
    ensures { result ≡ table_of (paired thresholds.now offsets.now) }
{
    let n = thresholds.len();
    let mut kept_thresholds = [0u64; 64];
    let mut kept_offsets = [0i32; 64];
    kept_thresholds[..n].copy_from_slice(thresholds);
    kept_offsets[..n].copy_from_slice(offsets);
    LeapTable {
        thresholds: kept_thresholds,
        offsets: kept_offsets,
        len: n,
        expiry: NO_EXPIRY,
    }
}
