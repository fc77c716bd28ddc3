// A list of entries as bytes, lent by a host: 12 bytes for each entry, low byte first, 8 of the threshold and 4 of the
// offset, and any number of entries. It is checked and looked up where it stands. Bytes that are no whole number of
// entries are no list, and every call refuses them by 8.
ghost use Rattle.std.specs.Prelude.{◌≡◌, false, eqb, length};
ghost use Rattle.refusals.specs.Outcome.{answered, outcome_in};
ghost use Rattle.tables.specs.Entries.{offset_at, current_offset, last_update};
ghost use Rattle.tables.specs.Answers.{taken_in, update_in, dated_in};
ghost use Rattle.images.specs.Listed.{list_checked, of_listed};

use crate::inner::entries::ListedEntries;
use refusals::Refusal;
use scales::tai::Tai;
use tables::Dated;

// The reading of a pass that looks nothing up.
const NO_READING: u64 = 0;

// Whether a list could be a table: 8, 6 where it is empty, then the first entry refused by 3, 7, 4.
pub fn try_from_slice(entries: &[u8]) -> Result<(), Refusal>
    ensures { taken_in result ≡ list_checked entries.now }
{
    ListedEntries::of(entries)?.pass(NO_READING).check()
}

// The offset in force at a TAI reading. A list has no expiry, so it is never stale.
pub fn tai_minus_utc_at(entries: &[u8], tai: Tai) -> Dated<i32>
    ensures { dated_in result ≡
        (of_listed entries.now (λ es. answered (offset_at es tai.0)), false) }
{
    match ListedEntries::of(entries) {
        Ok(list) => list.pass(tai.0).in_force(),
        Err(why) => Dated::new(Err(why), false),
    }
}

// The number of entries.
pub fn len(entries: &[u8]) -> Result<usize, Refusal>
    ensures { outcome_in result ≡ of_listed entries.now (λ es. answered (length es)) }
{
    ListedEntries::of(entries)?.pass(NO_READING).length()
}

pub fn is_empty(entries: &[u8]) -> Result<bool, Refusal>
    ensures { outcome_in result ≡ of_listed entries.now (λ es. answered (eqb (length es) 0)) }
{
    ListedEntries::of(entries)?.pass(NO_READING).emptiness()
}

// The threshold of the last event: nothing where there is at most the first entry.
pub fn last_update(entries: &[u8]) -> Result<Option<Tai>, Refusal>
    ensures { update_in result ≡ of_listed entries.now (λ es. answered (last_update es)) }
{
    ListedEntries::of(entries)?.pass(NO_READING).update()
}

// The offset of the last entry, or 19.
pub fn current_tai_minus_utc(entries: &[u8]) -> Result<i32, Refusal>
    ensures { outcome_in result ≡ of_listed entries.now (λ es. answered (current_offset es)) }
{
    ListedEntries::of(entries)?.pass(NO_READING).current()
}
