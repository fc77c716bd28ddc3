// A list of entries in bytes, read where it stands.
ghost use Rattle.std.specs.Prelude.{◌≡◌, true, false, ◌*◌, ◌/◌, ◌<◌, eqb, length, drop, MatchResult};
ghost use Rattle.std.specs.Int.{w32};
ghost use Rattle.std.proofs.Common.{SFits};
ghost use Rattle.refusals.specs.Number.{number_of};
ghost use Rattle.tables.specs.Entries.{valid};
ghost use Rattle.tables.specs.Answers.{taken_in};
ghost use Rattle.lent.specs.Pass.{seen_in, begun, passed};
ghost use Rattle.images.specs.Listed.{whole, first_in, entries_in};

use crate::inner::{ENTRY_BYTES, THRESHOLD_BYTES};
use lent::inner::Pass;
use refusals::Refusal;
use tables::LeapEntry;
use words::inner::{number_in_4, number_in_8, signed};

// Bytes that are a whole number of entries.
#[derive(Clone, Copy)]
pub struct ListedEntries<'a> {
    pub bytes: &'a [u8],
    ghost whole: { whole bytes.now ≡ true },
}

impl<'a> ListedEntries<'a> {
    // Other bytes are refused with 8.
    pub fn of(bytes: &'a [u8]) -> Result<Self, Refusal>
        ensures { MatchResult result (λ list. list.bytes.now ≡ bytes.entry.now)
            (λ why. (number_of why ≡ 8) × (whole bytes.entry.now ≡ false)) }
    {
        if bytes.len() % ENTRY_BYTES == 0 {
            Ok(ListedEntries { bytes })
        } else {
            Err(Refusal::BadTable)
        }
    }

    // The number of entries.
    pub fn len(self) -> usize
        ensures { result ≡ length self.entry.bytes.now / 12 }
    {
        self.bytes.len() / ENTRY_BYTES
    }

    // The entry at place i.
    pub fn entry(self, i: usize) -> LeapEntry
        requires { i < length self.bytes.now / 12 }
        ensures is { result ≡ first_in (drop (12 * i) self.entry.bytes.now) }
        ensures fits { SFits w32 result.tai_minus_utc }
    {
        entry_at(self.bytes, i)
    }

    // The pass over the list. No entry is refused exactly if the list is valid.
    pub fn pass(self, tai: u64) -> Pass
        ensures { (seen_in result ≡ passed (begun tai) (entries_in self.entry.bytes.now)) ×
            (eqb (taken_in result.answer) 0 ≡ valid (entries_in self.entry.bytes.now)) }
    {
        pass_over(self.bytes, tai)
    }
}

// The entry at place i in any bytes.
fn entry_at(entries: &[u8], i: usize) -> LeapEntry
    requires { i < length entries.now / 12 }
    ensures is { result ≡ first_in (drop (12 * i) entries.now) }
    ensures fits { SFits w32 result.tai_minus_utc }
{
    let at = ENTRY_BYTES * i;
    let offset_bits = number_in_4(entries, at + THRESHOLD_BYTES) as u32;
    LeapEntry::new(number_in_8(entries, at), signed(offset_bits))
}

// The pass over the entries in any bytes: an incomplete last entry is left out. No entry is refused exactly if the list of
// the others is valid.
pub fn pass_over(entries: &[u8], tai: u64) -> Pass
    ensures { (seen_in result ≡ passed (begun tai) (entries_in entries.now)) ×
        (eqb (taken_in result.answer) 0 ≡ valid (entries_in entries.now)) }
{
    let n = entries.len() / ENTRY_BYTES;
    let mut pass = Pass::begin(tai);
    for i in 0..n {
        pass = pass.fold_in(entry_at(entries, i));
    }
    pass
}
