// One pass over a lent list of entries, which every call on such a list makes, and what each reads off what was seen.
pub mod copied;

ghost use Rattle.std.specs.Prelude.{◌≡◌, false, ◌+◌, ◌<◌, ◌^◌, eqb};
ghost use Rattle.refusals.specs.Outcome.{answered, outcome_in};
ghost use Rattle.tables.specs.Entries.{offset, valid};
ghost use Rattle.tables.specs.Answers.{taken_in, update_in, dated_in};
ghost use Rattle.lent.specs.Pass.{seen_in, begun, nearer, judged, after, passed};
ghost use Rattle.lent.specs.Pass.{check_at, of_taken, update_at};

use refusals::Refusal;
use scales::tai::Tai;
use tables::inner::{OFFSET_OF_NO_ENTRY, step, told_of_none};
use tables::{Dated, LeapEntry, Lookup};

// What is known of the entries so far, at a TAI reading.
#[derive(Clone, Copy)]
pub struct Pass {
    // the reading, in nanoseconds
    pub tai: u64,
    pub count: usize,
    pub last: LeapEntry,
    // what a lookup in them tells
    pub found: Lookup,
    // the first refusal of an entry by the one before it
    pub answer: Result<(), Refusal>,
}

impl Pass {
    // Before the first entry.
    pub fn begin(tai: u64) -> Self
        ensures { seen_in result ≡ begun tai }
    {
        Pass {
            tai,
            count: 0,
            last: LeapEntry::new(0, OFFSET_OF_NO_ENTRY),
            found: told_of_none(),
            answer: Ok(()),
        }
    }

    // The pass over a whole list, the only loop over one. No entry is refused exactly if the list is valid.
    pub fn over(entries: &[LeapEntry], tai: u64) -> Self
        ensures { (seen_in result ≡ passed (begun tai) entries.now) ×
            (eqb (taken_in result.answer) 0 ≡ valid entries.now) }
    {
        let mut pass = Pass::begin(tai);
        for entry in entries {
            pass = pass.fold_in(*entry);
        }
        pass
    }

    // One entry on.
    pub fn fold_in(self, next: LeapEntry) -> Self
        requires { self.count + 1 < 2 ^ 64 }
        ensures { seen_in result ≡ after (seen_in self) next }
    {
        let answer = if self.count == 0 {
            Ok(())
        } else {
            self.judge(next)
        };
        Pass {
            tai: self.tai,
            count: self.count + 1,
            last: next,
            found: pick(self.tai, self.count, self.found, next),
            answer,
        }
    }

    // The first refusal, one entry on.
    fn judge(self, next: LeapEntry) -> Result<(), Refusal>
        ensures { taken_in result ≡ judged (taken_in self.answer) self.last next }
    {
        self.answer?;
        step(self.last, next)
    }

    // A value that is read off the pass, or 8 where an entry was refused.
    fn read<T: Copy>(self, value: T) -> Result<T, Refusal>
        ensures { outcome_in result ≡ of_taken self.answer (answered value) }
    {
        match self.answer {
            Ok(()) => Ok(value),
            Err(_) => Err(Refusal::BadTable),
        }
    }

    // The check: 6 where there is no entry, else the first refusal.
    pub fn check(self) -> Result<(), Refusal>
        ensures { taken_in result ≡ check_at self.count (taken_in self.answer) }
    {
        if self.count == 0 {
            Err(Refusal::EmptyTable)
        } else {
            self.answer
        }
    }

    pub fn length(self) -> Result<usize, Refusal>
        ensures { outcome_in result ≡ of_taken self.answer (answered self.count) }
    {
        self.read(self.count)
    }

    pub fn emptiness(self) -> Result<bool, Refusal>
        ensures { outcome_in result ≡ of_taken self.answer (answered (eqb self.count 0)) }
    {
        self.read(self.count == 0)
    }

    // The threshold of the last event: nothing where there is at most the first entry.
    pub fn update(self) -> Result<Option<Tai>, Refusal>
        ensures { update_in result ≡ of_taken self.answer (answered (update_at self.count self.last)) }
    {
        let event = if self.count <= 1 {
            None
        } else {
            Some(Tai(self.last.tai_nanos))
        };
        self.read(event)
    }

    // The offset of the last entry, or 19.
    pub fn current(self) -> Result<i32, Refusal>
        ensures { outcome_in result ≡ of_taken self.answer (answered (offset self.last)) }
    {
        self.read(self.last.tai_minus_utc)
    }

    // What is in force at the reading.
    pub fn look_up(self) -> Result<Lookup, Refusal>
        ensures { outcome_in result ≡ of_taken self.answer (answered self.found) }
    {
        self.read(self.found)
    }

    // The offset in force at the reading. A lent list has no expiry, so it is never stale.
    pub fn in_force(self) -> Dated<i32>
        ensures { dated_in result ≡ (of_taken self.answer (answered self.found.offset), false) }
    {
        Dated::new(self.look_up().map(|lookup| lookup.offset), false)
    }
}

// What a lookup tells, one entry on: of the first entry, and then of each that is at or below the reading. Of those
// above it, the first is the next.
fn pick(tai: u64, place: usize, found: Lookup, next: LeapEntry) -> Lookup
    ensures { result ≡ nearer tai place found next }
{
    if place == 0 || next.tai_nanos <= tai {
        Lookup {
            offset: next.tai_minus_utc,
            place: Some(place),
            next: None,
        }
    } else {
        Lookup {
            next: found.next.or(Some(next.tai_nanos)),
            ..found
        }
    }
}
