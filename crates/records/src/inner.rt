// One pass over the records of a file: the reader begins, hands over each record, and finishes.
ghost use Rattle.std.specs.Prelude.{◌≡◌, cond, List, [], ◌∷◌, ◌++◌, ◌+◌, ◌≤◌, ◌<◌, ◌^◌, nat_abs};
ghost use Rattle.refusals.specs.Number.{number_of};
ghost use Rattle.tables.specs.Answers.{taken_in, table_answer_in};
ghost use Rattle.records.specs.Records.{Record, event, or_else, follow_refusal, is_above};
ghost use Rattle.records.specs.Records.{nanos_of, no_count, expiry_of, table_from};
ghost use Rattle.records.specs.Judged.{judged_in, begun, dropped, keeping, judged};
ghost use Rattle.records.specs.Judged.{verdict_of, Holds};

use counts::units::{LARGEST_COUNT, NANOS_PER_SECOND};
use refusals::Refusal;
use tables::inner::{OFFSET_OF_NO_ENTRY, offset_step};
use tables::{LeapTable, NO_EXPIRY, RUNTIME_CAPACITY, TableAnswer};

// From a TAI second on, TAI is `offset` seconds ahead of UTC. A file's second, a number of 64 bits from another epoch,
// needs a sign and 64 bits.
#[derive(Clone, Copy)]
pub struct LeapRecord {
    pub threshold: i128,
    pub offset: i32,
}

impl LeapRecord {
    // The UTC second of the event.
    fn event(self) -> i128
        requires { nat_abs (event self) < 2 ^ 64 }
        ensures { result ≡ event self }
    {
        self.threshold - i128::from(self.offset)
    }

    // Whether a record can follow, by a second and the offset of each.
    fn followed_by(self, next: LeapRecord) -> Result<(), Refusal>
        ensures { taken_in result ≡
            follow_refusal self.threshold self.offset next.threshold next.offset }
    {
        if next.threshold <= self.threshold {
            return Err(Refusal::NotStrictlyAscending);
        }
        offset_step(self.offset, next.offset)
    }
}

// What has been seen of the records so far.
#[derive(Clone, Copy)]
pub struct Progress {
    // a record came
    pub some: bool,
    // how many are kept
    pub count: usize,
    // a kept threshold is above the counts
    pub above: bool,
    // the first refusal by order
    pub why: Result<(), Refusal>,
    // what the next record has to follow
    pub last: LeapRecord,
    // the last kept threshold
    pub nanos: u64,
}

// The last second whose nanoseconds are a count.
const LAST_SECOND: i128 = (LARGEST_COUNT / NANOS_PER_SECOND) as i128;

// Whether the nanoseconds of a second are above the counts.
fn is_above(second: i128) -> bool
    ensures { result ≡ is_above second }
{
    LAST_SECOND < second
}

// A second in nanoseconds; 0 where it is below 0 or above the counts.
fn nanos_of(second: i128) -> u64
    ensures { result ≡ cond (is_above second) 0 (nanos_of second) }
{
    if second < 0 || is_above(second) {
        0
    } else {
        second as u64 * NANOS_PER_SECOND
    }
}

// Whether an expiry is below 0 or above the counts.
fn is_no_count(expiry: Option<i128>) -> bool
    ensures { result ≡ no_count expiry }
{
    expiry.is_some_and(|second| second < 0 || is_above(second))
}

// The expiry of a table; 0 where it is no count.
fn expiry_nanos(expiry: Option<i128>) -> u64
    ensures { result ≡ cond (no_count expiry) 0 (expiry_of expiry) }
{
    expiry.map_or(NO_EXPIRY, nanos_of)
}

impl Progress {
    // Nothing seen yet.
    fn begin() -> Self
        ensures { judged_in result ≡ begun }
    {
        Progress {
            some: false,
            count: 0,
            above: false,
            why: Ok(()),
            last: LeapRecord {
                threshold: 0,
                offset: 0,
            },
            nanos: 0,
        }
    }

    // The first refusal by order: one that was there, or that of a record by the one before it.
    fn judge(self, next: LeapRecord) -> Result<(), Refusal>
        ensures { taken_in result ≡
            or_else (taken_in self.why)
            (follow_refusal self.last.threshold self.last.offset next.threshold next.offset) }
    {
        self.why?;
        self.last.followed_by(next)
    }

    // The same for a record up to the first with offset 19, by its event: the first record of all follows none.
    fn judge_event(self, event: LeapRecord) -> Result<(), Refusal>
        ensures { taken_in result ≡
            or_else (taken_in self.why)
            (cond self.some (follow_refusal self.last.threshold self.last.offset event.threshold event.offset) 0) }
    {
        if self.some {
            self.judge(event)
        } else {
            self.why
        }
    }

    // A record up to the first with offset 19, which is kept from TAI second 0 on.
    fn drop_one(self, given: LeapRecord) -> Self
        requires { nat_abs (event given) < 2 ^ 64 }
        ensures { judged_in result ≡ dropped (judged_in self) given }
    {
        let event = LeapRecord {
            threshold: given.event(),
            offset: given.offset,
        };
        let is_first = given.offset == OFFSET_OF_NO_ENTRY;
        Progress {
            some: true,
            count: usize::from(is_first),
            above: self.above,
            why: self.judge_event(event),
            last: LeapRecord {
                threshold: if is_first { 0 } else { event.threshold },
                offset: given.offset,
            },
            nanos: 0,
        }
    }

    // A record after the first with offset 19.
    fn keep_one(self, given: LeapRecord) -> Self
        requires { self.count < 2 ^ 32 }
        ensures { judged_in result ≡ keeping (judged_in self) given }
    {
        Progress {
            some: true,
            count: self.count + 1,
            above: self.above || is_above(given.threshold),
            why: self.judge(given),
            last: given,
            nanos: nanos_of(given.threshold),
        }
    }

    // What has been seen, with one more record.
    fn next(self, given: LeapRecord) -> Self
        requires given_bound { nat_abs (event given) < 2 ^ 64 }
        requires count_bound { self.count < 2 ^ 32 }
        ensures { judged_in result ≡ judged (judged_in self) given }
    {
        if self.count == 0 {
            self.drop_one(given)
        } else {
            self.keep_one(given)
        }
    }

    // Why the records seen make no table with this expiry; `none` where none has offset 19.
    fn verdict(self, none: Refusal, expiry: Option<i128>) -> Result<(), Refusal>
        ensures { taken_in result ≡ verdict_of (number_of none) expiry (judged_in self) }
    {
        if !self.some {
            return Err(Refusal::EmptyTable);
        }
        if self.count == 0 {
            return Err(none);
        }
        if self.above || is_no_count(expiry) {
            return Err(Refusal::Overflow);
        }
        if RUNTIME_CAPACITY < self.count {
            return Err(Refusal::BufferFull);
        }
        self.why
    }
}

// The entries of the records kept so far, as far as there is room, and what has been seen.
#[derive(Clone, Copy)]
pub struct Gathered {
    pub thresholds: [u64; 64],
    pub offsets: [i32; 64],
    pub seen: Progress,
}

impl Gathered {
    // Before the first record.
    pub fn begin() -> Self
        ensures counts { result.seen.count ≡ 0 }
        ensures holds { Holds [] result }
    {
        Gathered {
            thresholds: [0; 64],
            offsets: [0; 64],
            seen: Progress::begin(),
        }
    }

    // One more record: judged, and where it is kept and there is room, stored.
    pub fn take(&mut self, given: LeapRecord)
        requires given_bound { nat_abs (event given) < 2 ^ 64 }
        requires count_bound { self.old.seen.count < 2 ^ 32 }
        ensures counts { self.new.seen.count ≤ self.old.seen.count + 1 }
        ensures holds { (rs : List Record) → Holds rs self.old → Holds (rs ++ (given ∷ [])) self.new }
    {
        let seen = self.seen.next(given);
        self.seen = seen;
        let count = seen.count;
        if count == 0 {
            return;
        }
        if RUNTIME_CAPACITY < count {
            return;
        }
        let slot = count - 1;
        self.thresholds[slot] = seen.nanos;
        self.offsets[slot] = seen.last.offset;
    }

    // The table of the records, with this expiry, or why there is none; `none` where none has offset 19.
    pub fn finish(self, none: Refusal, expiry: Option<i128>) -> TableAnswer
        ensures { (rs : List Record) → Holds rs self
            → table_answer_in result ≡ table_from (number_of none) expiry rs }
    {
        let Gathered {
            thresholds,
            offsets,
            seen,
        } = self;
        match seen.verdict(none, expiry) {
            Ok(()) => TableAnswer {
                answer: Ok(()),
                table: LeapTable {
                    thresholds,
                    offsets,
                    len: seen.count,
                    expiry: expiry_nanos(expiry),
                },
            },
            Err(why) => TableAnswer {
                answer: Err(why),
                table: LeapTable::new(),
            },
        }
    }
}
