// Leap-second tables, after leap.rs: building, extension, and the offset TAI minus UTC in force at a TAI reading.
// A caller may make a table by hand, so every call refuses an invalid table with 8 before anything else.
#![tactic(auto)]

pub mod inner;
pub mod table;

ghost use Rattle.std.specs.Prelude.{◌≡◌};
ghost use Rattle.refusals.specs.Outcome.{outcome_in};
ghost use Rattle.tables.specs.Answers.{dated_in};
ghost use Rattle.tables.specs.Entries.{entry};
ghost use Rattle.tables.specs.Expiry.{dated};

use counts::units::LARGEST_COUNT;
use refusals::Refusal;
use scales::tai::Tai;

// The most entries that a table holds.
pub const RUNTIME_CAPACITY: usize = 64;

// From the TAI reading `tai_nanos` on, TAI is `tai_minus_utc` seconds ahead of UTC.
#[derive(Clone, Copy, Debug, PartialEq, Eq)]
pub struct LeapEntry {
    pub tai_nanos: u64,
    pub tai_minus_utc: i32,
}

impl LeapEntry {
    pub fn new(tai_nanos: u64, tai_minus_utc: i32) -> Self
        ensures { result ≡ entry tai_nanos tai_minus_utc }
    {
        LeapEntry {
            tai_nanos,
            tai_minus_utc,
        }
    }
}

// The expiry of a table that has none: the largest count.
pub const NO_EXPIRY: u64 = LARGEST_COUNT;

// Thresholds and offsets are two arrays: callers make tables by hand, forged ones too, and `Slots64` of pushing speaks of such.
// Up to 64 entries: those in the first `len` slots. From the TAI reading `expiry` on, the table is stale.
#[derive(Clone, Copy)]
pub struct LeapTable {
    pub thresholds: [u64; 64],
    pub offsets: [i32; 64],
    pub len: usize,
    pub expiry: u64,
}

// Whether what was given was taken, and the table afterwards: on a refusal too there is one, the table as it was or the
// empty one.
#[derive(Clone, Copy)]
pub struct TableAnswer {
    pub answer: Result<(), Refusal>,
    pub table: LeapTable,
}

// What a lookup tells of the entry in force at a TAI reading. In a table with no entry it is 19, and nothing.
#[derive(Clone, Copy)]
pub struct Lookup {
    // TAI minus UTC in seconds
    pub offset: i32,
    // the place of the entry, counted from 0
    pub place: Option<usize>,
    // the threshold of the entry after it
    pub next: Option<u64>,
}

// An answer by a table, and whether the table is stale where it was looked up last.
#[derive(Clone, Copy)]
pub struct Dated<T> {
    pub answer: Result<T, Refusal>,
    pub stale: bool,
}

impl<T> Dated<T> {
    // An answer by a table that is stale or not. A refusal never is.
    pub fn new(answer: Result<T, Refusal>, stale: bool) -> Self
        ensures { dated_in result ≡ dated stale (outcome_in answer) }
    {
        let stale = stale && answer.is_ok();
        Dated { answer, stale }
    }
}
