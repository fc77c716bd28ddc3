// The refusals of the clock core, each with its number.
#![tactic(auto)]

ghost use Rattle.std.specs.Prelude.{◌≡◌};
ghost use Rattle.refusals.specs.Number.{number_of};

// Why a call gives no answer. Hosts and programs are given its number.
#[derive(Clone, Copy, Debug, PartialEq, Eq, Hash)]
pub enum Refusal {
    // the exact result, or a count on the way to it, does not fit its type
    Overflow = 1,
    // seconds of a day or week that make a whole one or more
    InvalidSeconds = 2,
    // a threshold that is not above the one before
    NotStrictlyAscending = 3,
    // an offset that is not one more than the one before
    NonUnitIncrement = 4,
    // 64 entries already, or a list of more than 64
    BufferFull = 5,
    // a list of no entries to build from or to check
    EmptyTable = 6,
    // the offset before is the largest
    OffsetOverflow = 7,
    // a table that is not valid
    BadTable = 8,
    // the offset used last is too low
    OffsetRange = 9,
    // a program's line that breaks its form
    BadLine = 10,
    // nanoseconds that make a second or more
    InvalidNanos = 11,
    // a leap-seconds.list that is too long, has a malformed line, or has entries but none with offset 19
    BadList = 12,
    // a table to read civil times by that is not regular, or an entry after its first that does not begin a day
    NotOnDays = 13,
    // fields with second 60 that are the civil reading of no GPS count
    NoInsertedSecond = 14,
    // a month that is not 1 to 12
    NoSuchMonth = 15,
    // a day that its month does not have
    NoSuchDay = 16,
    // an hour above 23
    NoSuchHour = 17,
    // a minute above 59
    NoSuchMinute = 18,
    // a second above 60
    NoSuchSecond = 19,
}

impl Refusal {
    // The number that hosts and programs are given.
    pub fn number(self) -> u32
        ensures { result ≡ number_of self }
    {
        self as u32
    }
}
