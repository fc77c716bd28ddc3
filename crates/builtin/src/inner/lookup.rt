// The offset in force by the built-in table, and the conversions by it, on plain counts. The offset is 19 and one more
// for each event at or before the reading. The reading's bucket tells how many events are before the bucket, and one
// comparison whether the event in it, if there is one, is reached: two tables are read, and nothing branches.
ghost use Rattle.std.specs.Prelude.{◌≡◌, cond, ◌≤◌, leb};
ghost use Rattle.refusals.specs.Outcome.{then, outcome_in};
ghost use Rattle.tables.specs.Entries.{lookup};
ghost use Rattle.conversions.specs.Conversions.{gps_to_utc};
ghost use Rattle.builtin.specs.Builtin.{builtin};
ghost use Rattle.builtin.specs.Reached.{InBucket, events_before, event_at, event_after, told_at};

use conversions::inner;
use refusals::Refusal;
use tables::Lookup;

// The threshold of each event: (its Unix second − 315,964,800 + the offset that begins) × 10⁹.
pub const JULY_1981: u64 = 46_828_820_000_000_000;

pub const JULY_1982: u64 = 78_364_821_000_000_000;

pub const JULY_1983: u64 = 109_900_822_000_000_000;

pub const JULY_1985: u64 = 173_059_223_000_000_000;

pub const JANUARY_1988: u64 = 252_028_824_000_000_000;

pub const JANUARY_1990: u64 = 315_187_225_000_000_000;

pub const JANUARY_1991: u64 = 346_723_226_000_000_000;

pub const JULY_1992: u64 = 393_984_027_000_000_000;

pub const JULY_1993: u64 = 425_520_028_000_000_000;

pub const JULY_1994: u64 = 457_056_029_000_000_000;

pub const JANUARY_1996: u64 = 504_489_630_000_000_000;

pub const JULY_1997: u64 = 551_750_431_000_000_000;

pub const JANUARY_1999: u64 = 599_184_032_000_000_000;

pub const JANUARY_2006: u64 = 820_108_833_000_000_000;

pub const JANUARY_2009: u64 = 914_803_234_000_000_000;

pub const JULY_2012: u64 = 1_025_136_035_000_000_000;

pub const JULY_2015: u64 = 1_119_744_036_000_000_000;

pub const JANUARY_2017: u64 = 1_167_264_037_000_000_000;

// How many events there are.
const EVENTS: u64 = 18;

// Counts are cut into 32 buckets of 2⁵⁵ ns, 417 days. Bucket 0 has every count before its start too, and bucket 31, which
// holds the last event, every later count. For readings bucket 0 starts at 2⁵⁵ ns, and no bucket then holds two events.
pub const BUCKET: u64 = 36_028_797_018_963_968;

const LAST_BUCKET: u64 = 31;

// The bucket of a count, where bucket 0 starts at `start`. With `min` for the last bucket the compiler makes a jump: GPS to
// UTC takes 6.3 ns in place of 3.6 on shuffled counts.
pub fn bucket_of(count: u64, start: u64) -> u64
    ensures { InBucket start count result }
{
    let bucket = count.saturating_sub(start) / BUCKET;
    if bucket < LAST_BUCKET {
        bucket
    } else {
        LAST_BUCKET
    }
}

// How many events are before a bucket of readings. There is an arm for each of the 32 buckets, so that the compiler makes a
// table of them, with no jump and no test of the number, and knows how large an answer is: by two arrays in place of this and
// of `event_threshold` GPS to UTC takes 5.4 ns in place of 3.6.
pub fn events_before(bucket: u64) -> u64
    requires { bucket ≤ 31 }
    ensures { result ≡ events_before bucket }
{
    match bucket {
        0 => 0,
        1 => 1,
        2 => 2,
        3 => 3,
        4 => 4,
        5 => 4,
        6 => 5,
        7 => 5,
        8 => 6,
        9 => 7,
        10 => 8,
        11 => 9,
        12 => 10,
        13 => 10,
        14 => 11,
        15 => 12,
        16 => 13,
        17 => 13,
        18 => 13,
        19 => 13,
        20 => 13,
        21 => 13,
        22 => 14,
        23 => 14,
        24 => 14,
        25 => 15,
        26 => 15,
        27 => 15,
        28 => 16,
        29 => 16,
        30 => 16,
        31 => 17,
        _ => 17,
    }
}

// 1 where a count has reached a threshold, and 0 where it has not.
pub fn reached(threshold: u64, count: u64) -> u64
    ensures is { result ≡ cond (leb threshold count) 1 0 }
    ensures few { result ≤ 1 }
{
    u64::from(threshold <= count)
}

// The threshold of an event, counted from 0, and 0 past the last. The arms are plain numbers, and there is one for each
// number of events that `event_at` gives, so that the compiler makes a table of them and no jump, which would be predicted
// wrong.
pub fn event_threshold(event: u64) -> u64
    ensures { result ≡ event_at event }
{
    match event {
        0 => JULY_1981,
        1 => JULY_1982,
        2 => JULY_1983,
        3 => JULY_1985,
        4 => JANUARY_1988,
        5 => JANUARY_1990,
        6 => JANUARY_1991,
        7 => JULY_1992,
        8 => JULY_1993,
        9 => JULY_1994,
        10 => JANUARY_1996,
        11 => JULY_1997,
        12 => JANUARY_1999,
        13 => JANUARY_2006,
        14 => JANUARY_2009,
        15 => JULY_2012,
        16 => JULY_2015,
        17 => JANUARY_2017,
        18 => 0,
        _ => 0,
    }
}

// The threshold after as many events.
fn threshold_after(events: u64) -> Option<u64>
    ensures { result ≡ event_after events }
{
    (events < EVENTS).then_some(event_threshold(events))
}

// The last event at or before a reading, the first being 1; 0 before it.
pub fn event_at(tai: u64) -> u64
    ensures is { told_at result ≡ lookup builtin tai }
    ensures few { result ≤ 18 }
{
    let before = events_before(bucket_of(tai, BUCKET));
    before + reached(event_threshold(before), tai)
}

// What the entry tells that is in force from an event on; 0 stands for the entry at reading 0. A lookup is
// `entry_told(event_at(tai))`, written out where it is made: the compiler would leave a function for it out of line, and
// find the next threshold where the offset alone is asked for.
pub fn entry_told(event: u64) -> Lookup
    requires { event ≤ 18 }
    ensures { result ≡ told_at event }
{
    Lookup {
        offset: (19 + event) as i32,
        place: Some(event as usize),
        next: threshold_after(event),
    }
}

// A refused step is told apart before the lookup. After it, the compiler would test for one in each arm of `events_before`,
// and make jumps of the table.
pub fn utc_from_gps(gps: Result<u64, Refusal>) -> Result<u64, Refusal>
    ensures { outcome_in result ≡ then (outcome_in gps) (gps_to_utc builtin) }
{
    let reading = inner::tai_of(gps)?;
    let told = entry_told(event_at(reading));
    inner::utc_from_lookup(Ok(told), Ok(reading))
}
