// A call's inputs, and what comes back.
use civil::CivilDateTime;
use refusals::Refusal;

// A number of the list: its size, and whether a minus sign stands before it.
#[derive(Clone, Copy)]
pub struct Number {
    pub size: u64,
    pub minus: bool,
}

impl Number {
    pub const ZERO: Number = Number {
        size: 0,
        minus: false,
    };

    fn value(self) -> i128 {
        if self.minus {
            -(self.size as i128)
        } else {
            self.size as i128
        }
    }

    // One that 64 bits do not hold reads as 0.
    pub fn signed(self) -> i64 {
        i64::try_from(self.value()).unwrap_or(0)
    }

    // A year or an offset; one that 32 bits do not hold reads as 0.
    pub fn narrow(self) -> i32 {
        i32::try_from(self.value()).unwrap_or(0)
    }

    // For a call that takes 8 bits.
    pub fn byte(self) -> u8 {
        (self.size % 256) as u8
    }

    // For a call that takes 32 bits.
    pub fn low(self) -> u32 {
        (self.size % 4_294_967_296) as u32
    }
}

// The inputs of a call.
#[derive(Clone, Copy)]
pub struct Question {
    pub x: Number,
    pub y: Number,
    pub z: Number,
    pub fourth: Number,
    pub fifth: Number,
    pub sixth: Number,
    pub seventh: Number,
}

// The refusal's number, 0 for an answer, and up to seven results; the first and the third can have a minus sign.
#[derive(Clone, Copy)]
pub struct Reply {
    pub number: u32,
    pub values: [u64; 7],
    pub minus: bool,
    pub third_minus: bool,
}

impl Reply {
    pub fn one(number: u32, a: u64) -> Reply {
        Reply::plain(number, [a, 0, 0, 0, 0, 0, 0])
    }

    pub fn two(number: u32, a: u64, b: u64) -> Reply {
        Reply::plain(number, [a, b, 0, 0, 0, 0, 0])
    }

    pub fn four(number: u32, a: u64, b: u64, c: u64, d: u64) -> Reply {
        Reply::plain(number, [a, b, c, d, 0, 0, 0])
    }

    // Results without a sign.
    fn plain(number: u32, values: [u64; 7]) -> Reply {
        Reply {
            number,
            values,
            minus: false,
            third_minus: false,
        }
    }

    // A refusal's number and zeros.
    pub fn refused(why: Refusal) -> Reply {
        Reply::one(why.number(), 0)
    }

    pub fn signed(number: u32, a: i64) -> Reply {
        Reply::signed_first(number, a, [0, 0, 0, 0, 0, 0])
    }

    // A result with a sign, and six without.
    pub fn signed_first(number: u32, a: i64, rest: [u64; 6]) -> Reply {
        Reply {
            minus: a < 0,
            ..Reply::plain(
                number,
                [
                    a.unsigned_abs(),
                    rest[0],
                    rest[1],
                    rest[2],
                    rest[3],
                    rest[4],
                    rest[5],
                ],
            )
        }
    }

    pub fn date(number: u32, year: i32, month: u8, day: u8) -> Reply {
        Reply::signed_first(number, year as i64, [month as u64, day as u64, 0, 0, 0, 0])
    }

    pub fn civil(number: u32, c: CivilDateTime) -> Reply {
        Reply::signed_first(
            number,
            c.year as i64,
            [
                c.month as u64,
                c.day as u64,
                c.hour as u64,
                c.minute as u64,
                c.second as u64,
                c.nanos as u64,
            ],
        )
    }

    // A number, and an entry's threshold and offset.
    pub fn entry(number: u32, a: u64, tai_nanos: u64, tai_minus_utc: i32) -> Reply {
        Reply {
            third_minus: tai_minus_utc < 0,
            ..Reply::plain(
                number,
                [
                    a,
                    tai_nanos,
                    tai_minus_utc.unsigned_abs() as u64,
                    0,
                    0,
                    0,
                    0,
                ],
            )
        }
    }

    // The same with whether the table is stale, as the second result. A line about a table without an expiry has no
    // second result, which reads as 0, so a stale answer differs from it.
    pub fn dated(self, stale: u8) -> Reply {
        let mut next = self;
        next.values[1] = stale as u64;
        next
    }

    // No call has this number.
    pub fn unknown() -> Reply {
        Reply::plain(4_294_967_295, [0, 0, 0, 0, 0, 0, 0])
    }
}
