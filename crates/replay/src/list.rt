// The recorded list, read byte by byte: a line is a call's number, its inputs, the refusal's number and the results.
use crate::reply::{Number, Question, Reply};
use crate::{ask, by_value};

// The numbers of the line that is being read, and what came of the lines before it.
#[derive(Clone, Copy)]
pub struct Reading {
    pub numbers: [Number; 16],
    // the number that is being read
    pub at: usize,
    // a digit was read
    pub begun: bool,
    // the rest of the line is a comment
    pub comment: bool,
    // the lines that ended
    pub lines: u64,
    pub agreed: u64,
    pub differed: u64,
    // the first line that differed
    pub first: u64,
}

impl Reading {
    pub fn new() -> Reading {
        Reading {
            numbers: [Number::ZERO; 16],
            at: 0,
            begun: false,
            comment: false,
            lines: 0,
            agreed: 0,
            differed: 0,
            first: 0,
        }
    }

    pub fn byte(&mut self, b: u8) {
        if b == b'\n' {
            *self = self.end();
            return;
        }
        if self.comment {
            return;
        }
        if b == b'#' {
            self.comment = true;
            return;
        }
        self.within(b);
    }

    // A byte of a line of numbers.
    fn within(&mut self, b: u8) {
        let at = self.at;
        if 16 <= at {
            return;
        }
        if b == b'-' {
            self.numbers[at].minus = true;
            return;
        }
        if b.is_ascii_digit() {
            self.numbers[at].size = with_digit(self.numbers[at].size, b - b'0');
            self.begun = true;
            return;
        }
        self.at = at + 1;
    }

    // The end of a line: the library is asked, and the next line begins.
    fn end(self) -> Reading {
        let mut next = Reading::new();
        next.lines = self.lines.saturating_add(1);
        next.agreed = self.agreed;
        next.differed = self.differed;
        next.first = self.first;
        if !self.begun {
            return next;
        }
        if self.agrees() {
            next.agreed = self.agreed.saturating_add(1);
            return next;
        }
        next.differed = self.differed.saturating_add(1);
        if self.first == 0 {
            next.first = next.lines;
        }
        next
    }

    // Whether the library gives what the line says: the exported call, and the calls by value.
    fn agrees(self) -> bool {
        let call = self.numbers[0].size;
        let at = place_of_refusal(call);
        let q = question(self.numbers);
        if !same(by_value::ask(call, q), self.numbers, at) {
            return false;
        }
        // what has a number above 200 is not exported
        200 < call || same(ask::ask(call, q), self.numbers, at)
    }
}

// The inputs of a line.
fn question(numbers: [Number; 16]) -> Question {
    Question {
        x: numbers[1],
        y: numbers[2],
        z: numbers[3],
        fourth: numbers[4],
        fifth: numbers[5],
        sixth: numbers[6],
        seventh: numbers[7],
    }
}

// Whether a reply is what stands in a line from `at` on: the refusal's number, then the results, and after them
// nothing. Only the first result and the third have a sign that counts.
fn same(reply: Reply, numbers: [Number; 16], at: usize) -> bool {
    if 8 < at {
        return false;
    }
    numbers[at].size == reply.number as u64
        && numbers[at + 1].minus == reply.minus
        && numbers[at + 3].minus == reply.third_minus
        && numbers[at + 1..at + 8]
            .iter()
            .zip(&reply.values)
            .all(|(told, value)| told.size == *value)
}

// Where a line has the refusal's number: after the call's number and its inputs.
fn place_of_refusal(call: u64) -> usize {
    match call {
        11 | 22 | 33 | 44 | 116 | 127 => 1,
        6..=10 | 17..=21 | 28..=32 | 39..=43 | 61 | 83..=89 | 94 => 3,
        111..=115 | 122..=126 | 150..=157 | 173 => 3,
        45 | 51 | 64 | 65 | 98 | 128 | 132 | 158..=172 => 4,
        66..=68 => 7,
        71..=73 | 97 | 99..=104 => 8,
        _ => 2,
    }
}

// A number that does not fit 64 bits reads as 0, which no line has there.
fn with_digit(size: u64, digit: u8) -> u64 {
    size.checked_mul(10)
        .and_then(|tens| tens.checked_add(digit as u64))
        .unwrap_or(0)
}
