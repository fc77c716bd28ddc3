// Bytes between two others, and the form written at a place where there is room for it.
ghost use Rattle.std.specs.Prelude.{◌≡◌, true, ◌&&◌, ◌+◌, ◌≤◌, ◌<◌, ◌^◌, leb, pos, nat_abs, length};
ghost use Rattle.std.proofs.lemmas.List.Edits.{sets};
ghost use Rattle.stamps.specs.Form.{Fits, field, fields_at, first, last, within, written};

use civil::CivilDateTime;
use words::inner::digits::{field, put_four, put_nine, put_two};

// Whether a byte is in the range from one byte to another.
fn between(low: u8, b: u8, high: u8) -> bool
    ensures { result ≡ (leb low b && leb b high) }
{
    (low <= b) & (b <= high)
}

// Whether each byte is in the range from the one in `low` to the one in `high`. All are tested, so that there is no branch.
fn each_within(low: &[u8], high: &[u8], s: &[u8]) -> bool
    requires low_len { length low.now ≡ length s.now }
    requires high_len { length high.now ≡ length s.now }
    ensures { result ≡ within low.now high.now s.now }
{
    let mut inside = true;
    for i in 0..s.len() {
        inside &= between(low[i], s[i], high[i]);
    }
    inside
}

// The same of 30 bytes, as many as in `low` and in `high`: sixteen and sixteen, with two in both.
pub fn within(low: &[u8], high: &[u8], s: &[u8]) -> bool
    requires low_len { length low.now ≡ 30 }
    requires high_len { length high.now ≡ 30 }
    ensures { result ≡ within low.now high.now s.now }
{
    if s.len() != 30 {
        return false;
    }
    if each_within(&low[0..16], &high[0..16], &s[0..16]) {
        each_within(&low[14..30], &high[14..30], &s[14..30])
    } else {
        false
    }
}

// The fields of bytes in the form, at their places. Each fits its type.
pub fn fields(s: &[u8]) -> CivilDateTime
    requires s_len { length s.now ≡ 30 }
    requires fits { Fits (fields_at s.now) }
    requires s_value { within first last s.now ≡ true }
    ensures { result ≡ fields_at s.now }
{
    CivilDateTime {
        year: field(s, 0, 4) as i32,
        month: field(s, 5, 2) as u8,
        day: field(s, 8, 2) as u8,
        hour: field(s, 11, 2) as u8,
        minute: field(s, 14, 2) as u8,
        second: field(s, 17, 2) as u8,
        nanos: field(s, 20, 9) as u32,
    }
}

// Two digits, a year in four, and nine digits, each followed by its mark.
fn put_two_and(out: &mut [u8], at: usize, n: u8, mark: u8)
    requires n_bound { n < 10 ^ 2 }
    requires at_in_bounds { at + 3 ≤ length out.old }
    ensures { out.new ≡ sets out.old at (field 2 n mark) }
{
    put_two(out, at, n as u32);
    out[at + 2] = mark;
}

fn put_year_and(out: &mut [u8], at: usize, year: i32, mark: u8)
    requires year_value { year ≡ pos (nat_abs year) }
    requires year_bound { nat_abs year < 10 ^ 4 }
    requires at_in_bounds { at + 5 ≤ length out.old }
    ensures { out.new ≡ sets out.old at (field 4 (nat_abs year) mark) }
{
    put_four(out, at, year as u32);
    out[at + 4] = mark;
}

fn put_nine_and(out: &mut [u8], at: usize, n: u32, mark: u8)
    requires n_bound { n < 10 ^ 9 }
    requires at_in_bounds { at + 10 ≤ length out.old }
    ensures { out.new ≡ sets out.old at (field 9 n mark) }
{
    put_nine(out, at, n);
    out[at + 9] = mark;
}

// The form at a place of a slice.
pub fn put(out: &mut [u8], at: usize, f: CivilDateTime)
    requires at_in_bounds { at + 30 ≤ length out.old }
    requires fits { Fits f }
    ensures { out.new ≡ sets out.old at (written f) }
{
    put_year_and(out, at, f.year, b'-');
    put_two_and(out, at + 5, f.month, b'-');
    put_two_and(out, at + 8, f.day, b'T');
    put_two_and(out, at + 11, f.hour, b':');
    put_two_and(out, at + 14, f.minute, b':');
    put_two_and(out, at + 17, f.second, b'.');
    put_nine_and(out, at + 20, f.nanos, b'Z');
}
