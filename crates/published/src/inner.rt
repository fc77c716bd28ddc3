// The parts of a line, read in place. Nothing is copied: each reader is given the text from where its part begins, and says
// how many bytes it read. Only the last byte of a line is looked at again, where it may be a carriage return.
pub mod file;

ghost use Rattle.std.specs.Prelude.{◌≡◌, true, false, ◌+◌, ◌≤◌, ◌<◌, ◌^◌, ◌+ℤ◌, pos, IfSome, eqb, nat_abs, length, get_or, take, drop};
ghost use Rattle.std.specs.List.{prefix_len};
ghost use Rattle.std.proofs.Math.IntN.{sub_ℕ};
ghost use Rattle.words.specs.Decimal.{is_digit, all_digits, value_of, count_read};
ghost use Rattle.texts.specs.Ends.{until_end, NoEndBetween};
ghost use Rattle.records.specs.Records.{event};
ghost use Rattle.published.specs.LeapSecondsList.{take_while, begins, is_blank, ends_in_return, field_read, offset_read, record_at, line_read};
ghost use Rattle.published.specs.Places.{first_line, number_found, opens, ends_field, line_found, LineEnds, in64_bits};

use records::inner::LeapRecord;
use texts::inner::{LINE_END, next_end};
use words::inner::digits::digit;

// NTP seconds up to 1980-01-06, where TAI counts begin.
const NTP_SECONDS_TO_1980: i128 = 2_524_953_600;

const LARGEST_OFFSET: u64 = i32::MAX as u64;

// Any number of up to 19 digits fits 64 bits.
const SAFE_DIGITS: usize = 19;

const MOST_DIGITS: usize = 20;

// A comment or a blank line, a line with a record, or one with the NTP seconds of the expiry.
#[derive(Clone, Copy)]
pub enum LineRead {
    Passes,
    Holds(LeapRecord),
    Expires(u64),
}

fn is_blank(b: u8) -> bool
    ensures { result ≡ is_blank b }
{
    b == b' ' || b == b'\t'
}

// How many blanks a text begins with.
fn blanks(s: &[u8]) -> usize
    ensures value { result ≡ prefix_len is_blank s.now }
    ensures within { result ≤ length s.now }
{
    s.iter().take_while(|b| is_blank(**b)).count()
}

// Whether the byte at a place is a digit; past the end there is none.
fn is_digit_at(s: &[u8], at: usize) -> bool
    ensures { result ≡ is_digit (get_or s.now at 0) }
{
    matches!(s.get(at), Some(b'0'..=b'9'))
}

// The number whose first 19 digits say `value`: a 20th digit may make it too large, and a 21st is too many.
fn read_last_digit(s: &[u8], value: u64) -> Option<(u64, usize)>
    requires long { 19 ≤ length s.now }
    requires digits { all_digits (take 19 s.now) ≡ true }
    requires said { value ≡ value_of (take 19 s.now) }
    ensures is { number_found result ≡ in64_bits (count_read (take_while is_digit s.now)) }
    ensures ends { IfSome result (λ n. (n.1 ≡ prefix_len is_digit s.now) × (n.1 ≤ length s.now)) }
{
    if !is_digit_at(s, SAFE_DIGITS) {
        return Some((value, SAFE_DIGITS));
    }
    if is_digit_at(s, MOST_DIGITS) {
        return None;
    }
    let number = value.checked_mul(10)?.checked_add(digit(s[SAFE_DIGITS]))?;
    Some((number, MOST_DIGITS))
}

// The number of 64 bits in the 1 to 20 digits that a text begins with, and how many they are. Any 19 digits fit, so they
// are not tested.
fn read_number(s: &[u8]) -> Option<(u64, usize)>
    ensures is { number_found result ≡ in64_bits (count_read (take_while is_digit s.now)) }
    ensures ends { IfSome result (λ n. (n.1 ≡ prefix_len is_digit s.now) × (n.1 ≤ length s.now)) }
{
    let end = s.len().min(SAFE_DIGITS);
    let mut value: u64 = 0;
    for i in 0..end {
        let b = s[i];
        if !b.is_ascii_digit() {
            return (0 < i).then_some((value, i));
        }
        value = value * 10 + digit(b);
    }
    if end < SAFE_DIGITS {
        return (0 < end).then_some((value, end));
    }
    read_last_digit(s, value)
}

// Whether the line ends at the start of a text, or a comment begins there, where there may be one.
fn may_end(rest: &[u8], comment: bool) -> bool
    ensures { result ≡ begins true (ends_field comment) rest.now }
{
    match rest.first() {
        Some(b) => *b == LINE_END || comment && *b == b'#',
        None => true,
    }
}

// The number at the start of a part of a line, between blanks, one or more of them before it, and how many bytes these
// are. There the line ends, or a comment begins, where there may be one.
fn read_field(rest: &[u8], comment: bool) -> Option<(u64, usize)>
    ensures is { number_found result ≡ in64_bits (field_read (opens comment) (first_line rest.now)) }
    ensures ends { IfSome result (λ n.
        NoEndBetween rest.now 0 n.1 × (begins true (ends_field comment) (drop n.1 rest.now) ≡ true)) }
{
    let start = blanks(rest);
    if start == 0 {
        return None;
    }
    let (number, width) = read_number(&rest[start..])?;
    let after = start + width;
    let stop = after + blanks(&rest[after..]);
    if may_end(&rest[stop..], comment) {
        Some((number, stop))
    } else {
        None
    }
}

// The offset in what follows the NTP seconds of a line, of 31 bits, and how many bytes it and its blanks are.
fn read_offset(rest: &[u8]) -> Option<(u64, usize)>
    ensures is { number_found result ≡ offset_read (first_line rest.now) }
    ensures ends { IfSome result (λ n. NoEndBetween rest.now 0 n.1 × (n.0 < 2 ^ 31)) }
{
    let (offset, used) = read_field(rest, true)?;
    if offset <= LARGEST_OFFSET {
        Some((offset, used))
    } else {
        None
    }
}

// The TAI second at an NTP second, by an offset.
pub fn tai_second(ntp: u64, offset: i32) -> i128
    ensures { result ≡ sub_ℕ ntp 2_524_953_600 +ℤ offset }
{
    i128::from(ntp) - NTP_SECONDS_TO_1980 + i128::from(offset)
}

// The record of an NTP second and the offset from then on.
fn record_at(ntp: u64, offset: u64) -> LeapRecord
    requires { offset < 2 ^ 31 }
    ensures is { result ≡ record_at ntp offset }
    ensures fits { nat_abs (event result) < 2 ^ 64 }
{
    let offset = offset as i32;
    LeapRecord {
        threshold: tai_second(ntp, offset),
        offset,
    }
}

// Whether a line ends in a carriage return.
fn ends_in_return(line: &[u8]) -> bool
    ensures { result ≡ ends_in_return line.now }
{
    let n = line.len();
    if n == 0 {
        return false;
    }
    line[n - 1] == b'\r'
}

// A line that begins with `#@`.
fn read_expiry(s: &[u8]) -> Option<(LineRead, usize)>
    requires long { 2 ≤ length s.now }
    requires hash { get_or s.now 0 0 ≡ 35 }
    requires sign { get_or s.now 1 0 ≡ 64 }
    ensures is { line_found result ≡ line_read (first_line s.now) }
    ensures ends { LineEnds s.now result }
{
    let (ntp, used) = read_field(&s[2..], false)?;
    Some((LineRead::Expires(ntp), 2 + used))
}

// A line that begins with the sign of a comment, and not with that of an expiry.
fn read_comment(s: &[u8]) -> Option<(LineRead, usize)>
    requires some { 0 < length s.now }
    requires hash { get_or s.now 0 0 ≡ 35 }
    requires other { eqb (get_or s.now 1 0) 64 ≡ false }
    ensures is { line_found result ≡ line_read (first_line s.now) }
    ensures ends { LineEnds s.now result }
{
    let end = next_end(s, 0);
    if ends_in_return(&s[..end]) {
        None
    } else {
        Some((LineRead::Passes, end))
    }
}

// A line that begins with a blank, or is empty.
fn read_blanks(s: &[u8]) -> Option<(LineRead, usize)>
    requires some { 0 < length s.now }
    requires digit { is_digit (get_or s.now 0 0) ≡ false }
    requires hash { eqb (get_or s.now 0 0) 35 ≡ false }
    ensures is { line_found result ≡ line_read (first_line s.now) }
    ensures ends { LineEnds s.now result }
{
    let end = blanks(s);
    if may_end(&s[end..], false) {
        Some((LineRead::Passes, end))
    } else {
        None
    }
}

// A line that begins with a digit.
fn read_data(s: &[u8]) -> Option<(LineRead, usize)>
    requires some { 0 < length s.now }
    requires digit { is_digit (get_or s.now 0 0) ≡ true }
    ensures is { line_found result ≡ line_read (first_line s.now) }
    ensures ends { LineEnds s.now result }
{
    let (ntp, width) = read_number(s)?;
    let (offset, used) = read_offset(&s[width..])?;
    let end = next_end(s, width + used);
    if ends_in_return(&s[..end]) {
        None
    } else {
        Some((LineRead::Holds(record_at(ntp, offset)), end))
    }
}

// The line that a text begins with, by its first byte or two, and where it ends.
pub fn read_line(s: &[u8]) -> Option<(LineRead, usize)>
    requires { 0 < length s.now }
    ensures is { line_found result ≡ line_read (first_line s.now) }
    ensures ends { LineEnds s.now result }
{
    match s {
        [b'#', b'@', ..] => read_expiry(s),
        [b'#', ..] => read_comment(s),
        [b'0'..=b'9', ..] => read_data(s),
        _ => read_blanks(s),
    }
}
