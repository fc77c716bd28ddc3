// The lines of a report, written at a place of a slice. Each function returns where its bytes end.
ghost use Rattle.std.specs.Prelude.{◌≡◌, cond, ◌++◌, ◌+◌, ◌*◌, ◌-◌, ◌≤◌, ◌<◌, eqb, pos, nat_abs, length, get_or};
ghost use Rattle.refusals.specs.Number.{number_of};
ghost use Rattle.tables.specs.Entries.{entry};
ghost use Rattle.tables.specs.Slots.{slots, entries_of};
ghost use Rattle.lines.specs.OutcomeLine.{Puts};
ghost use Rattle.leaplist.specs.Report.{number_and, utc_second, entry_line, entry_lines};
ghost use Rattle.leaplist.specs.Report.{expiry_line, dropped_word, table_report, quoted, place, refusal_report};
ghost use Rattle.leaplist.specs.Writing.{PutsAt};

use crate::inner::quote::{is_text, start_of_line};
use civil::inner::{SECONDS_PER_DAY, fields_at};
use counts::units::NANOS_PER_SECOND;
use lines::inner::put::put_bytes;
use refusals::Refusal;
use tables::inner::OFFSET_OF_NO_ENTRY;
use tables::{LeapTable, NO_EXPIRY};
use texts::inner::LINE_END;
use words::inner::digits::put_count;

// From 1972-01-01 to 1980-01-06: 2,927 days.
const UTC_EPOCH_TO_1980_S: u64 = 2_927 * SECONDS_PER_DAY;

// A number in decimal, and the byte after it.
fn put_number_and(out: &mut [u8], at: usize, n: u64, mark: u8) -> usize
    requires { at + 21 ≤ length out.old }
    ensures { PutsAt at (number_and n mark) out.old out.new result }
{
    let end = put_count(out, at, n);
    out[end] = mark;
    end + 1
}

// An offset without its sign.
fn size_of(offset: i32) -> u64
    ensures { result ≡ nat_abs offset }
{
    u64::from(offset.unsigned_abs())
}

// The UTC second, counted from 1972-01-01, at a TAI count by an offset; 0 where the offset is larger.
fn utc_second(threshold: u64, offset: u64) -> u64
    ensures { result ≡ utc_second threshold offset }
{
    (threshold / NANOS_PER_SECOND + UTC_EPOCH_TO_1980_S).saturating_sub(offset)
}

// The line of an entry: at most 30 bytes for the date and time, 21 and 21 for the numbers, and a space.
fn put_entry(out: &mut [u8], at: usize, threshold: u64, offset: i32) -> usize
    requires { at + 73 ≤ length out.old }
    ensures { PutsAt at (entry_line (entry threshold offset)) out.old out.new result }
{
    let size = size_of(offset);
    stamps::inner::put(out, at, fields_at(utc_second(threshold, size), 0));
    out[at + 30] = b' ';
    let end = put_number_and(out, at + 31, size, b' ');
    put_number_and(out, end, threshold, LINE_END)
}

// The lines of the first `n` slots.
fn put_entries(thresholds: &[u64], offsets: &[i32], n: usize, out: &mut [u8]) -> usize
    requires n_in_bounds { n ≤ length thresholds.now }
    requires n_in_bounds_2 { n ≤ length offsets.now }
    requires n_in_bounds_3 { 73 * n ≤ length out.old }
    ensures { PutsAt 0 (entry_lines (slots thresholds.now offsets.now n))
        out.old out.new result }
{
    let mut end: usize = 0;
    let mut i: usize = 0;
    while i < n {
        end = put_entry(out, end, thresholds[i], offsets[i]);
        i += 1;
    }
    end
}

// The size of the last of the first `n` offsets; that of no entry where `n` is 0.
fn last_size(offsets: &[i32], n: usize) -> u64
    requires { n ≤ length offsets.now }
    ensures { result ≡ nat_abs (cond (eqb n 0) (pos 19) (get_or offsets.now (n - 1) (pos 0))) }
{
    if n == 0 {
        return size_of(OFFSET_OF_NO_ENTRY);
    }
    size_of(offsets[n - 1])
}

// The line of the expiry, by an offset: 8 bytes for the word, at most 30 for the date and time, and the line end.
fn put_expiry(out: &mut [u8], at: usize, expiry: u64, offset: u64) -> usize
    requires { at + 39 ≤ length out.old }
    ensures { PutsAt at (expiry_line expiry offset) out.old out.new result }
{
    let none = expiry == NO_EXPIRY;
    put_bytes(out, at, b"expires ");
    if none {
        put_bytes(out, at + 8, b"none\n");
        return at + 13;
    }
    stamps::inner::put(out, at + 8, fields_at(utc_second(expiry, offset), 0));
    out[at + 38] = LINE_END;
    at + 39
}

// How many data lines were dropped.
fn put_dropped(out: &mut [u8], at: usize, n: u64) -> usize
    requires { at + 29 ≤ length out.old }
    ensures { PutsAt at (dropped_word ++ number_and n 10) out.old out.new result }
{
    put_bytes(out, at, b"dropped ");
    put_number_and(out, at + 8, n, LINE_END)
}

// The table of a file, its expiry, and how many data lines were dropped.
pub fn put_table(table: LeapTable, dropped: usize, out: &mut [u8]) -> usize
    requires len_bound { table.len ≤ 64 }
    requires in_bounds { 4740 ≤ length out.old }
    ensures { Puts (table_report (entries_of table) table.expiry dropped)
        out.old out.new result }
{
    let thresholds = table.thresholds;
    let offsets = table.offsets;
    let n = table.len;
    let entries_end = put_entries(&thresholds, &offsets, n, out);
    let last = last_size(&offsets, n);
    let end = put_expiry(out, entries_end, table.expiry, last);
    put_dropped(out, end, dropped as u64)
}

// The start of a line in quotation marks; nothing where not all of it is text.
fn put_quoted(out: &mut [u8], at: usize, line: &[u8]) -> usize
    requires line_len_bound { length line.now ≤ 40 }
    requires at_in_bounds { at + 44 ≤ length out.old }
    ensures { PutsAt at (quoted line.now) out.old out.new result }
{
    if !is_text(line) {
        return at;
    }
    put_bytes(out, at, b": \"");
    put_bytes(out, at + 3, line);
    let end = at + 3 + line.len();
    out[end] = b'"';
    end + 1
}

// The line of the file that is told, and the line end.
fn put_place(out: &mut [u8], at: usize, line: usize, bytes: &[u8]) -> usize
    requires { at + 74 ≤ length out.old }
    ensures { PutsAt at (place line bytes.now) out.old out.new result }
{
    if line == 0 {
        out[at] = LINE_END;
        return at + 1;
    }
    put_bytes(out, at, b" at line ");
    let number_end = put_count(out, at + 9, line as u64);
    let end = put_quoted(out, number_end, start_of_line(bytes, line));
    out[end] = LINE_END;
    end + 1
}

// The refusal of a file: 8 bytes for the word, at most 20 for the number, and 74 for the place.
pub fn put_refusal(out: &mut [u8], at: usize, refusal: Refusal, line: usize, bytes: &[u8]) -> usize
    requires { at + 102 ≤ length out.old }
    ensures { PutsAt at (refusal_report (number_of refusal) line bytes.now)
        out.old out.new result }
{
    put_bytes(out, at, b"refused ");
    let end = put_count(out, at + 8, refusal.number() as u64);
    put_place(out, end, line, bytes)
}
