// The line on two files, OLD and NEW. Each function returns where its bytes end.
ghost use Rattle.std.specs.Prelude.{◌++◌, ◌+◌, ◌≤◌, length};
ghost use Rattle.refusals.specs.Number.{number_of};
ghost use Rattle.published.specs.LeapSecondsList.{list_read};
ghost use Rattle.lines.specs.OutcomeLine.{Puts};
ghost use Rattle.leaplist.specs.Report.{refusal_report};
ghost use Rattle.leaplist.specs.Since.{second_of, same_before, words_for, alike_line, line_with_new};
ghost use Rattle.leaplist.specs.Writing.{PutsAt};

use crate::inner::put::put_refusal;
use alike::Alike;
use civil::inner::fields_at;
use counts::units::NANOS_PER_SECOND;
use lines::inner::put::{put_bytes, put_refused};
use refusals::Refusal;
use tables::LeapTable;
use texts::inner::LINE_END;

// The date and time of a UTC count in whole seconds: the first 19 of the form's 30 bytes.
fn put_second(out: &mut [u8], at: usize, utc: u64) -> usize
    requires { at + 19 ≤ length out.old }
    ensures { PutsAt at (second_of utc) out.old out.new result }
{
    let mut stamp = [0u8; 30];
    stamps::inner::put(&mut stamp, 0, fields_at(utc / NANOS_PER_SECOND, 0));
    put_bytes(out, at, &stamp[0..19]);
    at + 19
}

// `same before`, the date and time, and `UTC`: 12, 19 and 4 bytes.
fn put_before(out: &mut [u8], utc: u64) -> usize
    requires { 35 ≤ length out.old }
    ensures { PutsAt 0 (same_before utc) out.old out.new result }
{
    put_bytes(out, 0, b"same before ");
    let end = put_second(out, 12, utc);
    put_bytes(out, end, b" UTC");
    end + 4
}

// The same, and more words.
fn put_before_and(out: &mut [u8], utc: u64, words: &[u8]) -> usize
    requires { 35 + length words.now ≤ length out.old }
    ensures { PutsAt 0 (same_before utc ++ words.now) out.old out.new result }
{
    let end = put_before(out, utc);
    put_bytes(out, end, words);
    end + words.len()
}

// How far two tables convert alike, without a line end; `lacking` says that NEW has fewer entries than OLD.
fn put_told(out: &mut [u8], told: Alike, lacking: bool) -> usize
    requires { 66 ≤ length out.old }
    ensures { PutsAt 0 (words_for lacking told) out.old out.new result }
{
    match told {
        Alike::Everywhere => {
            put_bytes(out, 0, b"same everywhere");
            15
        }
        Alike::Before(counts) => {
            if lacking {
                put_before_and(out, counts.utc, b", and NEW lacks entries of OLD")
            } else {
                put_before(out, counts.utc)
            }
        }
        Alike::Apart(counts) => put_before_and(out, counts.utc, b", and neither extends the other"),
        Alike::Irregular => {
            put_bytes(
                out,
                0,
                b"nothing is promised: entries less than a day apart",
            );
            50
        }
    }
}

// The line on the tables of both files.
fn put_alike(old: LeapTable, new: LeapTable, out: &mut [u8]) -> usize
    requires len_bound { old.len ≤ 64 }
    requires len_bound_2 { new.len ≤ 64 }
    requires in_bounds { 67 ≤ length out.old }
    ensures { Puts (alike_line old new) out.old out.new result }
{
    let lacking = new.len < old.len;
    match alike::by_value::alike(old, new) {
        Ok(told) => {
            let end = put_told(out, told, lacking);
            out[end] = LINE_END;
            end + 1
        }
        Err(refusal) => put_refused(refusal, out),
    }
}

// The line on a refused file: its name, 4 bytes with the space, and the report on it.
pub fn put_refused_file(
    name: &[u8],
    refusal: Refusal,
    line: usize,
    bytes: &[u8],
    out: &mut [u8],
) -> usize
    requires name_len_bound { length name.now ≤ 4 }
    requires in_bounds { 106 ≤ length out.old }
    ensures { Puts (name.now ++ refusal_report (number_of refusal) line bytes.now)
        out.old out.new result }
{
    put_bytes(out, 0, name);
    put_refusal(out, name.len(), refusal, line, bytes)
}

// The line on the table of OLD and the bytes of NEW.
pub fn put_with_new(old: LeapTable, new: &[u8], out: &mut [u8]) -> usize
    requires len_bound { old.len ≤ 64 }
    requires in_bounds { 106 ≤ length out.old }
    ensures { Puts (line_with_new old new.now (list_read new.now))
        out.old out.new result }
{
    let read = published::read(new);
    let answer = read.answer;
    let table = read.table;
    match answer {
        Ok(()) => put_alike(old, table, out),
        Err(refusal) => put_refused_file(b"NEW ", refusal, read.line, new, out),
    }
}
