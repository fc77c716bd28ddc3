// Reads a leap-seconds.list and writes the table that it makes: a line for each entry, the expiry, and how many of the
// file's data lines were dropped. Where it makes none, one line says why.
// With the words `--since OLD NEW` it reads these two files, and writes one line: how far their tables convert alike.
#![tactic(auto)]

mod inner;

ghost use Rattle.std.specs.Prelude.{◌<◌, ◌≤◌, IfSome, length};
ghost use Rattle.std.specs.Io.KnownBytes.{Appends};
ghost use Rattle.lines.specs.OutcomeLine.{PutsWithRoom};
ghost use Rattle.leaplist.specs.Report.{report};
ghost use Rattle.leaplist.specs.Runs.{IfSilent};
ghost use Rattle.leaplist.specs.Since.{since_line};

use inner::put::{put_refusal, put_table};
use inner::since::{put_refused_file, put_with_new};
use lines::inner::streams::{Stop, explain, read_whole, write_out};
use published::MOST_BYTES;
use std::env::{Env, FillError};
use std::fs::File;
use std::io::{Read, Write};
use std::time::Clock;

// The longest report: 64 lines of at most 73 bytes, one of at most 39, and one of at most 29.
const LONGEST_REPORT: usize = 64 * 73 + 39 + 29;

// Writes the report on the bytes of a file, and returns its length. Writes nothing where there is no room for the
// longest report.
pub fn report(bytes: &[u8], out: &mut [u8]) -> usize
    ensures { PutsWithRoom 4740 (report bytes.now) out.old out.new result }
{
    if out.len() < LONGEST_REPORT {
        return 0;
    }
    let read = published::read(bytes);
    let answer = read.answer;
    let table = read.table;
    match answer {
        Ok(()) => put_table(table, read.dropped, out),
        Err(refusal) => put_refusal(out, 0, refusal, read.line, bytes),
    }
}

// The longest line on two files: 4 bytes for the name of a refused one, and at most 102 for the report on it.
const LONGEST_LINE: usize = 4 + 102;

// Writes one line on the bytes of two files, and returns its length: how far their tables convert alike, or which file
// is refused and why. Writes nothing where there is no room for the longest line.
pub fn since(old: &[u8], new: &[u8], out: &mut [u8]) -> usize
    ensures { PutsWithRoom 106 (since_line old.now new.now)
        out.old out.new result }
{
    if out.len() < LONGEST_LINE {
        return 0;
    }
    let read = published::read(old);
    let answer = read.answer;
    let table = read.table;
    match answer {
        Ok(()) => put_with_new(table, new, out),
        Err(refusal) => put_refused_file(b"OLD ", refusal, read.line, old, out),
    }
}

// Reads an input, and writes the report on it. The block has room for more than the longest file, so that of a longer
// one enough is read to refuse it.
fn run<R: Read, W: Write>(
    clock: &impl Clock,
    input: &mut R,
    output: &mut W,
    block: &mut [u8],
    out: &mut [u8],
) -> Result<(), Stop>
    ensures { 65536 < length block.old → 4740 ≤ length out.old → IfSilent result
        (IfSome (R.remaining input.old) (λ all.
        Appends (W.contents output.old) (W.contents output.new) (report all))) }
{
    let n = read_whole(clock, input, block)?;
    let made = report(&block[0..n], out);
    write_out(clock, output, &out[0..made])
}

// Says on standard error why a run is over. What cannot be written is left out: there is no other place to say so.
fn say(rt: &HostRuntime, words: &[u8]) {
    let _ = rt.stderr().write_all(words);
}

// The longest name of a file, with the zero byte that ends it for the system.
const LONGEST_NAME: usize = 4_096;

// Reads the file that a word of the command line names, in UTF-8.
fn read_named(rt: &HostRuntime, word: usize, block: &mut [u8]) -> Option<usize>
    ensures { IfSome result (λ n. n ≤ length block.old) }
{
    let mut name = [0u8; LONGEST_NAME];
    let n = rt.arg(word, &mut name).ok()?;
    let path = str::from_utf8(&name[..n]).ok()?;
    let mut file = File::open(rt, path).ok()?;
    read_whole(rt, &mut file, block).ok()
}

// Reads the files that the second and the third word name, and writes the line on them, or says on standard error which
// one cannot be read.
fn run_since(rt: &HostRuntime, old: &mut [u8], new: &mut [u8], out: &mut [u8]) {
    let Some(n) = read_named(rt, 2, old) else {
        say(rt, b"leaplist: cannot read OLD\n");
        return;
    };
    let Some(m) = read_named(rt, 3, new) else {
        say(rt, b"leaplist: cannot read NEW\n");
        return;
    };
    let made = since(&old[0..n], &new[0..m], out);
    if let Err(stop) = write_out(rt, &mut rt.stdout(), &out[0..made]) {
        explain(&mut rt.stderr(), b"leaplist", stop);
    }
}

// Whether a word is `--since`.
fn is_since(word: &[u8]) -> bool {
    word == b"--since".as_slice()
}

// Whether the command line has a word of this number; word 0 is the program's own name.
fn has_word(rt: &HostRuntime, word: usize) -> bool {
    let mut start = [0u8; 1];
    !matches!(rt.arg(word, &mut start), Err(FillError::NotPresent))
}

// Whether the words are `--since` and two names. A word that is too long is none.
fn asks_since(rt: &HostRuntime) -> bool {
    if !has_word(rt, 3) || has_word(rt, 4) {
        return false;
    }
    let mut word = [0u8; 7];
    match rt.arg(1, &mut word) {
        Ok(n) => is_since(&word[..n]),
        Err(_) => false,
    }
}

// How many bytes there is room for in an output: more than the longest report has.
const OUTPUT_BYTES: usize = 65_536;

// One byte more than the longest file tells whether a file is longer.
fn main(rt: HostRuntime) {
    let mut block = [0u8; MOST_BYTES + 1];
    let mut out = [0u8; OUTPUT_BYTES];
    if !has_word(&rt, 1) {
        let told = run(&rt, &mut rt.stdin(), &mut rt.stdout(), &mut block, &mut out);
        if let Err(stop) = told {
            explain(&mut rt.stderr(), b"leaplist", stop);
        }
        return;
    }
    if !asks_since(&rt) {
        say(
            &rt,
            b"leaplist: usage: leaplist < LIST, or leaplist --since OLD NEW\n",
        );
        return;
    }
    let mut new = [0u8; MOST_BYTES + 1];
    run_since(&rt, &mut block, &mut new, &mut out);
}
