// A program's run over an input: the lines of each block are answered, and the answers written, until the input ends.
ghost use Rattle.std.specs.Prelude.{◌≡◌, ◌≤◌, ◌<◌, ℕ, List, IfSome, length, take};
ghost use Rattle.std.specs.Io.KnownBytes.{Appends};
ghost use Rattle.texts.specs.Lines.{lines_of};
ghost use Rattle.lines.specs.Lines.{answers, AnswersLines};
ghost use Rattle.lines.specs.OutcomeLine.{PutsWithRoom};
ghost use Rattle.lines.specs.Pieces.{AnswersBlock};
ghost use Rattle.lines.specs.Places.{Within, Stands};
ghost use Rattle.lines.specs.Streams.{IfEnded, AnswersOn};

use crate::inner::find::{Answered, keep, whole_line};
use crate::inner::streams::{Place, Stop, read_on, write_out};
use std::io::{Read, Write};
use std::time::Clock;
use texts::inner::next_end;

// No answer is longer, the line end included: a date and time has 30 bytes.
pub const LONGEST_ANSWER: usize = 31;

// What a program answers to a line.
pub trait Answering {
    ghost answer_to: { List ℕ → List ℕ };

    // Writes the answer to a line, and returns its length. Writes nothing where there is no room for the longest answer.
    fn answer_line(line: &[u8], out: &mut [u8]) -> usize
        ensures { PutsWithRoom 31 (answer_to line.now) out.old out.new result };

    // The first 128 bytes of a line decide its answer.
    ghost answers_lines: { AnswersLines 31 answer_to };
}

// Answers the lines that end in a block, while there is room for one more answer, and keeps the line that has begun.
fn answer_block<A: Answering>(
    line: &mut [u8],
    used: usize,
    block: &[u8],
    out: &mut [u8],
) -> Answered
    requires line_len { length line.old ≡ 128 }
    requires used_bound { used ≤ 128 }
    ensures { AnswersBlock 31 A.answer_to (take used line.old) block.now out.old
        line.new out.new result }
{
    let mut held = used;
    let mut made: usize = 0;
    let mut at: usize = 0;
    let mut end = next_end(block, 0);
    while end < block.len() {
        if out.len() - made < LONGEST_ANSWER {
            return Answered {
                used: held,
                taken: at,
                made: made,
            };
        }
        let text = whole_line(line, held, block, at, end);
        made += A::answer_line(text, &mut out[made..]);
        held = 0;
        at = end + 1;
        end = next_end(block, at);
    }
    Answered {
        used: keep(line, held, block, at, end),
        taken: end,
        made: made,
    }
}

// Answers the bytes of the block that are to be taken, as many as there is room for, and writes the answers.
fn answer_and_write<A: Answering, W: Write>(
    clock: &impl Clock,
    output: &mut W,
    line: &mut [u8],
    place: Place,
    block: &[u8],
    out: &mut [u8],
) -> Result<Place, Stop>
    requires line_len { length line.old ≡ 128 }
    requires within { Within (length block.now) place }
    ensures bound { Stands (length block.now) result }
    ensures answers { AnswersOn A.answer_to place line.old block.now line.new
        (W.contents output.old) (W.contents output.new) result }
{
    let at = place.at;
    let end = place.end;
    let done = answer_block::<A>(line, place.used, &block[at..end], out);
    let made = done.made;
    write_out(clock, output, &out[0..made])?;
    Ok(Place {
        used: done.used,
        at: at + done.taken,
        end: end,
        over: place.over,
    })
}

// Reads, answers and writes until the input ends, or a read or a write fails. Where it ends, what is written is the
// answers to the lines of the input, wherever the blocks cut them. The u64::MAX budget exists only so that the loop
// provably ends.
pub fn run<A: Answering, R: Read, W: Write>(
    clock: &impl Clock,
    input: &mut R,
    output: &mut W,
    line: &mut [u8],
    block: &mut [u8],
    out: &mut [u8],
) -> Result<Place, Stop>
    requires line_len { length line.old ≡ 128 }
    requires block_nonzero { 0 < length block.old }
    ensures { IfEnded result (IfSome (R.remaining input.old) (λ all.
        Appends (W.contents output.old) (W.contents output.new) (answers A.answer_to (lines_of all)))) }
{
    let mut place = Place {
        used: 0,
        at: 0,
        end: 0,
        over: false,
    };
    for _ in 0..u64::MAX {
        let next = read_on(clock, input, place, block)?;
        place = answer_and_write::<A, W>(clock, output, line, next, block, out)?;
    }
    Err(Stop::CannotRead)
}
