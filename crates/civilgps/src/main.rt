// Reads UTC dates and times, one a line, and writes each one's GPS count by the built-in table, or why there is none.
#![tactic(auto)]

ghost use Rattle.std.specs.Prelude.{◌≡◌, ◌<◌, IfSome, length};
ghost use Rattle.std.specs.Io.KnownBytes.{Appends};
ghost use Rattle.texts.specs.Lines.{lines_of};
ghost use Rattle.lines.specs.Lines.{answers};
ghost use Rattle.lines.specs.Streams.{IfEnded};
ghost use Rattle.line_answers.specs.Civilgps.{answer_to};
ghost use Rattle.line_answers.proofs.CivilgpsInput.{answers_lines};

use line_answers::civilgps;
use lines::inner::runs;
use lines::inner::runs::Answering;
use lines::inner::streams::{Place, Stop, explain};
use std::io::{Read, Write};
use std::time::Clock;

// How many bytes are read, and written, at a time.
const BUFFER_BYTES: usize = 65_536;

// Turns civil readings into GPS counts.
struct ToGps;

impl Answering for ToGps {
    ghost answer_to = { answer_to };

    ghost answers_lines = { answers_lines };

    fn answer_line(line: &[u8], out: &mut [u8]) -> usize {
        civilgps::answer_line(line, out)
    }
}

// Reads, answers and writes until the input ends, or a read or a write fails. Where it ends, what is written is the
// answers to the lines of the input, wherever the blocks cut them.
fn run<R: Read, W: Write>(
    clock: &impl Clock,
    input: &mut R,
    output: &mut W,
    line: &mut [u8],
    block: &mut [u8],
    out: &mut [u8],
) -> Result<Place, Stop>
    requires line_len { length line.old ≡ 128 }
    requires block_nonzero { 0 < length block.old }
    ensures { IfEnded result (IfSome (R.remaining input.old) (λ all.
        Appends (W.contents output.old) (W.contents output.new) (answers answer_to (lines_of all)))) }
{
    runs::run::<ToGps, R, W>(clock, input, output, line, block, out)
}

fn main(rt: HostRuntime) {
    let mut line = [0u8; 128];
    let mut block = [0u8; BUFFER_BYTES];
    let mut out = [0u8; BUFFER_BYTES];
    let ended = run(
        &rt,
        &mut rt.stdin(),
        &mut rt.stdout(),
        &mut line,
        &mut block,
        &mut out,
    );
    if let Err(stop) = ended {
        explain(&mut rt.stderr(), b"civilgps", stop);
    }
}
