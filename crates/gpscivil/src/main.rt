// Reads GPS counts, one a line, and writes each one's UTC date and time by the built-in table, or why there is none. An
// inserted second is 23:59:60.
#![tactic(auto)]

ghost use Rattle.std.specs.Prelude.{◌≡◌, ◌<◌, IfSome, length};
ghost use Rattle.std.specs.Io.KnownBytes.{Appends};
ghost use Rattle.texts.specs.Lines.{lines_of};
ghost use Rattle.lines.specs.Lines.{answers};
ghost use Rattle.lines.specs.Streams.{IfEnded};
ghost use Rattle.line_answers.specs.Gpscivil.{answer_to};
ghost use Rattle.line_answers.proofs.GpscivilInput.{answers_lines};

use line_answers::gpscivil;
use lines::inner::runs;
use lines::inner::runs::Answering;
use lines::inner::streams::{Place, Stop, explain};
use std::io::{Read, Write};
use std::time::Clock;

// How many bytes are read, and written, at a time.
const BUFFER_BYTES: usize = 65_536;

// Turns GPS counts into civil readings.
struct ToCivil;

impl Answering for ToCivil {
    ghost answer_to = { answer_to };

    ghost answers_lines = { answers_lines };

    fn answer_line(line: &[u8], out: &mut [u8]) -> usize {
        gpscivil::answer_line(line, out)
    }
}

// Reads, answers and writes until the input ends, or a read or a write fails. Where it ends, what is written is the
// answers to the lines of the input, wherever the blocks cut them.
fn run<R: Read, W: Write>(
    clock: &impl Clock,
    input: &mut R,
    output: &mut W,
    line: &mut [u8],
    block: &mut [u8],
    out: &mut [u8],
) -> Result<Place, Stop>
    requires line_len { length line.old ≡ 128 }
    requires block_nonzero { 0 < length block.old }
    ensures { IfEnded result (IfSome (R.remaining input.old) (λ all.
        Appends (W.contents output.old) (W.contents output.new) (answers answer_to (lines_of all)))) }
{
    runs::run::<ToCivil, R, W>(clock, input, output, line, block, out)
}

fn main(rt: HostRuntime) {
    let mut line = [0u8; 128];
    let mut block = [0u8; BUFFER_BYTES];
    let mut out = [0u8; BUFFER_BYTES];
    let ended = run(
        &rt,
        &mut rt.stdin(),
        &mut rt.stdout(),
        &mut line,
        &mut block,
        &mut out,
    );
    if let Err(stop) = ended {
        explain(&mut rt.stderr(), b"gpscivil", stop);
    }
}
