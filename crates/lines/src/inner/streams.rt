// An input read in blocks or whole, and an output written. A program's loop over blocks is: `read_on`, answer,
// `write_out`. At a reader and a writer whose bytes are known, the contracts say which bytes move. Of those that the
// system reads and writes no contract says anything.
ghost use Rattle.std.specs.Prelude.{◌≡◌, ◌<◌, length, MatchResult};
ghost use Rattle.std.specs.Io.KnownBytes.{Appends};
ghost use Rattle.lines.specs.declared.inner.streams.Stop.TheVariants.{CannotWrite};
ghost use Rattle.lines.specs.Places.{Within, Stands, Reads};
ghost use Rattle.lines.specs.Streams.{IfKnown, ReadsOn, ReadsWhole};

use std::io::{Error, ErrorKind, Read, Write};
use std::thread::sleep;
use std::time::{Clock, Duration};
use texts::inner::LINE_END;

// Where a run stands: `used` bytes of a line are in the line buffer, and the bytes of the block from `at` to `end` are
// to be taken. `over` says that the input has ended.
#[derive(Clone, Copy)]
pub struct Place {
    pub used: usize,
    pub at: usize,
    pub end: usize,
    pub over: bool,
}

// Why a run is over.
#[derive(Clone, Copy, Debug, PartialEq, Eq)]
pub enum Stop {
    Ended,
    CannotRead,
    CannotWrite,
}

// A millisecond, between two tries of a call that found nothing to do.
const PAUSE_MILLIS: u64 = 1;

// Whether a read or a write that failed is to be made again: one that was interrupted, and one that found no byte or no
// room yet, which this waits for.
fn is_tried_again(clock: &impl Clock, error: &Error) -> bool {
    match error.kind() {
        ErrorKind::Interrupted => true,
        ErrorKind::WouldBlock => {
            sleep(clock, Duration::from_millis(PAUSE_MILLIS));
            true
        }
        _ => false,
    }
}

// The place at the start of a block of which `end` bytes are to be taken.
fn at_start(used: usize, end: usize, over: bool) -> Place
    ensures { result ≡ record { used = used; at = 0; end = end; over = over } }
{
    Place {
        used: used,
        at: 0,
        end: end,
        over: over,
    }
}

// Reads a block where all bytes of the last one are taken. The end of the input ends a line that has begun: a line end
// in the block stands for it. A read that has to be made again leaves no byte to take.
pub fn read_on<R: Read>(
    clock: &impl Clock,
    input: &mut R,
    place: Place,
    block: &mut [u8],
) -> Result<Place, Stop>
    requires within { Within (length block.old) place }
    requires block_nonzero { 0 < length block.old }
    ensures bound { Stands (length block.old) result }
    ensures bytes { IfKnown (R.remaining input.old) (R.remaining input.new)
        (λ xs ys. ReadsOn place block.old block.new xs ys result) }
{
    if place.at < place.end {
        return Ok(place);
    }
    if place.over {
        return Err(Stop::Ended);
    }
    match input.read(block) {
        Ok(0) => {
            if place.used == 0 {
                return Err(Stop::Ended);
            }
            block[0] = LINE_END;
            Ok(at_start(place.used, 1, true))
        }
        Ok(n) => Ok(at_start(place.used, n, false)),
        Err(e) => {
            if is_tried_again(clock, &e) {
                Ok(at_start(place.used, 0, false))
            } else {
                Err(Stop::CannotRead)
            }
        }
    }
}

// Reads an input until it ends or the block is full. The u64::MAX budget exists only so that the loop provably ends.
pub fn read_whole<R: Read>(
    clock: &impl Clock,
    input: &mut R,
    block: &mut [u8],
) -> Result<usize, Stop>
    ensures bound { Reads (length block.old) result }
    ensures bytes { ReadsWhole (R.remaining input.old) (R.remaining input.new) block.new result }
{
    let mut at: usize = 0;
    for _ in 0..u64::MAX {
        if at == block.len() {
            return Ok(at);
        }
        match input.read(&mut block[at..]) {
            Ok(0) => return Ok(at),
            Ok(n) => at += n,
            Err(e) => {
                if !is_tried_again(clock, &e) {
                    return Err(Stop::CannotRead);
                }
            }
        }
    }
    Err(Stop::CannotRead)
}

// Writes all bytes. The u64::MAX budget exists only so that the loop provably ends.
pub fn write_out<W: Write>(clock: &impl Clock, output: &mut W, bytes: &[u8]) -> Result<(), Stop>
    ensures { MatchResult result (λ _. Appends (W.contents output.old) (W.contents output.new) bytes.now)
        (λ stop. stop ≡ CannotWrite) }
{
    let mut at: usize = 0;
    for _ in 0..u64::MAX {
        if at == bytes.len() {
            return Ok(());
        }
        match output.write(&bytes[at..]) {
            Ok(0) => return Err(Stop::CannotWrite),
            Ok(n) => at += n,
            Err(e) => {
                if !is_tried_again(clock, &e) {
                    return Err(Stop::CannotWrite);
                }
            }
        }
    }
    Err(Stop::CannotWrite)
}

// Writes two texts, one after the other. What cannot be written is left out: there is no other place to say so.
fn write_error<W: Write>(errors: &mut W, program: &[u8], what: &[u8]) {
    let _ = errors.write_all(program);
    let _ = errors.write_all(what);
}

// Says on standard error why a run is over, where that is not the end of the input.
pub fn explain<W: Write>(errors: &mut W, program: &[u8], stop: Stop) {
    match stop {
        Stop::CannotRead => write_error(errors, program, b": cannot read\n"),
        Stop::CannotWrite => write_error(errors, program, b": cannot write\n"),
        Stop::Ended => {}
    }
}
