// civilgps: a civil reading in 30 bytes is answered by its GPS count in decimal digits. A date or time that does not exist
// is refused, by the number of its first field that is out of range.
ghost use Rattle.std.specs.Prelude.{◌≡◌, ◌≤◌, length};
ghost use Rattle.refusals.specs.Outcome.{answered};
ghost use Rattle.scales.specs.Answers.{gps_in};
ghost use Rattle.words.specs.Decimal.{decimal};
ghost use Rattle.lines.specs.OutcomeLine.{Puts, PutsWithRoom, line_of};
ghost use Rattle.line_answers.specs.Civilgps.{gps_of_line, answer_to};

use crate::LONGEST_ANSWER;
use lines::inner::put::put_refused;
use refusals::Refusal;
use scales::gps::Gps;
use texts::inner::LINE_END;
use words::inner::digits::put_count;

// The GPS count of a line that is a civil date and time.
fn gps_of_line(line: &[u8]) -> Result<Gps, Refusal>
    ensures { gps_in result ≡ gps_of_line line.now }
{
    readings::by_builtin::civil_to_gps(stamps::read(line)?)
}

// Writes a GPS count in digits, and a line end.
fn put_gps(gps: Gps, out: &mut [u8]) -> usize
    requires { 31 ≤ length out.old }
    ensures { Puts (line_of (answered (decimal gps.0))) out.old out.new result }
{
    let end = put_count(out, 0, gps.0);
    out[end] = LINE_END;
    end + 1
}

// Writes the answer to a line, and returns its length. Writes nothing where there is no room for the longest answer.
pub fn answer_line(line: &[u8], out: &mut [u8]) -> usize
    ensures { PutsWithRoom 31 (answer_to line.now) out.old out.new result }
{
    if out.len() < LONGEST_ANSWER {
        return 0;
    }
    match gps_of_line(line) {
        Ok(gps) => put_gps(gps, out),
        Err(refusal) => put_refused(refusal, out),
    }
}
