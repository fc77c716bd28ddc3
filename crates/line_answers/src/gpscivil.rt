// gpscivil: a GPS count in decimal digits is answered by its civil reading by the built-in table, in which an inserted
// second is 23:59:60.
ghost use Rattle.std.specs.Prelude.{◌≡◌, ◌≤◌, length};
ghost use Rattle.refusals.specs.Outcome.{answered, outcome_in};
ghost use Rattle.stamps.specs.Form.{Fits, written};
ghost use Rattle.lines.specs.OutcomeLine.{Puts, PutsWithRoom, line_of};
ghost use Rattle.line_answers.specs.Gpscivil.{reading_of_line, answer_to};

use crate::LONGEST_ANSWER;
use civil::CivilDateTime;
use lines::inner::put::put_refused;
use refusals::Refusal;
use scales::gps::Gps;
use texts::inner::LINE_END;

// The civil reading of a line that is a GPS count.
fn reading_of_line(line: &[u8]) -> Result<CivilDateTime, Refusal>
    ensures { outcome_in result ≡ reading_of_line line.now }
{
    readings::by_builtin::gps_to_civil(Gps(words::digits::read_count(line)?))
}

// Writes a date and a time of day in the civil form, and a line end.
fn put_civil(fields: CivilDateTime, out: &mut [u8]) -> usize
    requires in_bounds { 31 ≤ length out.old }
    requires fits { Fits fields }
    ensures { Puts (line_of (answered (written fields))) out.old out.new result }
{
    stamps::inner::put(out, 0, fields);
    out[30] = LINE_END;
    31
}

// Writes the answer to a line, and returns its length. Writes nothing where there is no room for the longest answer.
pub fn answer_line(line: &[u8], out: &mut [u8]) -> usize
    ensures { PutsWithRoom 31 (answer_to line.now) out.old out.new result }
{
    if out.len() < LONGEST_ANSWER {
        return 0;
    }
    match reading_of_line(line) {
        Ok(fields) => put_civil(fields, out),
        Err(refusal) => put_refused(refusal, out),
    }
}
