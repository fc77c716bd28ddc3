// Bytes written into a slice, and the line of a refusal.
ghost use Rattle.std.specs.Prelude.{◌≡◌, ◌+◌, ◌≤◌, length};
ghost use Rattle.std.proofs.lemmas.List.Edits.{sets};
ghost use Rattle.refusals.specs.Number.{number_of};
ghost use Rattle.refusals.specs.Outcome.{refused};
ghost use Rattle.lines.specs.OutcomeLine.{Puts, line_of};

use refusals::Refusal;
use texts::inner::LINE_END;
use words::inner::digits::put_count;

// Writes the bytes of `s` at a place.
pub fn put_bytes(out: &mut [u8], at: usize, s: &[u8])
    requires { at + length s.now ≤ length out.old }
    ensures { out.new ≡ sets out.old at s.now }
{
    out[at..at + s.len()].copy_from_slice(s);
}

// Writes "refused ", the number and a line end. Returns how many bytes that are.
pub fn put_refused(refusal: Refusal, out: &mut [u8]) -> usize
    requires { 29 ≤ length out.old }
    ensures { Puts (line_of (refused (number_of refusal))) out.old out.new result }
{
    put_bytes(out, 0, b"refused ");
    let end = put_count(out, 8, refusal.number() as u64);
    out[end] = LINE_END;
    end + 1
}
