// The form YYYY-MM-DDThh:mm:ss.nnnnnnnnnZ of a date and a time of day: read from bytes, and written.
#![tactic(auto)]

pub mod inner;

ghost use Rattle.std.specs.Prelude.{◌≡◌};
ghost use Rattle.refusals.specs.Outcome.{outcome_in};
ghost use Rattle.stamps.specs.Form.{stamp_read};

use civil::CivilDateTime;
use refusals::Refusal;

// The fields of 30 bytes in the form; any other bytes are refused.
pub fn read(s: &[u8]) -> Result<CivilDateTime, Refusal>
    ensures { outcome_in result ≡ stamp_read s.now }
{
    let first = b"0000-00-00T00:00:00.000000000Z";
    let last = b"9999-99-99T99:99:99.999999999Z";
    if inner::within(first, last, s) {
        Ok(inner::fields(s))
    } else {
        Err(Refusal::BadLine)
    }
}
