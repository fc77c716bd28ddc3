// A count in decimal digits. What is read and written at a place of a slice is in `inner::digits`.
ghost use Rattle.std.specs.Prelude.{◌≡◌};
ghost use Rattle.refusals.specs.Outcome.{outcome_in};
ghost use Rattle.words.specs.Decimal.{count_read};

use crate::inner::digits::digit;
use refusals::Refusal;

// The largest count has 20 digits.
const MOST_DIGITS: usize = 20;

// A count in 1 to 20 digits, zeros in front or not; any other bytes, and a number above 64 bits, are refused.
pub fn read_count(s: &[u8]) -> Result<u64, Refusal>
    ensures { outcome_in result ≡ count_read s.now }
{
    if s.is_empty() || s.len() > MOST_DIGITS {
        return Err(Refusal::BadLine);
    }
    let mut value: u64 = 0;
    for b in s {
        if !b.is_ascii_digit() {
            return Err(Refusal::BadLine);
        }
        let tens = value.checked_mul(10).ok_or(Refusal::BadLine)?;
        value = tens.checked_add(digit(*b)).ok_or(Refusal::BadLine)?;
    }
    Ok(value)
}
