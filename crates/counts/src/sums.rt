// A count and a duration: later, earlier, and the duration between two counts.
ghost use Rattle.std.specs.Prelude.{◌≡◌, ◌+◌, pos, negsuc, ◌+ℤ◌, ◌-ℤ◌};
ghost use Rattle.refusals.specs.Outcome.{outcome_in};
ghost use Rattle.counts.specs.Exact.{count_of, duration_of, nearest_count, step_of};
ghost use Rattle.counts.specs.Answers.{duration_in};

use crate::Duration;
use refusals::Refusal;

// A duration by its sign: nanoseconds forward, or back.
#[derive(Clone, Copy, Debug, PartialEq, Eq, Hash)]
pub enum Step {
    Forward(u64),
    Back(u64),
}

pub fn by_sign(d: Duration) -> Step
    ensures { result ≡ step_of d.0 }
{
    let n = d.0;
    if n < 0 {
        Step::Back(n.unsigned_abs())
    } else {
        Step::Forward(n as u64)
    }
}

pub fn plus(n: u64, m: u64) -> Result<u64, Refusal>
    ensures { outcome_in result ≡ count_of (pos (n + m)) }
{
    n.checked_add(m).ok_or(Refusal::Overflow)
}

pub fn minus(n: u64, m: u64) -> Result<u64, Refusal>
    ensures { outcome_in result ≡ count_of (pos n -ℤ pos m) }
{
    n.checked_sub(m).ok_or(Refusal::Overflow)
}

// The count a duration later.
pub fn later(n: u64, d: Duration) -> Result<u64, Refusal>
    ensures { outcome_in result ≡ count_of (pos n +ℤ d.0) }
{
    match by_sign(d) {
        Step::Forward(m) => plus(n, m),
        Step::Back(m) => minus(n, m),
    }
}

// The count a duration earlier.
pub fn earlier(n: u64, d: Duration) -> Result<u64, Refusal>
    ensures { outcome_in result ≡ count_of (pos n -ℤ d.0) }
{
    match by_sign(d) {
        Step::Forward(m) => minus(n, m),
        Step::Back(m) => plus(n, m),
    }
}

pub fn saturating_plus(n: u64, m: u64) -> u64
    ensures { result ≡ nearest_count (pos (n + m)) }
{
    n.saturating_add(m)
}

pub fn saturating_minus(n: u64, m: u64) -> u64
    ensures { result ≡ nearest_count (pos n -ℤ pos m) }
{
    n.saturating_sub(m)
}

// The count a duration later, or the limit on the way.
pub fn saturating_later(n: u64, d: Duration) -> u64
    ensures { result ≡ nearest_count (pos n +ℤ d.0) }
{
    match by_sign(d) {
        Step::Forward(m) => saturating_plus(n, m),
        Step::Back(m) => saturating_minus(n, m),
    }
}

// The count a duration earlier, or the limit on the way.
pub fn saturating_earlier(n: u64, d: Duration) -> u64
    ensures { result ≡ nearest_count (pos n -ℤ d.0) }
{
    match by_sign(d) {
        Step::Forward(m) => saturating_minus(n, m),
        Step::Back(m) => saturating_plus(n, m),
    }
}

// The duration of m nanoseconds.
pub fn forward(m: u64) -> Result<Duration, Refusal>
    ensures { duration_in result ≡ duration_of (pos m) }
{
    match i64::try_from(m) {
        Ok(nanos) => Ok(Duration(nanos)),
        Err(_) => Err(Refusal::Overflow),
    }
}

// The duration −(m + 1).
pub fn backward(m: u64) -> Result<Duration, Refusal>
    ensures { duration_in result ≡ duration_of (negsuc m) }
{
    let Duration(nanos) = forward(m)?;
    Ok(Duration(-1 - nanos))
}

// The duration from the count `start` to the count `end`.
pub fn elapsed(end: u64, start: u64) -> Result<Duration, Refusal>
    ensures { duration_in result ≡ duration_of (pos end -ℤ pos start) }
{
    if start <= end {
        forward(end - start)
    } else {
        backward(start - end - 1)
    }
}
