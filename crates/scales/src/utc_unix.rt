// What UTC alone has: Unix time.
ghost use Rattle.std.specs.Prelude.{◌≡◌, ◌+◌, ◌*◌, ◌/◌, ◌-◌, ◌^◌, min, pos, ◌-ℤ◌, ◌*ℤ◌};
ghost use Rattle.counts.specs.Exact.{count_of};
ghost use Rattle.counts.specs.Units.{second, unix_offset};
ghost use Rattle.scales.specs.Answers.{utc_in};

use crate::utc::Utc;
use counts::unix;
use refusals::Refusal;

impl Utc {
    pub fn from_unix_seconds(seconds: i64) -> Result<Utc, Refusal>
        ensures { utc_in result ≡ count_of ((seconds -ℤ pos unix_offset) *ℤ pos second) }
    {
        Ok(Utc(unix::from_unix_seconds(seconds)?))
    }

    pub fn from_unix_nanos(nanos: i64) -> Result<Utc, Refusal>
        ensures { utc_in result ≡ count_of (nanos -ℤ pos (unix_offset * second)) }
    {
        Ok(Utc(unix::from_unix_nanos(nanos)?))
    }

    pub fn as_unix_seconds(self) -> i64
        ensures { result ≡ pos (self.0 / second + unix_offset) }
    {
        unix::as_unix_seconds(self.0)
    }

    // Stops at the largest signed number.
    pub fn as_unix_nanos(self) -> i64
        ensures { result ≡ pos (min (self.0 + unix_offset * second) (2 ^ 63 - 1)) }
    {
        unix::as_unix_nanos(self.0)
    }
}
