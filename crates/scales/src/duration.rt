// Durations as numbers.
ghost use Rattle.std.specs.Prelude.{◌≡◌};

use counts::Duration;

pub fn from_nanos(nanos: i64) -> Duration
    ensures { result.0 ≡ nanos }
{
    Duration(nanos)
}

pub fn as_nanos(d: Duration) -> i64
    ensures { result ≡ d.0 }
{
    d.0
}
