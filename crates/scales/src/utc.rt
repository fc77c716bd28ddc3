// UTC: nanoseconds since 1972-01-01, the inserted seconds not counted.
ghost use Rattle.std.specs.Prelude.{◌-◌, ◌*◌, ◌^◌};
ghost use Rattle.std.proofs.Common.{rules};
ghost use Rattle.counts.specs.Units.{second, day_seconds};

use crate::scale::Scale;
use counts::units;
use counts::units::LARGEST_COUNT;

#[derive(Clone, Copy, Debug, PartialEq, Eq, PartialOrd, Ord, Hash)]
pub struct Utc(pub u64);

impl Scale for Utc {
    ghost count = { λ t. t.0 };

    ghost ends = { Prim.search rules };

    ghost year = { Prim.search rules };

    ghost tells = { Prim.search rules };

    ghost EPOCH = { record { 0 = 0 } };

    const EPOCH: Utc = Utc(0);

    ghost MIN = { record { 0 = 0 } };

    const MIN: Utc = Utc(0);

    ghost MAX = { record { 0 = 2 ^ 64 - 1 } };

    const MAX: Utc = Utc(LARGEST_COUNT);

    ghost NANOS_PER_YEAR = { 365 * day_seconds * second };

    const NANOS_PER_YEAR: u64 = units::NANOS_PER_YEAR;

    fn from_nanos(nanos: u64) -> Utc {
        Utc(nanos)
    }

    fn as_nanos(self) -> u64 {
        self.0
    }
}
