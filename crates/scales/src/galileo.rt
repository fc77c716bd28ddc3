// Galileo time: nanoseconds since 1999-08-22 on the clock of GPS, with no leap seconds.
ghost use Rattle.scales.specs.Scales.{gps_minus_galileo};
ghost use Rattle.std.specs.Prelude.{◌-◌, ◌*◌, ◌^◌};
ghost use Rattle.std.proofs.Common.{rules};
ghost use Rattle.counts.specs.Units.{second, day_seconds};

use crate::behind_gps::BehindGps;
use crate::scale::Scale;
use crate::weeks::Weeks;
use counts::units;
use counts::units::{LARGEST_COUNT, NANOS_PER_SECOND};

#[derive(Clone, Copy, Debug, PartialEq, Eq, PartialOrd, Ord, Hash)]
pub struct Galileo(pub u64);

impl Scale for Galileo {
    ghost count = { λ t. t.0 };

    ghost ends = { Prim.search rules };

    ghost year = { Prim.search rules };

    ghost tells = { Prim.search rules };

    ghost EPOCH = { record { 0 = 0 } };

    const EPOCH: Galileo = Galileo(0);

    ghost MIN = { record { 0 = 0 } };

    const MIN: Galileo = Galileo(0);

    ghost MAX = { record { 0 = 2 ^ 64 - 1 } };

    const MAX: Galileo = Galileo(LARGEST_COUNT);

    ghost NANOS_PER_YEAR = { 365 * day_seconds * second };

    const NANOS_PER_YEAR: u64 = units::NANOS_PER_YEAR;

    fn from_nanos(nanos: u64) -> Galileo {
        Galileo(nanos)
    }

    fn as_nanos(self) -> u64 {
        self.0
    }
}

impl Weeks for Galileo {}

impl BehindGps for Galileo {
    ghost BEHIND_GPS_NS = { gps_minus_galileo };

    const BEHIND_GPS_NS: u64 = 619_315_200 * NANOS_PER_SECOND;
}
