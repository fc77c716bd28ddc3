// BeiDou time: nanoseconds since 2006-01-01 in UTC, with no leap seconds.
ghost use Rattle.scales.specs.Scales.{gps_minus_beidou};
ghost use Rattle.std.specs.Prelude.{◌-◌, ◌*◌, ◌^◌};
ghost use Rattle.std.proofs.Common.{rules};
ghost use Rattle.counts.specs.Units.{second, day_seconds};

use crate::behind_gps::BehindGps;
use crate::scale::Scale;
use crate::weeks::Weeks;
use counts::units;
use counts::units::{LARGEST_COUNT, NANOS_PER_SECOND};

#[derive(Clone, Copy, Debug, PartialEq, Eq, PartialOrd, Ord, Hash)]
pub struct Beidou(pub u64);

impl Scale for Beidou {
    ghost count = { λ t. t.0 };

    ghost ends = { Prim.search rules };

    ghost year = { Prim.search rules };

    ghost tells = { Prim.search rules };

    ghost EPOCH = { record { 0 = 0 } };

    const EPOCH: Beidou = Beidou(0);

    ghost MIN = { record { 0 = 0 } };

    const MIN: Beidou = Beidou(0);

    ghost MAX = { record { 0 = 2 ^ 64 - 1 } };

    const MAX: Beidou = Beidou(LARGEST_COUNT);

    ghost NANOS_PER_YEAR = { 365 * day_seconds * second };

    const NANOS_PER_YEAR: u64 = units::NANOS_PER_YEAR;

    fn from_nanos(nanos: u64) -> Beidou {
        Beidou(nanos)
    }

    fn as_nanos(self) -> u64 {
        self.0
    }
}

impl Weeks for Beidou {}

impl BehindGps for Beidou {
    ghost BEHIND_GPS_NS = { gps_minus_beidou };

    const BEHIND_GPS_NS: u64 = 820_108_814 * NANOS_PER_SECOND;
}
