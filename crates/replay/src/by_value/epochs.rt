// The epochs, the lengths between them and the leap seconds at them. No call exports them.
use crate::by_value::said;
use crate::reply::Reply;
use builtin::epochs::ScaleEpoch;
use calendar::epochs::{Epoch, EpochSpan};

pub fn constants(call: u64, which: u64) -> Reply {
    match call {
        1 => said::date(epoch(which).date()),
        2 => Reply::one(0, span(which).length()),
        _ => Reply::signed(0, leap_seconds(which)),
    }
}

fn epoch(which: u64) -> Epoch {
    match which {
        0 => Epoch::Tai,
        1 => Epoch::Unix,
        2 => Epoch::Utc,
        3 => Epoch::Gps,
        4 => Epoch::Glonass,
        5 => Epoch::Galileo,
        _ => Epoch::Beidou,
    }
}

fn span(which: u64) -> EpochSpan {
    match which {
        0 => EpochSpan::DaysUnixToGps,
        1 => EpochSpan::DaysGpsToGlonass,
        2 => EpochSpan::DaysGpsToGalileo,
        3 => EpochSpan::DaysGpsToBeidou,
        4 => EpochSpan::SecondsUnixToUtc,
        5 => EpochSpan::SecondsUnixToGps,
        6 => EpochSpan::NanosUnixToUtc,
        7 => EpochSpan::NanosGpsToGalileo,
        _ => EpochSpan::NanosGpsToBeidou,
    }
}

fn leap_seconds(which: u64) -> i64 {
    match which {
        0 => ScaleEpoch::Gps.leap_seconds(),
        1 => ScaleEpoch::Glonass.leap_seconds(),
        2 => ScaleEpoch::Galileo.leap_seconds(),
        _ => ScaleEpoch::Beidou.leap_seconds(),
    }
}
