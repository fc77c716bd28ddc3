// The epochs of the time scales, and the days, seconds and nanoseconds between them.
ghost use Rattle.std.specs.Prelude.{◌≡◌, pos};
ghost use Rattle.calendar.specs.Answers.{date_in};
ghost use Rattle.calendar.specs.Epochs.{epoch_of, length_of};

use crate::CivilDate;
use counts::units::NANOS_PER_SECOND;
use counts::unix::{UTC_EPOCH_UNIX_OFFSET_NS, UTC_EPOCH_UNIX_OFFSET_S};

pub const TAI_EPOCH: CivilDate = CivilDate {
    year: 1958,
    month: 1,
    day: 1,
};

pub const UNIX_EPOCH: CivilDate = CivilDate {
    year: 1970,
    month: 1,
    day: 1,
};

pub const UTC_CIVIL_EPOCH: CivilDate = CivilDate {
    year: 1972,
    month: 1,
    day: 1,
};

pub const GPS_EPOCH: CivilDate = CivilDate {
    year: 1980,
    month: 1,
    day: 6,
};

pub const GLONASS_EPOCH: CivilDate = CivilDate {
    year: 1996,
    month: 1,
    day: 1,
};

pub const GALILEO_EPOCH: CivilDate = CivilDate {
    year: 1999,
    month: 8,
    day: 22,
};

pub const BEIDOU_EPOCH: CivilDate = CivilDate {
    year: 2006,
    month: 1,
    day: 1,
};

const SECONDS_PER_DAY: u64 = 86_400;

const NANOS_PER_DAY: u64 = SECONDS_PER_DAY * NANOS_PER_SECOND;

// ten years of 365 days, the leap days of 1972 and 1976, and five days of January
pub const DAYS_UNIX_TO_GPS: u64 = 3_657;
// to 1996-01-01: sixteen years of 365 days and four leap days, less five days of January 1980
pub const DAYS_GPS_TO_GLONASS: u64 = 5_839;
// 1,024 weeks: the first roll-over of the GPS week number
pub const DAYS_GPS_TO_GALILEO: u64 = 7_168;
// 26 years of 365 days and seven leap days, less five days of January 1980
pub const DAYS_GPS_TO_BEIDOU: u64 = 9_492;

pub const GPS_EPOCH_UNIX_S: u64 = DAYS_UNIX_TO_GPS * SECONDS_PER_DAY;

pub const NANOS_GPS_TO_GALILEO_EPOCH: u64 = DAYS_GPS_TO_GALILEO * NANOS_PER_DAY;

pub const NANOS_GPS_TO_BEIDOU_EPOCH_CALENDAR: u64 = DAYS_GPS_TO_BEIDOU * NANOS_PER_DAY;

// TAI less UTC at the epochs, in seconds (IERS Bulletin C).
pub const LEAP_SECONDS_AT_GPS_EPOCH: i64 = 19;

pub const LEAP_SECONDS_AT_GLONASS_EPOCH: i64 = 30;

pub const LEAP_SECONDS_AT_GALILEO_EPOCH: i64 = 32;

pub const LEAP_SECONDS_AT_BEIDOU_EPOCH: i64 = 33;

#[derive(Clone, Copy)]
pub enum Epoch {
    Tai,
    Unix,
    Utc,
    Gps,
    Glonass,
    Galileo,
    Beidou,
}

impl Epoch {
    pub fn date(self) -> CivilDate
        ensures { date_in result ≡ epoch_of self }
    {
        match self {
            Epoch::Tai => TAI_EPOCH,
            Epoch::Unix => UNIX_EPOCH,
            Epoch::Utc => UTC_CIVIL_EPOCH,
            Epoch::Gps => GPS_EPOCH,
            Epoch::Glonass => GLONASS_EPOCH,
            Epoch::Galileo => GALILEO_EPOCH,
            Epoch::Beidou => BEIDOU_EPOCH,
        }
    }
}

// The lengths that are named above and in counts.
#[derive(Clone, Copy)]
pub enum EpochSpan {
    DaysUnixToGps,
    DaysGpsToGlonass,
    DaysGpsToGalileo,
    DaysGpsToBeidou,
    SecondsUnixToUtc,
    SecondsUnixToGps,
    NanosUnixToUtc,
    NanosGpsToGalileo,
    NanosGpsToBeidou,
}

impl EpochSpan {
    pub fn length(self) -> u64
        ensures { pos result ≡ length_of self }
    {
        match self {
            EpochSpan::DaysUnixToGps => DAYS_UNIX_TO_GPS,
            EpochSpan::DaysGpsToGlonass => DAYS_GPS_TO_GLONASS,
            EpochSpan::DaysGpsToGalileo => DAYS_GPS_TO_GALILEO,
            EpochSpan::DaysGpsToBeidou => DAYS_GPS_TO_BEIDOU,
            EpochSpan::SecondsUnixToUtc => UTC_EPOCH_UNIX_OFFSET_S,
            EpochSpan::SecondsUnixToGps => GPS_EPOCH_UNIX_S,
            EpochSpan::NanosUnixToUtc => UTC_EPOCH_UNIX_OFFSET_NS,
            EpochSpan::NanosGpsToGalileo => NANOS_GPS_TO_GALILEO_EPOCH,
            EpochSpan::NanosGpsToBeidou => NANOS_GPS_TO_BEIDOU_EPOCH_CALENDAR,
        }
    }
}
