// TAI minus UTC at the epochs, which epoch.rs has as constants, held to the built-in table.
ghost use Rattle.std.specs.Prelude.{◌≡◌};
ghost use Rattle.builtin.specs.Events.{leap_seconds_at};

use calendar::epochs;

// The epochs that the table reaches.
#[derive(Clone, Copy, Debug, PartialEq, Eq, Hash)]
pub enum ScaleEpoch {
    Gps,
    Glonass,
    Galileo,
    Beidou,
}

impl ScaleEpoch {
    // TAI minus UTC in seconds, on the UTC day of the epoch's date. GLONASS counts begin three hours before that day,
    // where it is 29.
    pub fn leap_seconds(self) -> i64
        ensures { result ≡ leap_seconds_at self }
    {
        match self {
            ScaleEpoch::Gps => epochs::LEAP_SECONDS_AT_GPS_EPOCH,
            ScaleEpoch::Glonass => epochs::LEAP_SECONDS_AT_GLONASS_EPOCH,
            ScaleEpoch::Galileo => epochs::LEAP_SECONDS_AT_GALILEO_EPOCH,
            ScaleEpoch::Beidou => epochs::LEAP_SECONDS_AT_BEIDOU_EPOCH,
        }
    }
}
