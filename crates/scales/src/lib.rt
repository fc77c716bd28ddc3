// The time scales of time.rs: GPS, UTC, GLONASS, TAI, Galileo and BeiDou, each a count of nanoseconds since its epoch.
// One tuple struct for each, so that a count of one scale is never taken where another is due; what they share is a
// trait.
#![tactic(auto)]

pub mod behind_gps;
pub mod beidou;
pub mod duration;
pub mod galileo;
pub mod galileo_beidou;
pub mod glonass;
pub mod glonass_days;
pub mod gps;
pub mod gps_tai;
pub mod scale;
pub mod tai;
pub mod utc;
pub mod utc_unix;
pub mod weeks;
