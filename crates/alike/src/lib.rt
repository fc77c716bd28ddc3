// How far two tables convert alike, for a station that is to be given a new one. An entry joined to a regular table changes
// no answer before its threshold; docs/PUSHING.md says what is promised. gnss-time has no such call.
#![tactic(auto)]

pub mod by_image;
pub mod by_value;
pub mod inner;

// The first counts whose conversions may differ, in nanoseconds: a GPS count to UTC, and a UTC count to GPS.
#[derive(Clone, Copy)]
pub struct Counts {
    pub gps: u64,
    pub utc: u64,
}

// How far two tables convert alike.
#[derive(Clone, Copy)]
pub enum Alike {
    // they have the same entries
    Everywhere,
    // before these counts, where one table extends the other
    Before(Counts),
    // before these counts, where neither extends the other
    Apart(Counts),
    // nothing is said: one of two different tables is not regular
    Irregular,
}
