// Counts of nanoseconds and the durations between them: the arithmetic that all time scales share.
// Exact results are wider than 64 bits, so each sum goes by the sign of what is added, and one that does not fit is refused.
#![tactic(auto)]

pub mod sums;
pub mod units;
pub mod unix;

// A signed number of nanoseconds.
#[derive(Clone, Copy, Debug, PartialEq, Eq, PartialOrd, Ord, Hash)]
pub struct Duration(pub i64);
