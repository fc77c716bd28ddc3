// What the programs gpscivil and civilgps answer to a line. The one turns GPS counts into civil readings, the other turns
// them back, and each gives back what the other took.
#![tactic(auto)]

pub mod civilgps;
pub mod gpscivil;

pub const LONGEST_ANSWER: usize = lines::inner::runs::LONGEST_ANSWER;
