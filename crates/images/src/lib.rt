// Leap-second tables and lists of entries as bytes, for hosts that have no tables and no entries of their own.
#![tactic(auto)]

pub mod inner;
pub mod list;
pub mod table;
