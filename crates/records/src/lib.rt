// The leap records of a file, judged in the file's order and made into a table. A reader hands them over one at a time;
// how the file writes them is its own affair.
#![tactic(auto)]

pub mod inner;
