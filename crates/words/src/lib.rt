// Numbers in bytes: low byte first, high byte first, signed ones as their two's complement, and in decimal digits.
#![tactic(auto)]

pub mod digits;
pub mod inner;
