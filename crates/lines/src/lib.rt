// The lines of an input that comes in blocks, and what a program over them needs besides: reading and writing, and the
// line of a refusal. Nothing here knows what a program answers to a line.
#![tactic(auto)]

pub mod inner;
