// Lines of a text that stands whole in a slice: where each line ends.
#![tactic(auto)]

pub mod inner;
