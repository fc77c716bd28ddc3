// The parts of a report and of the line on two files, which show the `requires` where `report` and `since` call them.
pub mod put;
pub mod quote;
pub mod since;
