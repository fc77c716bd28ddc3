// For the programs, which show the `requires` where they call.
pub mod find;
pub mod put;
pub mod runs;
pub mod streams;
