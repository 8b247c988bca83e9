//! The texts of a trace, both ways: a line read into a store, and a store written as a line. And
//! the generator, which makes a program and a trace from a number.
#![tactic(auto)]

mod draws;
mod fault;
mod field;
mod generator;
mod laws;
mod limits;
mod line;
mod store_line;
mod telling;
#[cfg(test)]
mod tests;
mod units;

pub use fault::LineFault;
pub use generator::generate;
pub use laws::{generating_law, limits_law, reading_law, writing_law};
pub use limits::LONGEST_TRACE_LINE;
pub use line::read_input;
pub use store_line::write_store;
