//! The grammar of programs: which lists of words are a program of timed default concurrent constraint programming, the
//! machine that reads them from left to right, and the place where a list stops to begin one.
//!
//! The code sees words without their names and numbers (`Word`). The definitions see terms with them, and each clause
//! holds of every list of terms with these words.
#![tactic(auto)]

mod laws;
mod machine;
mod stack_symbols;
mod table;
#[cfg(test)]
mod tests;
mod words;

pub use laws::{beginnings_law, faults_law, places_law, unambiguity_law};
pub use machine::{ParseFault, Step, parse};
pub use stack_symbols::StackSymbol;
pub use words::{Language, Word};
