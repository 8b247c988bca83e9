//! Core texts: programs as texts of the core language.
#![tactic(auto)]

mod agents;
mod cells;
mod constraints;
mod laws;
mod printing;
#[cfg(test)]
mod tests;

pub use laws::length_law;
pub use printing::print_core;
