//! The reader of core programs: from the bytes of a core text to the program that it is, or to the first refusal.
#![tactic(auto)]

mod laws;
mod nodes;
mod reader;
#[cfg(test)]
mod tests;

pub use laws::core_law;
pub use reader::read_core;
