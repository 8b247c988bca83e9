//! The laws of generated programs: each is a program text, and one that runs.
#![tactic(auto)]

mod laws;

pub use laws::generated_law;
