//! The laws of core texts: what is written of a program is that program's text, and no other program's.
#![tactic(auto)]

mod laws;

pub use laws::{reading_back_law, reading_law, spelling_law};
