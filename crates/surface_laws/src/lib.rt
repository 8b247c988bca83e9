//! What holds of every surface that the reader gives.
#![tactic(auto)]

mod laws;

pub use laws::{surface_law, text_law};
