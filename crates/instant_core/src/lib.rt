//! The core over interleavings: what one instant's workers do to its words, step by step.
#![tactic(auto)]

mod hand;
mod laws;
mod step;

pub use hand::Hand;
pub use laws::{opening_law, steps_law};
pub use step::CoreStep;
