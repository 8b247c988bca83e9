//! Laws of what tokens and programs of Timed Default cc mean, and an evaluator of the definitions themselves, with which
//! tests compare the runtime.
#![tactic(auto)]

mod asks;
mod laws;
mod levels;
mod slow;
mod walk;

pub use laws::{closed_sets_law, closed_stores_law};
pub use slow::slow_run;
pub use token_system::{entailment_law, join_law, order_law, stores_law};

#[cfg(test)]
mod tests;
