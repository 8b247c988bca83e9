//! Completing an instant of a program on one thread: the leaves of its net tell, stratum by stratum, until nothing is
//! left to tell. No memory is taken.
#![tactic(auto)]

mod asking;
mod laws;
mod leaves;
mod looking;
mod passes;
mod watching;

pub use laws::chain_law;
pub use passes::{settle, settle_stratum};
pub use watching::{settle_instant, settle_watched};

#[cfg(test)]
mod tests;
