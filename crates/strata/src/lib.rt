//! The least table of numbers that stratifies a program, or the first case for which there is none.
#![tactic(auto)]

mod bounds;
mod fault;
mod least;
mod search;

pub use fault::StrataFault;
pub use least::strata;

#[cfg(test)]
mod tests;
