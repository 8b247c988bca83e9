//! The counts of an instant: what its output makes of its leaves and of its thens and elses.
#![tactic(auto)]

mod counts;
mod reporting;

pub use counts::Report;
pub use reporting::report;

#[cfg(test)]
mod tests;
