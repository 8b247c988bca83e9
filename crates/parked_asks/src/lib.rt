//! What wakes an ask: which guards watch a cell, and which leaves come up at a stratum. And room to note which asks hold.
#![tactic(auto)]

mod held;
mod index;
mod watch;

pub use held::HeldAsks;
pub use index::Index;
pub use watch::Watch;
