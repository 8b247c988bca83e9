//! What an instant leaves for later: the closures that its final store starts, and those that a hence started before.
//! And how many leaves the store runs.
#![tactic(auto)]

mod closures;
mod counting;
mod next;
mod roots;

pub use counting::ran;
pub use next::next_roots;
pub use roots::{Roots, first_roots};

#[cfg(test)]
mod tests;
