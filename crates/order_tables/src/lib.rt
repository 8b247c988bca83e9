//! Difference constraints: bounds between numbered items, the least numbers that satisfy them, and
//! which items a path of bounds leads to.
#![tactic(auto)]

mod bound;
mod reach;
mod table;

pub use bound::Bound;
pub use reach::reaching;
pub use table::least_table;
