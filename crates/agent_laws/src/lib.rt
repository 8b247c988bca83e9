//! Laws of what programs of Timed Default cc mean: where they have one output and one run, and what
//! the leaves and the roots of an instant have to do with it. Nothing here is to be run; the laws
//! stand on the contracts.
#![tactic(auto)]

mod laws;

pub use laws::{
    by_leaves_law, by_roots_law, next_roots_law, one_output_law, one_run_law, sorted_law, told_law,
    worked_law,
};
