//! The core programs of surfaces: what each derived form stands for, and what holds of the programs that come of it.
//! Nothing here is to be run; the contracts of the crate that expands surfaces cite these definitions and laws.
#![tactic(auto)]

mod laws;

pub use laws::{
    clock_law, expansion_law, paths_law, sizes_law, stops_law, watching_law, worked_law,
};
