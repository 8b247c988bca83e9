//! The core programs of programs as they are written: each derived form becomes the core forms that it stands for.
#![tactic(auto)]

mod cells;
mod constraint;
mod derived;
mod emitter;
mod emitting;
mod expansion;
mod fault;
mod flat_node;
mod numbering;
mod placing;
#[cfg(test)]
mod tests;

pub use expansion::expand;
pub use fault::ExpandFault;
