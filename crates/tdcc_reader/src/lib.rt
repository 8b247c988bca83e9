//! The reader of programs and of core programs: from the bytes of a text to its cells and forms, or to the first
//! refusal.
#![tactic(auto)]

mod build;
mod cells;
mod dialect;
mod fault;
mod finish;
mod flat_form;
mod insertions;
mod laws;
mod lexing;
mod limits;
mod naming;
mod parsing;
mod reader;
mod scope;
mod surface;
mod terms;
#[cfg(test)]
mod tests;

pub use dialect::{
    Dialect, GREATEST_CORE_DEPTH, GREATEST_DEPTH, MOST_CONSTRAINT_TOKENS, MOST_WRITTEN_TOKENS,
};
pub use fault::ReadFault;
pub use laws::{limits_law, refusal_law};
pub use reader::{read_program, read_text};
pub use surface::{Form, ParsedText, Surface};
