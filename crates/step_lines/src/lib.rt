//! Lines of steps, as scripts have them: which step of a worker a line says.
#![tactic(auto)]

mod laws;
mod step_line;
mod word_name;

pub use laws::one_step_law;
pub use step_line::read_step;

#[cfg(test)]
mod tests;
