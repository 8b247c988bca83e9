//! The words of the tool: a command, and the settings behind it.
#![tactic(auto)]

mod command;
mod laws;
mod settings;
#[cfg(test)]
mod tests;

pub use command::{Command, MOST_GENERATED_LINES, command_of};
pub use laws::{command_law, limits_law, workers_law};
pub use settings::{
    DEFAULT_FUEL, DEFAULT_NET, GREATEST_FUEL, GREATEST_NET, Limits, MOST_WORD_DIGITS, MOST_WORKERS,
};
