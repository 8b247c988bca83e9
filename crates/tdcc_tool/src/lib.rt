//! What the tool answers, and the call that does all that the program does.
#![tactic(auto)]

mod answer;
mod check;
mod core_reading;
mod dispatch;
mod generated;
mod instant;
mod laws;
mod messages;
mod output;
mod program_text;
mod run_end;
mod run_state;
mod summary;
mod task;
#[cfg(test)]
mod tests;
mod top;
mod trace;

pub use core_reading::core_law;
pub use laws::{answer_law, output_law, shared_limits_law, workers_law};
pub use top::tdcc;
