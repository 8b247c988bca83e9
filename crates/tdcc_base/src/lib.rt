//! The outside of `tdcc`: where bytes come from and go to, how an input is read line by line,
//! the gate that workers pass, and the status of a command.
#![tactic(auto)]

mod adapters;
mod buffers;
mod calls;
mod gate;
mod limits;
mod lines;
mod memory_sink;
mod memory_source;
mod outside;
mod read_ahead;
mod status;
mod stops;
#[cfg(test)]
mod tests;
mod writing;

pub use adapters::{Reader, StdSink, StdSource, Writer};
pub use gate::{Acted, Gate, OpenGate};
pub use limits::{LONGEST_LINE, LONGEST_TEXT, READ_SIZE, limits_law};
pub use lines::Lines;
pub use memory_sink::MemSink;
pub use memory_source::MemSource;
pub use outside::{Failed, Memory, Sink, Source};
pub use status::Status;
pub use stops::{LineEnd, ReadStop, TextEnd};
pub use writing::write_all;
