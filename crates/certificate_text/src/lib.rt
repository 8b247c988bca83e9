//! The texts of certificates: the names of local cells and their tokens, and the three lines of an entry, which are those
//! of an input, of an output, and of the leaves that tell.
#![tactic(auto)]

mod blanks;
mod declared_field;
mod entry;
#[cfg(test)]
mod entry_tests;
mod entry_text;
mod fault;
mod in_line;
mod laws;
mod limits;
mod local_cell;
mod local_name;
mod local_token;
mod local_value;
mod out_line;
mod out_reading;
mod run_line;
#[cfg(test)]
mod tests;

pub use entry::{Entry, RunList};
pub use entry_text::{read_entry_line, write_entry};
pub use fault::{EntryFault, EntryLineFault};
pub use in_line::{read_in, write_in};
pub use laws::{
    entries_law, inputs_law, limits_law, local_tokens_law, names_law, outs_law, runs_law,
};
pub use limits::LONGEST_ENTRY_LINE;
pub use local_name::{read_name, write_name};
pub use local_token::{LocalToken, read_local_token};
pub use out_line::write_out;
pub use out_reading::read_out;
pub use run_line::{read_run, write_run};
