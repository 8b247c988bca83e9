//! A core text, read.
ghost use Rattle.std.specs.Prelude.{◌≡◌, IfErr, IfOk, MatchResult};
ghost use Rattle.program_grammar.specs.Phrases.{ProgramPhrase as Phrase};
ghost use Rattle.tdcc_reader.specs.declared.fault.ReadFault as ReadFault;
ghost use Rattle.core_reader.specs.Readings.{AcceptsCore, IsCoreOf, IsCoreText, RefusesCore};

use crate::nodes::nodes_of;
use agent_core::{MAX_CELLS, MAX_NODES, Program};
use std::alloc::Global;
use tdcc_reader::{Dialect, ReadFault, read_text};

/// Reads a core text: the program that it is.
///
/// # Errors
///
/// The first refusal of the text, at its place; `TooManyNodes` and then `TooManyCells` behind all others; `Memory` where
/// an allocation fails.
pub fn read_core(alloc: Global, text: &[u8]) -> Result<Program, ReadFault>
    // What is read is the core program that the text is.
    ensures found { IfOk result (IsCoreText text.now) }
    // A refusal is the first one, at its place.
    ensures fault { IfErr result (RefusesCore text.now) }
    // A text that nothing refuses is read, as the one core program that it is.
    ensures complete { (phrase : Phrase) → AcceptsCore text.now phrase
        → MatchResult result (IsCoreOf phrase) (λ fault. fault ≡ ReadFault.Memory) }
{
    let parts = read_text(alloc, Dialect::Core, text)?;
    if parts.forms.len() > MAX_NODES {
        return Err(ReadFault::TooManyNodes);
    }
    if parts.cells.len() > MAX_CELLS {
        return Err(ReadFault::TooManyCells);
    }
    let nodes = nodes_of(alloc, parts.forms)?;
    match Program::make(parts.cells, parts.declared, nodes) {
        Some(program) => Ok(program),
        None => unreachable!(),
    }
}
