//! The core text of a program.
ghost use Rattle.std.specs.Prelude.{◌≡◌, ◌++◌, OnOk, OnErr, IfOk};
ghost use Rattle.agent_core.specs.WellFormed.{IsWellFormed};
ghost use Rattle.core_text.specs.CoreTexts.{core_text};

use crate::agents::write_agent;
use crate::cells::write_decls;
use agent_core::Program;
use std::alloc::Global;
use token_system::Memory;

/// The core text of the program, with memory of its own.
fn core_text(alloc: Global, program: &Program) -> Result<Vec<u8>, Memory>
    ensures { IfOk result (λ text. text.items ≡ core_text program.now) }
{
    let cells = program.cells();
    let mut text = Vec::new(alloc);
    write_decls(&cells[..program.declared() as usize], &mut text)?;
    write_agent(cells, program.nodes(), &mut text)?;
    text.push(b'\n')?;
    Ok(text)
}

/// Appends the core text of the program: a line for each declared cell and one with the agent, each with its line feed.
/// The names are those that the program gives its cells. Without memory nothing is appended.
pub fn print_core(program: &Program, into: &mut Vec<u8>) -> Result<(), Memory>
    ensures ok { OnOk result (into.new.items ≡ into.old.items ++ core_text program.now) }
    ensures err { OnErr result (into.new.items ≡ into.old.items) }
{
    let text = core_text(*into.allocator(), program)?;
    into.extend_from_slice(&text)
}
