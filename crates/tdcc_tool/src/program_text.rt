//! The program of a text.
ghost use Rattle.std.specs.Prelude.{◌≢◌, IfErr, IfOk};
ghost use Rattle.tdcc_reader.specs.declared.fault.ReadFault.TheVariants.{Memory as OutOfMemory};
ghost use Rattle.tdcc_tool.specs.Accepted.{IsTextOf};
ghost use Rattle.tdcc_tool.specs.TextFaults.{HasFault};

use agent_core::Program;
use derived_forms::{ExpandFault, expand};
use std::alloc::Global;
use tdcc_reader::{ReadFault, read_program as read_surface};

/// The core program of a text.
///
/// # Errors
///
/// The fault of a text that has none; `Memory` where an allocation fails.
pub fn program_of(alloc: Global, text: &[u8]) -> Result<Program, ReadFault>
    ensures found { IfOk result (IsTextOf text.now) }
    ensures fault { IfErr result (λ fault. fault ≢ OutOfMemory → HasFault text.now fault) }
{
    let surface = read_surface(alloc, text)?;
    match expand(alloc, &surface) {
        Ok(program) => {
            // For what this call says of the program: it is well formed.
            let _ = program.nodes();
            Ok(program)
        }
        Err(ExpandFault::TooManyNodes) => Err(ReadFault::TooManyNodes),
        Err(ExpandFault::TooManyCells) => Err(ReadFault::TooManyCells),
        Err(ExpandFault::Memory) => Err(ReadFault::Memory),
    }
}
