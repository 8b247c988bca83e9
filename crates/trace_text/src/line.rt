//! Reading a trace line.
ghost use Rattle.std.specs.Prelude.{◌≡◌, ◌≤◌, length, IfErr, IfOk, OnOk};
ghost use Rattle.std.specs.FinMap as map;
ghost use Rattle.trace_text.specs.Limits.{longest_trace_line};
ghost use Rattle.trace_text.specs.Fields.{is_blank as is_blank_byte, fields};
ghost use Rattle.trace_text.specs.Inputs.{GivesInput};
ghost use Rattle.trace_text.specs.Refusals.{RefusesLine, RefusesFields};
ghost use Rattle.trace_text.specs.Tellings.{TellsFields};

use crate::fault::LineFault;
use crate::field::tell_field;
use crate::limits::LONGEST_TRACE_LINE;
use agent_core::Program;
use std::alloc::Global;
use token_system::Store;

fn is_blank(byte: u8) -> bool
    ensures { result ≡ is_blank_byte byte }
{
    byte == b' ' || byte == b'\t' || byte == b'\r'
}

/// Tells the tokens of each field of a line to a store of which nothing is told.
fn tell_fields(program: &Program, line: &[u8], store: &mut Store) -> Result<(), LineFault>
    requires short { length line.now ≤ longest_trace_line }
    requires nothing_told { store.old ≡ map.empty }
    ensures told { OnOk result (TellsFields program.now (fields line.now) store.old store.new) }
    ensures refused { IfErr result (RefusesFields program.now (fields line.now)) }
{
    let mut offset: u32 = 0;
    for part in line.split(|byte| is_blank(*byte)) {
        if !part.is_empty() {
            tell_field(program, part, offset, store)?;
        }
        offset += part.len() as u32 + 1;
    }
    Ok(())
}

/// Reads a trace line: the least store over the declared cells that entails all its tokens. The
/// line has no line feed at its end. Its first field that is refused decides what is answered, and
/// before that a line of more than `LONGEST_TRACE_LINE` bytes is refused whole.
pub fn read_input(alloc: Global, program: &Program, line: &[u8]) -> Result<Store, LineFault>
    ensures given { IfOk result (GivesInput program.now line.now) }
    ensures refused { IfErr result (RefusesLine program.now line.now) }
{
    if line.len() > LONGEST_TRACE_LINE {
        return Err(LineFault::LineTooLong);
    }
    let mut input = Store::new(alloc);
    tell_fields(program, line, &mut input)?;
    Ok(input)
}
