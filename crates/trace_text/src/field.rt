//! What a field of a line says, and telling it.
ghost use Rattle.std.specs.Prelude.{◌≡◌, ◌<◌, ◌^◌, IfErr, IfOk, IfSome, OnOk};
ghost use Rattle.agent_core.specs.Stores.{IsStore};
ghost use Rattle.trace_text.specs.Inputs.{declared_cell as number_of, text_fits as text_fits_cell, tokens_of, Denotes};
ghost use Rattle.trace_text.specs.Refusals.{RefusesField};
ghost use Rattle.trace_text.specs.Tellings.{TellsField};

use crate::fault::LineFault;
use crate::telling::tell_written;
use agent_core::Program;
use token_system::{Cell, Store, Written, fits, read_token};

/// The number of the declared cell of this name.
fn cell_named(program: &Program, name: &[u8]) -> Option<usize>
    ensures number { result ≡ number_of program.now name.now }
    ensures small { IfSome result (λ cell. cell < 2 ^ 32) }
{
    let declared = program.declared() as usize;
    program.cells()[..declared]
        .iter()
        .position(|decl| decl.name.bytes() == name)
}

/// Whether each token that the text means fits the cell.
fn text_fits(cell: Cell, written: Written) -> bool
    ensures { result ≡ text_fits_cell cell written }
{
    fits(cell, written.first)
        && match written.second {
            Some(second) => fits(cell, second),
            None => true,
        }
}

/// Reads a field that stands at this offset: the number of its cell, and what is written of it.
fn read_field(program: &Program, field: &[u8], offset: u32) -> Result<(u32, Written), LineFault>
    ensures said { IfOk result (λ read. Denotes program.now field.now (tokens_of read.0 read.1)) }
    ensures refused { IfErr result (RefusesField program.now (record { offset = offset; bytes = field.now })) }
{
    let Ok(written) = read_token(field) else {
        return Err(LineFault::BadToken { offset });
    };
    let name = &field[written.name_start..written.name_end];
    let Some(cell) = cell_named(program, name) else {
        return Err(LineFault::UnknownName { offset });
    };
    if !text_fits(program.cells()[cell].cell, written) {
        return Err(LineFault::WrongKind { offset });
    }
    Ok((cell as u32, written))
}

/// Reads a field that stands at this offset, and tells its tokens.
pub fn tell_field(
    program: &Program,
    field: &[u8],
    offset: u32,
    store: &mut Store,
) -> Result<(), LineFault>
    requires store { IsStore program.now store.old }
    ensures told { OnOk result (TellsField program.now field.now store.old store.new) }
    ensures refused { IfErr result (RefusesField program.now (record { offset = offset; bytes = field.now })) }
{
    let (cell, written) = read_field(program, field, offset)?;
    tell_written(program, cell, written, store)?;
    Ok(())
}
