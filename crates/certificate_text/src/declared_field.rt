//! What a field says of a declared cell, and telling it.
ghost use Rattle.std.specs.Prelude.{◌≡◌, ◌<◌, ◌^◌, [], IfErr, IfSome, IsNone, OnOk};
ghost use Rattle.agent_core.specs.Stores.{IsStore};
ghost use Rattle.agent_core.specs.Scope.{ConstraintFits, TokenFits};
ghost use Rattle.agent_core.specs.Tellings.{tell_all};
ghost use Rattle.trace_text.specs.Inputs.{declared_cell as number_of, tokens_of, Denotes};
ghost use Rattle.trace_text.specs.Tellings.{told_one, TellsField};
ghost use Rattle.certificate_text.specs.BadPlaces.{IsFaultAt};
ghost use Rattle.certificate_text.specs.InLines.{SaysTokens};
ghost use Rattle.certificate_text.specs.LocalCells.{both_fit as tokens_fit};

use crate::fault::EntryLineFault;
use agent_core::Program;
use token_system::{Cell, CellName, Memory, Store, Token, Written, fits, read_token};

/// The number of the declared cell of this name.
fn cell_named(program: &Program, name: &[u8]) -> Option<usize>
    ensures number { result ≡ number_of program.now name.now }
    ensures small { IfSome result (λ cell. cell < 2 ^ 32) }
{
    let declared = program.declared() as usize;
    program.cells()[..declared]
        .iter()
        .position(|decl| decl.name.bytes() == name)
}

/// Whether a token fits the cell, and a second one, where there is one.
pub fn both_fit(cell: Cell, first: Token, second: Option<Token>) -> bool
    ensures { result ≡ tokens_fit cell first second }
{
    fits(cell, first)
        && match second {
            Some(second) => fits(cell, second),
            None => true,
        }
}

/// What the bytes say of a declared cell, if they do: its number, and what is written of it.
pub fn said_of_declared(program: &Program, bytes: &[u8]) -> Option<(u32, Written)>
    ensures said { IfSome result (λ said. Denotes program.now bytes.now (tokens_of said.0 said.1)) }
    ensures none { IsNone result → ¬ (SaysTokens program.now bytes.now) }
{
    let Ok(written) = read_token(bytes) else {
        return None;
    };
    let name = &bytes[written.name_start..written.name_end];
    let Some(cell) = cell_named(program, name) else {
        return None;
    };
    if !both_fit(program.cells()[cell].cell, written.first, written.second) {
        return None;
    }
    Some((cell as u32, written))
}

/// Tells the token of a declared cell.
fn tell(program: &Program, cell: u32, token: Token, store: &mut Store) -> Result<(), Memory>
    requires fits { TokenFits program.now [] (cell, token) }
    requires store { IsStore program.now store.old }
    ensures { OnOk result (store.new ≡ told_one program.now (cell, token) store.old) }
{
    let name = CellName::Declared(cell);
    store.tell(name, program.cells()[cell as usize].cell, token)
}

/// Tells the tokens that a text means, of this declared cell.
pub fn tell_written(
    program: &Program,
    cell: u32,
    written: Written,
    store: &mut Store,
) -> Result<(), Memory>
    requires fits { ConstraintFits program.now [] (tokens_of cell written) }
    requires store { IsStore program.now store.old }
    ensures { OnOk result (store.new ≡ tell_all program.now [] (tokens_of cell written) store.old) }
{
    tell(program, cell, written.first, store)?;
    match written.second {
        Some(second) => tell(program, cell, second, store),
        None => Ok(()),
    }
}

/// Tells the tokens of a declared cell that the field at this offset says.
pub fn tell_declared(
    program: &Program,
    field: &[u8],
    offset: u32,
    store: &mut Store,
) -> Result<(), EntryLineFault>
    requires store { IsStore program.now store.old }
    ensures told { OnOk result (TellsField program.now field.now store.old store.new) }
    ensures bad { IfErr result (IsFaultAt (λ place. (place ≡ offset) × ¬ (SaysTokens program.now field.now))) }
{
    let Some((cell, written)) = said_of_declared(program, field) else {
        return Err(EntryLineFault::Bad { offset });
    };
    tell_written(program, cell, written, store)?;
    Ok(())
}
