//! Telling the tokens of a field to a store.
ghost use Rattle.std.specs.Prelude.{◌≡◌, [], OnOk};
ghost use Rattle.agent_core.specs.Stores.{IsStore};
ghost use Rattle.agent_core.specs.Scope.{TokenFits, ConstraintFits};
ghost use Rattle.agent_core.specs.Tellings.{tell_all};
ghost use Rattle.trace_text.specs.Inputs.{tokens_of};
ghost use Rattle.trace_text.specs.Tellings.{told_one};

use agent_core::Program;
use token_system::{CellName, Memory, Store, Token, Written};

/// Tells the token of a declared cell.
fn tell(program: &Program, cell: u32, token: Token, store: &mut Store) -> Result<(), Memory>
    requires fits { TokenFits program.now [] (cell, token) }
    requires store { IsStore program.now store.old }
    ensures { OnOk result (store.new ≡ told_one program.now (cell, token) store.old) }
{
    let name = CellName::Declared(cell);
    store.tell(name, program.cells()[cell as usize].cell, token)
}

/// Tells the tokens that a text means, of this declared cell.
pub fn tell_written(
    program: &Program,
    cell: u32,
    written: Written,
    store: &mut Store,
) -> Result<(), Memory>
    requires fits { ConstraintFits program.now [] (tokens_of cell written) }
    requires store { IsStore program.now store.old }
    ensures { OnOk result (store.new ≡ tell_all program.now [] (tokens_of cell written) store.old) }
{
    tell(program, cell, written.first, store)?;
    match written.second {
        Some(second) => tell(program, cell, second, store),
        None => Ok(()),
    }
}
