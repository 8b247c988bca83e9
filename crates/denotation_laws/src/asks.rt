//! The store after a constraint is told.
ghost use Rattle.std.specs.Prelude.{◌≡◌, OnOk, slice_get};
ghost use Rattle.agent_core.specs.Scope.{TokenFits, ConstraintFits};
ghost use Rattle.agent_core.specs.Stores.{IsStore};
ghost use Rattle.agent_core.specs.Tellings as tellings;

use agent_core::{Constraint, Program, name_of};
use std::alloc::Global;
use token_system::{Memory, Store, Token};

/// Tells the token of the cell with this number.
fn tell(
    alloc: Global,
    program: &Program,
    births: &[u32],
    cell: u32,
    token: Token,
    store: &mut Store,
) -> Result<(), Memory>
    requires store { IsStore program.now store.old }
    requires fits { TokenFits program.now births.now (record { 0 = cell; 1 = token }) }
    ensures { OnOk result (store.new ≡ tellings.tell_at (slice_get program.now.cells cell) program.now births.now store.old cell token) }
{
    let name = name_of(alloc, program, births, cell)?;
    let decl = &program.cells()[cell as usize];
    store.tell(name, decl.cell, token)
}

/// Tells each token of the constraint.
pub(crate) fn tell_all(
    alloc: Global,
    program: &Program,
    births: &[u32],
    ask: &Constraint,
    store: &mut Store,
) -> Result<(), Memory>
    requires store { IsStore program.now store.old }
    requires fits { ConstraintFits program.now births.now ask.now }
    ensures { OnOk result (store.new ≡ tellings.tell_all program.now births.now ask.now store.old) }
{
    for (cell, token) in ask.list() {
        tell(alloc, program, births, *cell, *token, store)?;
    }
    Ok(())
}
