//! What a field says of a local cell that there can be at an instant, and telling it.
ghost use Rattle.std.specs.Prelude.{◌≡◌, ◌⊎◌, IfOk, IfSome, IsNone, OnOk};
ghost use Rattle.token_system.specs.declared.cell.Cell.{Cell};
ghost use Rattle.token_system.specs.Stores.{after_tell, CanHold};
ghost use Rattle.certificate_text.specs.LocalCells.{are_births as can_be_births, told_both, IsLocalCell, IsSaidOfLocal};
ghost use Rattle.certificate_text.specs.OutReadings.{SaysOfLocal};

use crate::declared_field::both_fit;
use crate::local_token::{LocalToken, read_local_token};
use crate::out_line::made_by;
use agent_core::{Program, depth_of};
use std::alloc::Global;
use token_system::{Cell, CellName, Memory, Store};

/// Whether each birth is one up to the instant, and none is less than the one before it.
fn are_births(instant: u32, births: &[u32]) -> bool
    ensures { result ≡ can_be_births 0 instant births.now }
{
    let mut least = 0;
    for birth in births {
        if *birth < least || *birth > instant {
            return false;
        }
        least = *birth;
    }
    true
}

/// The local cell that the program can have under this name at the instant, if there is one.
fn local_cell(program: &Program, instant: u32, name: &CellName) -> Option<Cell>
    ensures found { IfSome result (IsLocalCell program.now instant name.now) }
    ensures none { IsNone result → (c : Cell) → ¬ (IsLocalCell program.now instant name.now c) }
{
    let CellName::Local { node, births } = name else {
        return None;
    };
    let Some(decl) = made_by(program, *node) else {
        return None;
    };
    let depth = depth_of(program.nodes(), *node as usize);
    if births.list().len() != depth + 1 || !are_births(instant, births.list()) {
        return None;
    }
    Some(decl.cell)
}

/// What the bytes say of a local cell that there can be at the instant, if they do: its name and the tokens, and the cell.
pub fn said_of_local(
    alloc: Global,
    program: &Program,
    instant: u32,
    bytes: &[u8],
) -> Result<Option<(LocalToken, Cell)>, Memory>
    ensures said { IfOk result (λ read. IfSome read (λ said. IsSaidOfLocal program.now instant bytes.now said.0.name said.1 said.0.first said.0.second)) }
    ensures none { IfOk result (λ read. IsNone read → ¬ (SaysOfLocal program.now instant bytes.now)) }
{
    let Some(said) = read_local_token(alloc, bytes)? else {
        return Ok(None);
    };
    let Some(cell) = local_cell(program, instant, &said.name) else {
        return Ok(None);
    };
    if !both_fit(cell, said.first, said.second) {
        return Ok(None);
    }
    Ok(Some((said, cell)))
}

/// Tells what is said of this local cell.
pub fn tell_said(said: LocalToken, cell: Cell, store: &mut Store) -> Result<(), Memory>
    requires first { CanHold store.old said.name cell said.first }
    requires second { IfSome said.second (CanHold (after_tell store.old said.name cell said.first) said.name cell) }
    ensures { OnOk result (store.new ≡ told_both said.name cell said.first said.second store.old) }
{
    match said.second {
        Some(second) => {
            store.tell(said.name.copy()?, cell, said.first)?;
            store.tell(said.name, cell, second)
        }
        None => store.tell(said.name, cell, said.first),
    }
}
