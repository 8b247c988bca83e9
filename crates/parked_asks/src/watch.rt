//! The watch of a net: who is to be asked again when a cell is told, and who comes up at a stratum.
ghost use Rattle.std.specs.Prelude.{◌≡◌, ◌<◌, IfOk, OnOk, length, slice_get, slice_index_or, []};
ghost use Rattle.instant_net.specs.declared.parts.Atom.{Atom};
ghost use Rattle.instant_net.specs.Readers.{guard_ask_of};
ghost use Rattle.parked_asks.specs.Watches.{asks_for, names_cell, AddsAt, IsWatchOf, ListsGuards, ListsLeaves};

use crate::held::HeldAsks;
use crate::index::Index;
use instant_net::{Atom, Net};
use std::alloc::Global;
use token_system::Memory;

/// Of a net: the guards by the cells that they name, the leaves by their levels, and room to note which asks hold.
#[derive(Debug, Drop)]
pub struct Watch {
    pub guards: Index,
    pub leaves: Index,
    pub asks: HeldAsks,
}

impl Watch {
    /// The watch of the net, in which no ask is noted.
    pub fn open(alloc: Global, net: &Net) -> Result<Watch, Memory>
        ensures { IfOk result (IsWatchOf net.now) }
    {
        Ok(Watch {
            guards: guards_by_cell(alloc, net)?,
            leaves: leaves_by_level(alloc, net)?,
            asks: HeldAsks::none(alloc, net.guards())?,
        })
    }

    /// The guards that name the cell, ascending.
    pub fn of(&self, cell: u32) -> &[u32]
        requires { cell < length self.now.guards }
        ensures { result.now ≡ slice_index_or self.now.guards cell [] }
    {
        self.guards.of(cell)
    }
}

/// The guards of the net, each under the cells that it names.
fn guards_by_cell(alloc: Global, net: &Net) -> Result<Index, Memory>
    ensures { IfOk result (ListsGuards net.now) }
{
    let mut index = Index::empty(alloc, net.cells())?;
    for guard in 0..net.guards() {
        add_guard(net, &mut index, guard)?;
    }
    Ok(index)
}

/// Adds the guard under each cell that it names, once.
fn add_guard(net: &Net, index: &mut Index, guard: u32) -> Result<(), Memory>
    requires guard { guard < length net.now.guards }
    requires keys { length index.old ≡ length net.now.cells }
    ensures { OnOk result (AddsAt (λ cell. asks_for cell (guard_ask_of (slice_get net.now.guards guard))) guard index.old index.new) }
{
    let ask = net.ask(guard);
    for (place, atom) in ask.iter().enumerate() {
        if !is_asked_for(&ask[..place], atom.cell) {
            index.push(atom.cell, guard)?;
        }
    }
    Ok(())
}

/// Whether one of the atoms is of the cell.
fn is_asked_for(ask: &[Atom], cell: u32) -> bool
    ensures { result ≡ asks_for cell ask.now }
{
    for atom in ask {
        if atom.cell == cell {
            return true;
        }
    }
    false
}

/// The leaves of the net that tell, each under its level.
fn leaves_by_level(alloc: Global, net: &Net) -> Result<Index, Memory>
    ensures { IfOk result (ListsLeaves net.now) }
{
    let mut index = Index::empty(alloc, net.strata())?;
    for leaf in 0..net.leaves() {
        if let Some(level) = net.level(leaf) {
            index.push(level, leaf)?;
        }
    }
    Ok(index)
}
