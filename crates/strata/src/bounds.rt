//! The bounds between the cells and nodes of a program.
ghost use Rattle.std.specs.Prelude.{◌≡◌, ◌<◌, ◌+◌, ◌^◌, ◌++◌, false, [], ◌∷◌, IfOk, OnOk, length, map};
ghost use Rattle.strata.specs.Items.{bound, node_bounds, program_bounds, NodeInside, AllInside};

use agent_core::{Constraint, Node, Program};
use order_tables::Bound;
use std::alloc::Global;
use token_system::Memory;

/// One bound more.
fn push_bound(list: &mut Vec<Bound>, low: u32, high: u32) -> Result<(), Memory>
    ensures { OnOk result (list.new.items ≡ list.old.items ++ bound low high false ∷ []) }
{
    list.push(Bound {
        low,
        high,
        negative: false,
    })?;
    Ok(())
}

/// A bound from each cell of the constraint.
fn push_asks(list: &mut Vec<Bound>, ask: &Constraint, to: u32, negative: bool) -> Result<(), Memory>
    ensures { OnOk result (list.new.items ≡ list.old.items ++ map (λ x. bound x.0 to negative) ask.now) }
{
    for pair in ask.list() {
        list.push(Bound {
            low: pair.0,
            high: to,
            negative,
        })?;
    }
    Ok(())
}

/// A bound to each cell of the constraint.
fn push_told(list: &mut Vec<Bound>, told: &Constraint, from: u32) -> Result<(), Memory>
    ensures { OnOk result (list.new.items ≡ list.old.items ++ map (λ x. bound from x.0 false) told.now) }
{
    for pair in told.list() {
        list.push(Bound {
            low: from,
            high: pair.0,
            negative: false,
        })?;
    }
    Ok(())
}

/// The bounds of node n, which is one of `size` nodes that are numbered after so many cells.
fn push_node(
    list: &mut Vec<Bound>,
    cells: u32,
    size: u32,
    n: u32,
    node: &Node,
) -> Result<(), Memory>
    requires n { n < size }
    requires inside { NodeInside cells size node.now }
    requires few { cells + size < 2 ^ 31 }
    ensures { OnOk result (list.new.items ≡ list.old.items ++ node_bounds cells n node.now) }
{
    let here = cells + n;
    match node {
        Node::Skip | Node::Hence { .. } | Node::Next { .. } => Ok(()),
        Node::Tell(told) => push_told(list, told, here),
        Node::Then { ask, body } => {
            push_bound(list, here, cells + *body)?;
            push_asks(list, ask, cells + *body, false)
        }
        Node::Else { ask, body } => {
            push_bound(list, here, cells + *body)?;
            push_asks(list, ask, cells + *body, true)
        }
        Node::Par { left, right } => {
            push_bound(list, here, cells + *left)?;
            push_bound(list, here, cells + *right)
        }
        Node::New { body, .. } => push_bound(list, here, cells + *body),
    }
}

/// The bounds of a program.
pub(crate) fn bounds_of(alloc: Global, program: &Program) -> Result<Vec<Bound>, Memory>
    requires inside { AllInside (length program.now.cells) program.now.nodes }
    requires few { length program.now.cells + length program.now.nodes < 2 ^ 31 }
    ensures { IfOk result (λ v. v.items ≡ program_bounds program.now) }
{
    let cells = program.cells().len() as u32;
    let size = program.nodes().len() as u32;
    let mut list = Vec::new(alloc);
    let mut n: u32 = 0;
    for node in program.nodes() {
        push_node(&mut list, cells, size, n, node)?;
        n += 1;
    }
    Ok(list)
}
