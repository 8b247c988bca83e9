//! The text of an agent, from its nodes in preorder.
ghost use Rattle.std.specs.Prelude.{◌≡◌, ◌++◌, OnOk, codes, reverse};
ghost use Rattle.agent_core.specs.Agents.{agent_at};
ghost use Rattle.agent_core.specs.Listing.{IsListing};
ghost use Rattle.core_text.specs.CoreTexts.{constraint_text, decl_at, agent_text};
ghost use Rattle.core_text.specs.Beginnings.{beginning, pending_of};

use crate::cells::write_decl_at;
use crate::constraints::write_ask;
use agent_core::{CellDecl, Constraint, Node};
use token_system::Memory;

/// What is still to be written of an agent.
#[derive(Clone, Copy, Debug, PartialEq, Eq)]
enum Pending {
    /// The next node with its parts, where it is to be one unit or not.
    Part { as_unit: bool },
    /// The bars between the parts of a par.
    Bars,
    /// The brace behind a par.
    Brace,
}

/// A body, and the left part of a par.
const UNIT: Pending = Pending::Part { as_unit: true };

/// The right part of a par, and the root.
const AGENT: Pending = Pending::Part { as_unit: false };

/// Appends `if`, the constraint and the word behind it.
fn write_if(
    cells: &[CellDecl],
    ask: &Constraint,
    word: &[u8],
    into: &mut Vec<u8>,
) -> Result<(), Memory>
    ensures { OnOk result (into.new.items ≡ into.old.items ++ (codes "if " ++ constraint_text cells.now ask.now ++ word.now)) }
{
    into.extend_from_slice(b"if ")?;
    write_ask(cells, ask, into)?;
    into.extend_from_slice(word)?;
    Ok(())
}

/// Appends `new`, the local cell and `in`.
fn write_new(cells: &[CellDecl], cell: u32, into: &mut Vec<u8>) -> Result<(), Memory>
    ensures { OnOk result (into.new.items ≡ into.old.items ++ (codes "new " ++ decl_at cells.now cell ++ codes " in ")) }
{
    into.extend_from_slice(b"new ")?;
    write_decl_at(cells, cell, into)?;
    into.extend_from_slice(b" in ")?;
    Ok(())
}

/// Appends the text of a node up to its first part.
fn write_beginning(
    cells: &[CellDecl],
    node: &Node,
    as_unit: bool,
    into: &mut Vec<u8>,
) -> Result<(), Memory>
    ensures { OnOk result (into.new.items ≡ into.old.items ++ beginning cells.now as_unit node.now) }
{
    match node {
        Node::Skip => into.extend_from_slice(b"skip"),
        Node::Tell(told) => write_ask(cells, told, into),
        Node::Then { ask, .. } => write_if(cells, ask, b" then ", into),
        Node::Else { ask, .. } => write_if(cells, ask, b" else ", into),
        Node::Par { .. } if as_unit => into.extend_from_slice(b"{ "),
        Node::Par { .. } => Ok(()),
        Node::New { cell, .. } => write_new(cells, *cell, into),
        Node::Hence { .. } => into.extend_from_slice(b"hence "),
        Node::Next { .. } => into.extend_from_slice(b"next "),
    }
}

/// Adds what is to be written behind the beginning of the node.
fn push_parts(node: &Node, as_unit: bool, pending: &mut Vec<Pending>) -> Result<(), Memory>
    ensures { OnOk result (reverse pending.new.items ≡ pending_of as_unit node.now ++ reverse pending.old.items) }
{
    match node {
        Node::Skip | Node::Tell(_) => {}
        Node::Par { .. } => {
            if as_unit {
                pending.push(Pending::Brace)?;
            }
            pending.push(AGENT)?;
            pending.push(Pending::Bars)?;
            pending.push(UNIT)?;
        }
        Node::Then { .. }
        | Node::Else { .. }
        | Node::New { .. }
        | Node::Hence { .. }
        | Node::Next { .. } => pending.push(UNIT)?,
    }
    Ok(())
}

/// Appends the agent that these nodes are.
pub(crate) fn write_agent(
    cells: &[CellDecl],
    nodes: &[Node],
    into: &mut Vec<u8>,
) -> Result<(), Memory>
    requires { IsListing nodes.now }
    ensures { OnOk result (into.new.items ≡ into.old.items ++ agent_text cells.now (agent_at nodes.now 0)) }
{
    let mut pending = Vec::new(*into.allocator());
    pending.push(AGENT)?;
    let mut at = 0;
    while let Some(next) = pending.pop() {
        match next {
            Pending::Bars => into.extend_from_slice(b" || ")?,
            Pending::Brace => into.extend_from_slice(b" }")?,
            Pending::Part { as_unit } => {
                let node = &nodes[at];
                write_beginning(cells, node, as_unit, into)?;
                push_parts(node, as_unit, &mut pending)?;
                at += 1;
            }
        }
    }
    Ok(())
}
