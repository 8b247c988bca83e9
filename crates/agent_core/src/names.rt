//! The names of cells under births.
ghost use Rattle.std.specs.Prelude.{◌≡◌, ◌<◌, ◌≤◌, length, position, IfOk};
ghost use Rattle.agent_core.specs.declared.node.CellDecl.{CellDecl};
ghost use Rattle.agent_core.specs.Listing.{IsListing};
ghost use Rattle.agent_core.specs.Names as names;

use crate::node::Node;
use crate::program::Program;
use std::alloc::Global;
use token_system::{Births, CellName, Memory};

/// The first new node of the cell.
fn first_new(nodes: &[Node], cell: u32) -> Option<usize>
    ensures { result ≡ position (names.is_new_of cell) nodes.now }
{
    nodes.iter().position(|node| node.is_new_of(cell))
}

/// The new node of a local cell.
fn new_of(nodes: &[Node], cell: u32) -> usize
    ensures { result ≡ names.new_of nodes.now cell }
{
    match first_new(nodes, cell) {
        Some(node) => node,
        None => 0,
    }
}

/// How many new nodes enclose the node.
pub fn depth_of(nodes: &[Node], wanted: usize) -> usize
    requires tree { IsListing nodes.now }
    requires inside { wanted < length nodes.now }
    ensures depth { result ≡ names.depth_of nodes.now wanted }
    ensures shallow { result ≤ wanted }
{
    let mut at = 0;
    let mut depth = 0;
    while at != wanted {
        match &nodes[at] {
            Node::Par { left, right } => {
                at = if wanted < *right as usize {
                    *left as usize
                } else {
                    *right as usize
                };
            }
            Node::New { body, .. } => {
                at = *body as usize;
                depth += 1;
            }
            Node::Then { body, .. }
            | Node::Else { body, .. }
            | Node::Hence { body }
            | Node::Next { body } => at = *body as usize,
            Node::Skip | Node::Tell(_) => unreachable!(),
        }
    }
    depth
}

/// The name of a cell under the births of the new nodes around it, outermost first: a declared cell
/// is named by its number, and a local one by its new node and the births up to that node's own.
pub fn name_of(
    alloc: Global,
    program: &Program,
    births: &[u32],
    cell: u32,
) -> Result<CellName, Memory>
    requires { (decl : CellDecl) × names.Names program.now (names.name_of program.now births.now cell) decl }
    ensures { IfOk result (λ name. name ≡ names.name_of program.now births.now cell) }
{
    if cell < program.declared() {
        return Ok(CellName::Declared(cell));
    }
    let nodes = program.nodes();
    let node = new_of(nodes, cell);
    let own = &births[..depth_of(nodes, node) + 1];
    Ok(CellName::Local {
        node: node as u32,
        births: Births::from_slice(alloc, own)?,
    })
}
