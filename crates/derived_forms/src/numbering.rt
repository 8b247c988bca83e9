//! The nodes of an agent, from the list of them in preorder.
ghost use Rattle.std.specs.Prelude.{◌≡◌, ◌+◌, ◌<◌, ◌≤◌, ◌^◌, ◌∷◌, ◌++◌, ℕ, suc, List, IfOk, OnOk, length, reverse};
ghost use Rattle.agent_core.specs.Limits.{most_nodes};
ghost use Rattle.agent_core.specs.Agents.{Agent};
ghost use Rattle.agent_core.specs.Listing.{listing, size};
ghost use Rattle.derived_forms.specs.Numbered.{agent_flat_nodes, first_node, agent_first_flat_node, part_ends};

use crate::flat_node::FlatNode;
use agent_core::Node;
use std::alloc::{AllocError, Global};

/// The node with this number. The agents behind it end at these numbers, the first one's last; the node's own agent
/// is among them afterwards, in place of its parts.
fn node_of(flat_node: FlatNode, number: u32, ends: &mut Vec<u32>) -> Result<Node, AllocError>
    requires { number + 1 < 2 ^ 32 }
    ensures node { (a : Agent) (later : List ℕ) → flat_node ≡ agent_first_flat_node a
        → reverse ends.old.items ≡ part_ends (suc number) a ++ later
        → IfOk result (λ node. node ≡ first_node number a) }
    ensures ends { (a : Agent) (later : List ℕ) → flat_node ≡ agent_first_flat_node a
        → reverse ends.old.items ≡ part_ends (suc number) a ++ later
        → OnOk result (reverse ends.new.items ≡ (number + size a) ∷ later) }
{
    let body = number + 1;
    match flat_node {
        FlatNode::Skip => {
            ends.push(body)?;
            Ok(Node::Skip)
        }
        FlatNode::Tell(told) => {
            ends.push(body)?;
            Ok(Node::Tell(told))
        }
        FlatNode::Then(ask) => Ok(Node::Then { ask, body }),
        FlatNode::Else(ask) => Ok(Node::Else { ask, body }),
        FlatNode::Par => Ok(Node::Par {
            left: body,
            right: ends.pop().unwrap_or(body),
        }),
        FlatNode::New { binder } => Ok(Node::New { cell: binder, body }),
        FlatNode::Hence => Ok(Node::Hence { body }),
        FlatNode::Next => Ok(Node::Next { body }),
    }
}

/// The nodes of an agent, which is given by its nodes in preorder.
pub(crate) fn number_nodes(
    alloc: Global,
    mut flat_nodes: Vec<FlatNode>,
) -> Result<Vec<Node>, AllocError>
    requires { length flat_nodes.items ≤ most_nodes }
    ensures { (a : Agent) → flat_nodes.items ≡ agent_flat_nodes a → IfOk result (λ nodes. nodes.items ≡ listing 0 a) }
{
    let mut ends = Vec::new(alloc);
    let mut nodes = Vec::new(alloc);
    while let Some(flat_node) = flat_nodes.pop() {
        let number = flat_nodes.len() as u32;
        nodes.push(node_of(flat_node, number, &mut ends)?)?;
    }
    nodes.reverse();
    Ok(nodes)
}
