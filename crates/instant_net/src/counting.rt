//! How many leaves there are.
ghost use Rattle.std.specs.Prelude.{◌≡◌, ℕ, ◌<◌, ◌≤◌, length};
ghost use Rattle.agent_core.specs.Agents.{agent_at};
ghost use Rattle.agent_core.specs.Limits.{most_nodes};
ghost use Rattle.agent_laws.specs.Laws.{AreClosures};
ghost use Rattle.instant_net.specs.Limits.{most_roots};
ghost use Rattle.instant_net.specs.Programs.{agent_leaf_count, root_leaves};

use agent_core::{Closure, Node, Program};

/// How many leaves there are below the node, within the instant.
fn node_leaves(program: &Program, node: u32) -> u64
    requires { node < length program.now.nodes }
    ensures count { result ≡ agent_leaf_count (agent_at program.now.nodes node) }
    ensures bounded { result ≤ most_nodes }
{
    match &program.nodes()[node as usize] {
        Node::Skip | Node::Tell(_) | Node::Hence { .. } | Node::Next { .. } => 1,
        Node::Then { body, .. } | Node::Else { body, .. } | Node::New { body, .. } => {
            node_leaves(program, *body)
        }
        Node::Par { left, right } => node_leaves(program, *left) + node_leaves(program, *right),
    }
}

/// How many leaves the roots have.
pub(crate) fn count_leaves(program: &Program, roots: &[Closure]) -> u64
    requires closures { AreClosures program.now roots.now }
    requires few { length roots.now ≤ most_roots }
    ensures { (t : ℕ) → result ≡ length (root_leaves program.now roots.now t) }
{
    let mut leaves = 0;
    for root in roots {
        leaves += node_leaves(program, root.node);
    }
    leaves
}
