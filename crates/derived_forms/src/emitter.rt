//! The symbolic agents that are emitted so far.
ghost use Rattle.std.specs.Prelude.{◌≡◌, ◌+◌, ◌<◌, ◌≤◌, ◌^◌, [], ◌∷◌, ◌++◌, List, IfErr, IfOk, OnOk, length};
ghost use Rattle.agent_core.specs.Limits.{most_nodes};
ghost use Rattle.expansion_laws.specs.SymbolicAgents.{SymbolicAgent};

use crate::fault::ExpandFault;
use crate::flat_node::FlatNode;
use agent_core::MAX_NODES;
use std::alloc::{AllocError, Global};

/// The nodes of symbolic agents that stand behind one another, the last node first.
#[derive(Debug, Drop)]
pub(crate) struct Emitter {
    pub(crate) alloc: Global,
    pub(crate) flat_nodes: Vec<FlatNode>,
}

impl Emitter {
    ghost use Rattle.derived_forms.specs.Emitters.{emitted_nodes};
    ghost use Rattle.derived_forms.specs.FlatNodes.{flat_nodes};
    ghost use Rattle.derived_forms.specs.Refusals.{IsTooLarge};

    /// No symbolic agent.
    pub(crate) fn new(alloc: Global) -> Emitter
        ensures { emitted_nodes result ≡ [] }
    {
        Emitter {
            alloc,
            flat_nodes: Vec::new(alloc),
        }
    }

    /// Says whether there is room for so many more nodes.
    pub(crate) fn check_room(&self, more: usize) -> Result<(), ExpandFault>
        requires { length (emitted_nodes self.now) + more < 2 ^ 64 }
        ensures room { OnOk result (length (emitted_nodes self.now) + more ≤ most_nodes) }
        ensures fault { IfErr result (IsTooLarge (length (emitted_nodes self.now) + more)) }
    {
        if self.flat_nodes.len() + more > MAX_NODES {
            return Err(ExpandFault::TooManyNodes);
        }
        Ok(())
    }

    /// Puts a node in front of all others.
    pub(crate) fn put(&mut self, flat_node: FlatNode) -> Result<(), AllocError>
        ensures { OnOk result (emitted_nodes self.new ≡ flat_node ∷ emitted_nodes self.old) }
    {
        self.flat_nodes.push(flat_node)?;
        Ok(())
    }

    /// Puts a node in front of all others, where there is room for it.
    pub(crate) fn add(&mut self, flat_node: FlatNode) -> Result<(), ExpandFault>
        requires { length (emitted_nodes self.old) ≤ most_nodes }
        ensures added { OnOk result (emitted_nodes self.new ≡ flat_node ∷ emitted_nodes self.old) }
        ensures room { OnOk result (length (emitted_nodes self.old) + 1 ≤ most_nodes) }
        ensures fault { IfErr result (IsTooLarge (length (emitted_nodes self.old) + 1)) }
    {
        self.check_room(1)?;
        self.put(flat_node)?;
        Ok(())
    }

    /// Puts these nodes in front of all others.
    pub(crate) fn put_back(&mut self, mut body: Vec<FlatNode>) -> Result<(), AllocError>
        ensures { OnOk result (emitted_nodes self.new ≡ body.items ++ emitted_nodes self.old) }
    {
        while let Some(flat_node) = body.pop() {
            self.put(flat_node)?;
        }
        Ok(())
    }

    /// Puts copies of these nodes in front of all others.
    pub(crate) fn put_copy(&mut self, body: &[FlatNode]) -> Result<(), AllocError>
        ensures { OnOk result (emitted_nodes self.new ≡ body.now ++ emitted_nodes self.old) }
    {
        let mut left = body.len();
        while left > 0 {
            left -= 1;
            self.put(body[left].copy(self.alloc)?)?;
        }
        Ok(())
    }

    /// Takes the first symbolic agent off, and hands out its nodes in preorder.
    pub(crate) fn take_first(&mut self) -> Result<Vec<FlatNode>, AllocError>
        requires { length (emitted_nodes self.old) ≤ most_nodes }
        // No node is lost.
        ensures all { IfOk result (λ body. body.items ++ emitted_nodes self.new ≡ emitted_nodes self.old) }
        // What is taken is the first symbolic agent, whole.
        ensures first { (a : SymbolicAgent) (rest : List FlatNode) → emitted_nodes self.old ≡ flat_nodes a ++ rest
            → IfOk result (λ body. (body.items ≡ flat_nodes a) × (emitted_nodes self.new ≡ rest)) }
    {
        let mut body = Vec::new(self.alloc);
        let mut open = 1usize;
        while let Some(flat_node) = self.flat_nodes.pop() {
            open = open - 1 + flat_node.part_count();
            body.push(flat_node)?;
            if open == 0 {
                return Ok(body);
            }
        }
        Ok(body)
    }
}
