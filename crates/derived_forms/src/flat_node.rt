//! Symbolic agents as lists of their nodes.
ghost use Rattle.std.specs.Prelude.{◌≡◌, IfOk};
ghost use Rattle.derived_forms.specs.FlatNodes.{binder_of, part_count};

use crate::constraint::constraint_copy;
use agent_core::Constraint;
use std::alloc::{AllocError, Global};

/// A node of a symbolic agent. Its parts follow it in preorder, so it names none of them; a cell is named by its
/// binder.
#[derive(Debug, Drop)]
pub(crate) enum FlatNode {
    /// Does nothing.
    Skip,
    /// Tells the constraint.
    Tell(Constraint),
    /// Runs its part once the store entails the constraint.
    Then(Constraint),
    /// Runs its part where the final store of the instant does not entail the constraint.
    Else(Constraint),
    /// Runs both of its parts.
    Par,
    /// Runs its part with a local cell of its own.
    New { binder: u32 },
    /// Runs its part at every later instant.
    Hence,
    /// Runs its part at the next instant.
    Next,
}

impl FlatNode {
    /// The flat node with memory of its own.
    pub(crate) fn copy(&self, alloc: Global) -> Result<FlatNode, AllocError>
        ensures { IfOk result (λ copy. copy ≡ self.now) }
    {
        Ok(match self {
            FlatNode::Skip => FlatNode::Skip,
            FlatNode::Tell(told) => FlatNode::Tell(constraint_copy(alloc, told)?),
            FlatNode::Then(ask) => FlatNode::Then(constraint_copy(alloc, ask)?),
            FlatNode::Else(ask) => FlatNode::Else(constraint_copy(alloc, ask)?),
            FlatNode::Par => FlatNode::Par,
            FlatNode::New { binder } => FlatNode::New { binder: *binder },
            FlatNode::Hence => FlatNode::Hence,
            FlatNode::Next => FlatNode::Next,
        })
    }

    /// How many parts the node has.
    pub(crate) fn part_count(&self) -> usize
        ensures { result ≡ part_count self.now }
    {
        match self {
            FlatNode::Skip | FlatNode::Tell(_) => 0,
            FlatNode::Par => 2,
            _ => 1,
        }
    }

    /// The binder of a new.
    pub(crate) fn binder(&self) -> Option<u32>
        ensures { result ≡ binder_of self.now }
    {
        match self {
            FlatNode::New { binder } => Some(*binder),
            _ => None,
        }
    }
}
