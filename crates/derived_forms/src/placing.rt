//! The cells of a symbolic agent's program: each new has one of its own, and constraints name them.
ghost use Rattle.std.specs.Prelude.{◌≡◌, ◌+◌, ◌<◌, ◌^◌, [], ◌∷◌, ◌++◌, List, IfOk, OnOk, length, map, option_to_list, reverse};
ghost use Rattle.expansion_laws.specs.Numbering.{Binding as Place, bound_agent, bound_constraint, bound_cell};
ghost use Rattle.expansion_laws.specs.SymbolicAgents.{SymbolicAgent};
ghost use Rattle.derived_forms.specs.Numbered.{agent_flat_nodes, agent_first_flat_node};
ghost use Rattle.derived_forms.specs.FlatNodes.{first_flat_node, binder_of, flat_nodes};
ghost use Rattle.derived_forms.specs.Placing.{AreScopes, Work, part_works, placed_agent, scope_of};

use crate::flat_node::FlatNode;
use agent_core::Constraint;
use std::alloc::{AllocError, Global};

/// A binder, and the cell that it stands for.
#[derive(Clone, Copy, Debug, PartialEq, Eq)]
struct Binding {
    binder: u32,
    cell: u32,
}

/// The binders in scope, the newest last, and how many of them are in scope at each part that is still to come.
#[derive(Debug, Drop)]
struct Scope {
    placed: Vec<Binding>,
    kept: Vec<usize>,
    next: u32,
}

/// The cell of a binder.
fn bound_cell(placed: &[Binding], binder: u32) -> u32
    ensures { result ≡ bound_cell (scope_of placed.now) binder }
{
    let mut left = placed.len();
    while left > 0 {
        left -= 1;
        if placed[left].binder == binder {
            return placed[left].cell;
        }
    }
    binder
}

impl Scope {
    /// The constraint by its cells.
    fn bound_constraint(&self, alloc: Global, ask: &Constraint) -> Result<Constraint, AllocError>
        ensures { IfOk result (λ made. made ≡ bound_constraint (scope_of self.now.placed.items) ask.now) }
    {
        let asked = ask.list();
        let mut list = Vec::new(alloc);
        for (binder, token) in asked {
            list.push((bound_cell(&self.placed, *binder), *token))?;
        }
        Ok(Constraint::make(list))
    }

    /// A symbolic agent is whole: the next part that is to come has the scope that it had.
    fn leave(&mut self)
        ensures left { (scope : List Place) (outer : List (List Place)) → AreScopes self.old (scope ∷ outer)
            → AreScopes self.new outer }
        ensures next { self.new.next ≡ self.old.next }
    {
        if let Some(count) = self.kept.pop() {
            self.placed.truncate(count);
        }
    }

    /// The flat node by its cells.
    fn place(&mut self, alloc: Global, flat_node: FlatNode) -> Result<FlatNode, AllocError>
        requires { self.old.next + 1 < 2 ^ 32 }
        ensures placed { (w : Work) (outer : List (List Place)) → flat_node ≡ first_flat_node w.symbolic
            → w.next ≡ self.old.next
            → AreScopes self.old (w.scope ∷ outer)
            → IfOk result (λ placed. placed ≡ agent_first_flat_node (placed_agent w)) }
        ensures scopes { (w : Work) (outer : List (List Place)) → flat_node ≡ first_flat_node w.symbolic
            → w.next ≡ self.old.next
            → AreScopes self.old (w.scope ∷ outer)
            → OnOk result (AreScopes self.new (map (λ (part : Work). part.scope) (part_works w) ++ outer)) }
        ensures next { OnOk result (self.new.next ≡ self.old.next + length (option_to_list (binder_of flat_node))) }
    {
        match flat_node {
            FlatNode::Tell(told) => {
                let placed = FlatNode::Tell(self.bound_constraint(alloc, &told)?);
                self.leave();
                Ok(placed)
            }
            FlatNode::Skip => {
                self.leave();
                Ok(FlatNode::Skip)
            }
            FlatNode::Then(ask) => Ok(FlatNode::Then(self.bound_constraint(alloc, &ask)?)),
            FlatNode::Else(ask) => Ok(FlatNode::Else(self.bound_constraint(alloc, &ask)?)),
            FlatNode::Par => {
                self.kept.push(self.placed.len())?;
                Ok(FlatNode::Par)
            }
            FlatNode::New { binder } => {
                let cell = self.next;
                self.placed.push(Binding { binder, cell })?;
                self.next += 1;
                Ok(FlatNode::New { binder: cell })
            }
            other => Ok(other),
        }
    }
}

/// The nodes of a symbolic agent in preorder, by their cells. They are given with the last one first, and so many
/// cells are declared.
pub(crate) fn place_cells(
    alloc: Global,
    declared: u32,
    mut emitted: Vec<FlatNode>,
) -> Result<Vec<FlatNode>, AllocError>
    requires { declared + length emitted.items < 2 ^ 32 }
    ensures placed { (d : SymbolicAgent) → reverse emitted.items ≡ flat_nodes d
        → IfOk result (λ placed. placed.items ≡ agent_flat_nodes (bound_agent [] declared d)) }
    ensures size { IfOk result (λ placed. length placed.items ≡ length emitted.items) }
{
    let mut scope = Scope {
        placed: Vec::new(alloc),
        kept: Vec::new(alloc),
        next: declared,
    };
    let mut placed = Vec::new(alloc);
    while let Some(flat_node) = emitted.pop() {
        placed.push(scope.place(alloc, flat_node)?)?;
    }
    Ok(placed)
}
