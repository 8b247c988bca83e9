//! Cells and nodes of which it is not known yet whether they make a program.
ghost use Rattle.std.specs.Prelude.{◌≡◌, ◌≤◌, ◌<◌, ◌-◌, ◌↔◌, ◌⊎◌, IsTrue, length, filter_map};
ghost use Rattle.agent_core.specs.Agents.{agent_at};
ghost use Rattle.agent_core.specs.Listing.{IsListing};
ghost use Rattle.agent_core.specs.WellFormed.{IsAmong, IsInScope, IsConstraint, IsWithinLimits, Scoped, IsWellFormed, cell_of, count_up};
ghost use Rattle.agent_core.specs.Drafts.{locals_of, core_of};

use crate::limits::{MAX_CELLS, MAX_DECLARED, MAX_NODES};
use crate::node::{CellDecl, Constraint, Node};
use crate::preorder::is_preorder;
use token_system::{Token, fits};

/// The local cells of the new nodes around a place, innermost first.
#[derive(Drop)]
pub(crate) enum Around<'a> {
    Nothing,
    Within { cell: u32, outer: &'a Around<'a> },
}

impl Around<'_> {
    fn has(&self, wanted: u32) -> bool
        ensures { IsTrue result ↔ IsAmong (locals_of self.now) wanted }
    {
        match self {
            Around::Nothing => false,
            Around::Within { cell, outer } => wanted == *cell || outer.has(wanted),
        }
    }
}

/// Cells and nodes of which it is not known yet whether they make a program.
#[derive(Clone, Copy)]
pub(crate) struct Candidate<'a> {
    pub cells: &'a [CellDecl],
    pub declared: u32,
    pub nodes: &'a [Node],
}

impl Candidate<'_> {
    /// Whether the cell is declared, or a local one around the place.
    fn is_visible(self, around: &Around, cell: u32) -> bool
        ensures { IsTrue result ↔ ((cell < self.entry.declared) ⊎ IsAmong (locals_of around.now) cell) }
    {
        cell < self.declared || around.has(cell)
    }

    /// Whether the cell is visible, and the token fits it.
    fn is_in_scope(self, around: &Around, cell: u32, token: Token) -> bool
        ensures { IsTrue result ↔ IsInScope (core_of self.entry) (locals_of around.now) (record { 0 = cell; 1 = token }) }
    {
        if !self.is_visible(around, cell) {
            return false;
        }
        match self.cells.get(cell as usize) {
            Some(decl) => fits(decl.cell, token),
            None => false,
        }
    }

    /// Whether each token of the constraint is in scope.
    fn is_constraint(self, around: &Around, ask: &Constraint) -> bool
        ensures { IsTrue result ↔ IsConstraint (core_of self.entry) (locals_of around.now) ask.now }
    {
        for (cell, token) in ask.list() {
            if !self.is_in_scope(around, *cell, *token) {
                return false;
            }
        }
        true
    }

    /// Whether each constraint of the tree under node n is in scope.
    fn is_scoped(self, n: u32, around: &Around) -> bool
        requires tree { IsListing self.nodes.now }
        requires inside { n < length self.nodes.now }
        ensures { IsTrue result ↔ Scoped (core_of self.entry) (locals_of around.now) (agent_at self.entry.nodes.now n) }
    {
        match &self.nodes[n as usize] {
            Node::Skip => true,
            Node::Tell(ask) => self.is_constraint(around, ask),
            Node::Then { ask, body } | Node::Else { ask, body } => {
                self.is_constraint(around, ask) && self.is_scoped(*body, around)
            }
            Node::Par { left, right } => {
                self.is_scoped(*left, around) && self.is_scoped(*right, around)
            }
            Node::New { cell, body } => {
                let inside = Around::Within {
                    cell: *cell,
                    outer: &*around,
                };
                self.is_scoped(*body, &inside)
            }
            Node::Hence { body } | Node::Next { body } => self.is_scoped(*body, around),
        }
    }

    /// Whether the cells of the new nodes are the local cells, in order.
    fn has_news_in_order(self) -> bool
        requires { self.declared ≤ length self.cells.now }
        ensures { IsTrue result ↔ (filter_map cell_of self.entry.nodes.now ≡ count_up self.entry.declared (length self.entry.cells.now - self.entry.declared)) }
    {
        let mut next = self.declared as usize;
        for node in self.nodes {
            if let Node::New { cell, .. } = node {
                if next == self.cells.len() || *cell as usize != next {
                    return false;
                }
                next += 1;
            }
        }
        next == self.cells.len()
    }

    /// Whether the numbers of nodes and cells are within their limits.
    fn is_within_limits(self) -> bool
        ensures { IsTrue result ↔ IsWithinLimits (core_of self.entry) }
    {
        self.nodes.len() <= MAX_NODES
            && self.cells.len() <= MAX_CELLS
            && self.declared as usize <= MAX_DECLARED
            && self.declared as usize <= self.cells.len()
    }

    /// Whether these make a program.
    #[tactic(auto, using(crate::proofs::ListingTrees::has_node))]
    pub fn is_program(self) -> bool
        ensures { IsTrue result ↔ IsWellFormed (core_of self.entry) }
    {
        self.is_within_limits()
            && is_preorder(self.nodes)
            && self.has_news_in_order()
            && self.is_scoped(0, &Around::Nothing)
    }
}
