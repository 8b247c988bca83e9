//! A program, and what makes it one.
ghost use Rattle.std.specs.Prelude.{◌≡◌, ◌↔◌, IfSome, IsSome};
ghost use Rattle.agent_core.specs.WellFormed.{IsWellFormed};

use crate::candidate::Candidate;
use crate::node::{CellDecl, Node};
use std::marker::Model;

/// A program: its cells, how many of them are declared, and its nodes.
#[derive(Debug, Drop)]
pub struct Program {
    cells: Vec<CellDecl>,
    declared: u32,
    nodes: Vec<Node>,
}

impl Model for Program {
    ghost use Rattle.agent_core.specs.Programs.{CoreProgram};
    ghost use Rattle.agent_core.specs.WellFormed.{IsWellFormed};

    ghost Value = { CoreProgram };

    ghost view = { λ p. record { cells = p.cells.items; declared = p.declared; nodes = p.nodes.items } };

    ghost invariant = { λ p. IsWellFormed (record { cells = p.cells.items; declared = p.declared; nodes = p.nodes.items }) };
}

impl Program {
    /// The program with these cells, of which the first `declared` are declared and the others
    /// local, and with these nodes. It takes no memory; what is refused is dropped.
    pub fn make(cells: Vec<CellDecl>, declared: u32, nodes: Vec<Node>) -> Option<Program>
        ensures exactly { IsSome result ↔ IsWellFormed (record { cells = cells.items; declared = declared; nodes = nodes.items }) }
        ensures same { IfSome result (λ p. p ≡ record { cells = cells.items; declared = declared; nodes = nodes.items }) }
    {
        let candidate = Candidate {
            cells: &cells,
            declared,
            nodes: &nodes,
        };
        if candidate.is_program() {
            Some(Program {
                cells,
                declared,
                nodes,
            })
        } else {
            None
        }
    }

    /// The declared cells, and then the local ones.
    pub fn cells(&self) -> &[CellDecl]
        ensures all { result.now ≡ self.now.cells }
        ensures program { IsWellFormed self.now }
    {
        self.cells.as_slice()
    }

    /// How many cells are declared.
    pub fn declared(&self) -> u32
        ensures number { result ≡ self.now.declared }
        ensures program { IsWellFormed self.now }
    {
        self.declared
    }

    /// The nodes in preorder; node 0 is the root.
    pub fn nodes(&self) -> &[Node]
        ensures all { result.now ≡ self.now.nodes }
        ensures program { IsWellFormed self.now }
    {
        self.nodes.as_slice()
    }
}
