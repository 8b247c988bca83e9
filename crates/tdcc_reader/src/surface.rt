//! The surface of a program: its cells and its forms.
ghost use Rattle.std.specs.Prelude.{◌≡◌};
ghost use Rattle.tdcc_reader.specs.Texts.{IsSurface};

use agent_core::{CellDecl, Constraint};
use std::marker::Model;

/// A form of a program, as it is written. Its parts are named by their numbers, and a local cell by its number among
/// the program's cells.
#[derive(Debug, Drop)]
pub enum Form {
    /// Does nothing.
    Skip,
    /// Tells the constraint.
    Tell(Constraint),
    /// Runs the body once the store entails the constraint.
    Then { ask: Constraint, body: u32 },
    /// Runs the body where the final store of the instant does not entail the constraint.
    Else { ask: Constraint, body: u32 },
    /// Runs both parts.
    Par { left: u32, right: u32 },
    /// Runs the body with a local cell of its own.
    New { cell: u32, body: u32 },
    /// Runs the body at every later instant.
    Hence { body: u32 },
    /// Runs the body at the next instant.
    Next { body: u32 },
    /// Runs the body at every instant from now on.
    Always { body: u32 },
    /// Runs the body at the first instant, from now on, that entails the constraint.
    When { ask: Constraint, body: u32 },
    /// Runs the body up to the first instant that entails the constraint.
    Watch { body: u32, stop: Constraint },
    /// Runs the body on the instants that entail the constraint.
    Time { body: u32, clock: Constraint },
}

/// What is read of a text: the declared cells and then one local cell for each `new`, how many are declared, and the
/// forms in preorder.
#[derive(Debug, Drop)]
pub struct ParsedText {
    pub cells: Vec<CellDecl>,
    pub declared: u32,
    pub forms: Vec<Form>,
}

/// A program as it is written: the declared cells and then one local cell for each `new`, how many are declared, and
/// the forms in preorder.
#[derive(Debug, Drop)]
pub struct Surface {
    cells: Vec<CellDecl>,
    declared: u32,
    forms: Vec<Form>,
}

impl Model for Surface {
    ghost use Rattle.tdcc_reader.specs.Surfaces.{SurfaceProgram};
    ghost use Rattle.tdcc_reader.specs.Texts.{IsSurface};

    ghost Value = { SurfaceProgram };

    ghost view = { λ s. record { cells = s.cells.items; declared = s.declared; forms = s.forms.items } };

    ghost invariant = { λ s. IsSurface (record { cells = s.cells.items; declared = s.declared; forms = s.forms.items }) };
}

impl Surface {
    /// The surface of a program that is read.
    pub(crate) fn make(cells: Vec<CellDecl>, declared: u32, forms: Vec<Form>) -> Surface
        requires { IsSurface (record { cells = cells.items; declared = declared; forms = forms.items }) }
        ensures { result ≡ record { cells = cells.items; declared = declared; forms = forms.items } }
    {
        Surface {
            cells,
            declared,
            forms,
        }
    }

    /// The declared cells, and then the local ones.
    pub fn cells(&self) -> &[CellDecl]
        ensures all { result.now ≡ self.now.cells }
        ensures surface { IsSurface self.now }
    {
        self.cells.as_slice()
    }

    /// How many cells are declared.
    pub fn declared(&self) -> u32
        ensures number { result ≡ self.now.declared }
        ensures surface { IsSurface self.now }
    {
        self.declared
    }

    /// The forms in preorder; form 0 is the root.
    pub fn forms(&self) -> &[Form]
        ensures all { result.now ≡ self.now.forms }
        ensures surface { IsSurface self.now }
    {
        self.forms.as_slice()
    }
}
