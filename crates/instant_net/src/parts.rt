//! What a net is made of.
ghost use Rattle.std.specs.Prelude.{◌≡◌};

use agent_core::Closure;
use smallvec::SmallVec;
use std::marker::Model;
use token_system::{Cell, CellName, Token};

/// A token of a cell of a net, which is named by its place among the net's cells.
#[derive(Clone, Copy, Debug, PartialEq, Eq)]
pub struct Atom {
    pub cell: u32,
    pub token: Token,
}

impl Default for Atom {
    ghost use Rattle.std.specs.Prelude.{◌≡◌};
    ghost use Rattle.token_system.specs.declared.cell.Token.TheVariants.{Clash};

    /// What stands at the places of a list that it does not use.
    fn default() -> Atom
        ensures { result ≡ record { cell = 0; token = Clash } }
    {
        Atom {
            cell: 0,
            token: Token::Clash,
        }
    }
}

/// Atoms, in order. Most constraints have one token, and take no memory of their own.
#[derive(Debug, Drop)]
pub(crate) struct Atoms {
    list: SmallVec<Atom, 1>,
}

impl Model for Atoms {
    ghost use Rattle.std.specs.Prelude.{List};
    ghost use Rattle.instant_net.specs.declared.parts.Atom.{Atom};

    ghost Value = { List Atom };

    ghost view = { λ a. a.list.items };
}

impl Atoms {
    pub(crate) fn make(list: SmallVec<Atom, 1>) -> Atoms
        ensures { result ≡ list.items }
    {
        Atoms { list }
    }

    pub(crate) fn list(&self) -> &[Atom]
        ensures { result.now ≡ self.now }
    {
        self.list.as_slice()
    }
}

/// A cell of a net: its name, its kind and domain, its stratum, its first part, and the word that this part is in.
#[derive(Debug, Drop)]
pub(crate) struct NetCell {
    pub(crate) name: CellName,
    pub(crate) cell: Cell,
    pub(crate) stratum: u32,
    pub(crate) first: u32,
    pub(crate) word: u32,
}

/// An ask above some leaves: whether it is that of an else, its constraint, the nearest guard above it, and the leaves
/// below it, from the first of them up to the one past the last.
#[derive(Debug, Drop)]
pub(crate) struct NetGuard {
    pub(crate) negative: bool,
    pub(crate) ask: Atoms,
    pub(crate) above: Option<u32>,
    pub(crate) first: u32,
    pub(crate) past: u32,
}

/// What a leaf is.
#[derive(Debug, Drop)]
pub(crate) enum LeafKind {
    /// It does nothing.
    Idle,
    /// It tells the atoms.
    Tells(Atoms),
    /// It starts the closure at each later instant.
    StartsHence(Closure),
    /// It starts the closure at the next instant.
    StartsNext(Closure),
}

/// A leaf, and the last guard above it.
#[derive(Debug, Drop)]
pub(crate) struct NetLeaf {
    pub(crate) kind: LeafKind,
    pub(crate) last: Option<u32>,
}
