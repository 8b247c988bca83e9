//! The roots of an instant.
ghost use Rattle.std.specs.Prelude.{◌≡◌, ◌+◌, ◌≤◌, ◌↔◌, [], ◌∷◌, length, IfOk, IsTrue};
ghost use Rattle.std.specs.List.Sorted.{IsStrictlySortedBy};
ghost use Rattle.agent_core.specs.Programs.{CoreProgram};
ghost use Rattle.agent_core.specs.Closures.{closure, closure_cmp, roots};
ghost use Rattle.instant_net.specs.Limits.{most_roots};
ghost use Rattle.residuals.specs.RootLists.{listed_roots, AreRootLists, AreRootsOf};

use crate::closures::{add_copies, sort};
use agent_core::Closure;
use std::alloc::Global;
use std::marker::Model;
use token_system::{Births, Memory};

/// The closures that are started at an instant: those that a hence started, which stay, and those of this instant alone.
#[derive(Debug, Drop)]
pub struct Roots {
    once: Vec<Closure>,
    stay: Vec<Closure>,
}

impl Model for Roots {
    ghost use Rattle.instant_net.specs.Limits.{most_roots};
    ghost use Rattle.residuals.specs.RootLists.{RootLists, AreRootLists};

    ghost Value = { RootLists };

    ghost view = { λ r. record { once = r.once.items; stay = r.stay.items } };

    ghost invariant = { λ r. AreRootLists (record { once = r.once.items; stay = r.stay.items }) };
}

impl Roots {
    /// The roots in these two lists.
    pub(crate) fn make(once: Vec<Closure>, stay: Vec<Closure>) -> Roots
        requires { AreRootLists (record { once = once.items; stay = stay.items }) }
        ensures { result ≡ record { once = once.items; stay = stay.items } }
    {
        Roots { once, stay }
    }

    /// The roots of this instant alone, in order.
    fn once(&self) -> &[Closure]
        ensures once { result.now ≡ self.now.once }
        ensures lists { AreRootLists self.now }
    {
        self.once.as_slice()
    }

    /// The roots that stay, in order.
    pub(crate) fn stay(&self) -> &[Closure]
        ensures { result.now ≡ self.now.stay }
    {
        self.stay.as_slice()
    }

    /// How many roots there are.
    pub fn len(&self) -> usize
        ensures { result ≡ length self.now.once + length self.now.stay }
    {
        self.once.len() + self.stay.len()
    }

    /// Whether there is no root.
    pub fn is_empty(&self) -> bool
        ensures { IsTrue result ↔ (length self.now.once + length self.now.stay ≡ 0) }
    {
        self.once.is_empty() && self.stay.is_empty()
    }

    /// All roots, in their order.
    #[tactic(auto, using(crate::proofs::Listed::listed_facts))]
    pub fn list(&self, alloc: Global) -> Result<Vec<Closure>, Memory>
        ensures all { IfOk result (λ list. list.items ≡ listed_roots self.now) }
        ensures sorted { IsStrictlySortedBy closure_cmp (listed_roots self.now) }
        ensures bounded { length (listed_roots self.now) ≡ length self.now.once + length self.now.stay }
        ensures within { length (listed_roots self.now) ≤ most_roots }
    {
        let mut list = Vec::new(alloc);
        add_copies(&mut list, self.once())?;
        add_copies(&mut list, self.stay())?;
        sort(&mut list)?;
        Ok(list)
    }
}

/// The roots of the first instant: the root of the program alone.
pub fn first_roots(alloc: Global) -> Result<Roots, Memory>
    ensures lists { IfOk result (λ r. r ≡ record { once = closure 0 [] ∷ []; stay = [] }) }
    ensures roots { IfOk result (λ r. (p : CoreProgram) → AreRootsOf p (roots p []) r) }
{
    let mut once = Vec::new(alloc);
    once.push(Closure {
        node: 0,
        births: Births::make(Vec::new(alloc)),
    })?;
    Ok(Roots::make(once, Vec::new(alloc)))
}
