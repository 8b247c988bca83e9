//! A walk over a program and the whole history of its run, for a leaf of the present instant that is to tell.
ghost use Rattle.std.specs.Prelude.{◌<◌, ◌≤◌, ◌^◌, All, IfOk, length};
ghost use Rattle.agent_core.specs.WellFormed.{IsWellFormed};
ghost use Rattle.agent_core.specs.Names.{IsClosure};
ghost use Rattle.agent_core.specs.Scope.{ConstraintFits};
ghost use Rattle.agent_core.specs.Stores.{IsStore};
ghost use Rattle.denotation_laws.specs.Dues as dues;

use crate::asks::tell_all;
use crate::levels::is_upto;
use agent_core::{Constraint, Levels, Node, Program, entails};
use std::alloc::Global;
use token_system::{Births, Memory, Store};

/// What a walk goes by: the program, the numbers of its cells, the stratum up to which leaves tell, and the present
/// instant.
#[derive(Clone, Copy)]
struct Walk<'a> {
    alloc: Global,
    program: &'a Program,
    levels: &'a Levels,
    stratum: u32,
    instant: u32,
}

impl Walk<'_> {
    /// Tells the constraint, where it is that of a leaf which is to tell, and says whether it is.
    fn tell_due(&self, ask: &Constraint, births: &[u32], store: &mut Store) -> Result<bool, Memory>
        requires fits { ConstraintFits self.now.program.now births.now ask.now }
        requires store { IsStore self.now.program.now store.old }
        ensures { IfOk result (λ told. dues.Tells self.now.program.now self.now.levels.now self.now.stratum births.now ask.now store.old told store.new) }
    {
        if !is_upto(self.levels, self.stratum, ask) {
            return Ok(false);
        }
        let has_told = entails(self.alloc, self.program, births, &*store, ask)?;
        if has_told {
            return Ok(false);
        }
        tell_all(self.alloc, self.program, births, ask, store)?;
        Ok(true)
    }

    /// Tells the first leaf that is to tell below the node, where the node is started now and the asks above it let it
    /// run. Says whether there was one.
    fn tell_now(&self, node: u32, births: &[u32], store: &mut Store) -> Result<bool, Memory>
        requires closure { IsClosure self.now.program.now node births.now }
        requires store { IsStore self.now.program.now store.old }
        ensures { IfOk result (λ told. dues.TellsBelow self.now.program.now self.now.levels.now self.now.stratum self.now.instant node births.now store.old told store.new) }
    {
        match &self.program.nodes()[node as usize] {
            Node::Skip | Node::Hence { .. } | Node::Next { .. } => Ok(false),
            Node::Tell(ask) => self.tell_due(ask, births, store),
            Node::Par { left, right } => {
                let told = self.tell_now(*left, births, store)?;
                if told {
                    return Ok(true);
                }
                self.tell_now(*right, births, store)
            }
            Node::Then { ask, body } => {
                let runs = entails(self.alloc, self.program, births, &*store, ask)?;
                if !runs {
                    return Ok(false);
                }
                self.tell_now(*body, births, store)
            }
            Node::Else { ask, body } => {
                let refuted = entails(self.alloc, self.program, births, &*store, ask)?;
                if refuted {
                    return Ok(false);
                }
                self.tell_now(*body, births, store)
            }
            Node::New { body, .. } => {
                let inner = Births::extended(self.alloc, births, self.instant)?;
                self.tell_now(*body, inner.list(), store)
            }
        }
    }

    /// Tells the first leaf that is to tell now of the node, where it was started at the instant of the first of the
    /// closed stores, which are those of the instants since then. Says whether there was one.
    #[cycle(tell_since)]
    fn tell_since(
        &self,
        node: u32,
        births: &[u32],
        closed: &[Store],
        store: &mut Store,
    ) -> Result<bool, Memory>
        requires closure { IsClosure self.now.program.now node births.now }
        requires closed { All (IsStore self.now.program.now) closed.now }
        requires instants { length closed.now ≤ self.now.instant }
        requires store { IsStore self.now.program.now store.old }
        ensures { IfOk result (λ told. dues.TellsOne self.now.program.now self.now.levels.now self.now.stratum (dues.leaves_since self.now.program.now self.now.instant node births.now closed.now) store.old told store.new) }
    {
        let Some((first, later)) = closed.split_first() else {
            return self.tell_now(node, births, store);
        };
        match &self.program.nodes()[node as usize] {
            Node::Skip | Node::Tell(_) => Ok(false),
            Node::Par { left, right } => {
                let told = self.tell_since(*left, births, closed, store)?;
                if told {
                    return Ok(true);
                }
                self.tell_since(*right, births, closed, store)
            }
            Node::Then { ask, body } => {
                let runs = entails(self.alloc, self.program, births, first, ask)?;
                if !runs {
                    return Ok(false);
                }
                self.tell_since(*body, births, closed, store)
            }
            Node::Else { ask, body } => {
                let refuted = entails(self.alloc, self.program, births, first, ask)?;
                if refuted {
                    return Ok(false);
                }
                self.tell_since(*body, births, closed, store)
            }
            Node::New { body, .. } => {
                let start = self.instant - closed.len() as u32;
                let inner = Births::extended(self.alloc, births, start)?;
                self.tell_since(*body, inner.list(), closed, store)
            }
            Node::Hence { body } => self.tell_hence(*body, births, later, store),
            Node::Next { body } => self.tell_since(*body, births, later, store),
        }
    }

    /// The same for the node wherever a hence starts it: at the instant of the first of the closed stores, at each later
    /// one, and now.
    #[cycle(tell_since)]
    fn tell_hence(
        &self,
        node: u32,
        births: &[u32],
        closed: &[Store],
        store: &mut Store,
    ) -> Result<bool, Memory>
        requires closure { IsClosure self.now.program.now node births.now }
        requires closed { All (IsStore self.now.program.now) closed.now }
        requires instants { length closed.now ≤ self.now.instant }
        requires store { IsStore self.now.program.now store.old }
        ensures { IfOk result (λ told. dues.TellsOne self.now.program.now self.now.levels.now self.now.stratum (dues.leaves_of_hence self.now.program.now self.now.instant node births.now closed.now) store.old told store.new) }
    {
        for k in 0..closed.len() {
            let told = self.tell_since(node, births, &closed[k..], store)?;
            if told {
                return Ok(true);
            }
        }
        self.tell_now(node, births, store)
    }
}

/// Tells the first leaf of the program that is to tell after the closed stores, up to the stratum, and says whether there
/// was one.
pub(crate) fn tell_first(
    alloc: Global,
    program: &Program,
    levels: &Levels,
    stratum: u32,
    closed: &[Store],
    store: &mut Store,
) -> Result<bool, Memory>
    requires program { IsWellFormed program.now }
    requires closed { All (IsStore program.now) closed.now }
    requires few { length closed.now < 2 ^ 32 }
    requires store { IsStore program.now store.old }
    ensures { IfOk result (λ told. dues.TellsOne program.now levels.now stratum (dues.leaves_now program.now closed.now) store.old told store.new) }
{
    let walk = Walk {
        alloc,
        program,
        levels,
        stratum,
        instant: closed.len() as u32,
    };
    walk.tell_since(0, &[], closed, store)
}
