//! When a closure rests at a later instant than it was started, by the definition.
ghost use Rattle.std.specs.Prelude.{◌≡◌, ◌+◌, ◌-◌, ◌<◌, ◌^◌, All, IfOk, length};
ghost use Rattle.std.specs.List.{list_all};
ghost use Rattle.agent_core.specs.Names.{IsClosure};
ghost use Rattle.agent_core.specs.Stores.{IsStore, Below};
ghost use Rattle.agent_core.specs.RestsAfter as specs;

use crate::node::{Closure, Node};
use crate::program::Program;
use crate::resting::{entails, node_rests};
use std::alloc::Global;
use token_system::{Births, Memory, Store};

/// Whether the node rests now wherever a hence starts it: at the instant `start`, which is that of
/// the first of the closed stores, at each later one, and now.
#[cycle(node_obs)]
fn hence_obs(
    alloc: Global,
    program: &Program,
    node: u32,
    births: &[u32],
    start: u32,
    closed: &[Store],
    u: &Store,
    v: &Store,
) -> Result<bool, Memory>
    requires closure { IsClosure program.now node births.now }
    requires closed { All (IsStore program.now) closed.now }
    requires instants { start + length closed.now < 2 ^ 32 }
    requires store { IsStore program.now u.now }
    requires guess { IsStore program.now v.now }
    ensures { IfOk result (λ b. b ≡ list_all (λ z. specs.obs program.now node births.now (start + length closed.now - length z) z u.now v.now) (specs.suffixes closed.now)) }
{
    for k in 0..closed.len() {
        let since = &closed[k..];
        let rests = node_obs(alloc, program, node, births, start + k as u32, since, u, v)?;
        if !rests {
            return Ok(false);
        }
    }
    let now = start + closed.len() as u32;
    node_rests(alloc, program, node, births, now, u, v)
}

/// The same as `obs`, for the node with these births.
#[cycle(node_obs)]
fn node_obs(
    alloc: Global,
    program: &Program,
    node: u32,
    births: &[u32],
    start: u32,
    closed: &[Store],
    u: &Store,
    v: &Store,
) -> Result<bool, Memory>
    requires closure { IsClosure program.now node births.now }
    requires closed { All (IsStore program.now) closed.now }
    requires instants { start + length closed.now < 2 ^ 32 }
    requires store { IsStore program.now u.now }
    requires guess { IsStore program.now v.now }
    ensures { IfOk result (λ b. b ≡ specs.obs program.now node births.now start closed.now u.now v.now) }
{
    let Some((first, later)) = closed.split_first() else {
        return node_rests(alloc, program, node, births, start, u, v);
    };
    match &program.nodes()[node as usize] {
        Node::Skip | Node::Tell(_) => Ok(true),
        Node::Par { left, right } => {
            let left_rests = node_obs(alloc, program, *left, births, start, closed, u, v)?;
            if !left_rests {
                return Ok(false);
            }
            node_obs(alloc, program, *right, births, start, closed, u, v)
        }
        Node::Then { ask, body } => {
            let runs = entails(alloc, program, births, first, ask)?;
            if !runs {
                return Ok(true);
            }
            node_obs(alloc, program, *body, births, start, closed, u, v)
        }
        Node::Else { ask, body } => {
            let refuted = entails(alloc, program, births, first, ask)?;
            if refuted {
                return Ok(true);
            }
            node_obs(alloc, program, *body, births, start, closed, u, v)
        }
        Node::New { body, .. } => {
            let inner = Births::extended(alloc, births, start)?;
            node_obs(alloc, program, *body, inner.list(), start, closed, u, v)
        }
        Node::Hence { body } => hence_obs(alloc, program, *body, births, start + 1, later, u, v),
        Node::Next { body } => node_obs(alloc, program, *body, births, start + 1, later, u, v),
    }
}

/// Whether the closure, started at the instant `start`, rests now under the store u and the guess v
/// of the instant's final store, where `closed` are the final stores of the instants since then. It
/// goes over the definition itself and takes memory for each name, so it is meant for tests and for
/// small programs.
pub fn obs(
    alloc: Global,
    program: &Program,
    closure: &Closure,
    start: u32,
    closed: &[Store],
    u: &Store,
    v: &Store,
) -> Result<bool, Memory>
    requires closure { IsClosure program.now closure.now.node closure.now.births }
    requires closed { All (IsStore program.now) closed.now }
    requires instants { start + length closed.now < 2 ^ 32 }
    requires store { IsStore program.now u.now }
    requires guess { IsStore program.now v.now }
    requires below { Below program.now u.now v.now }
    ensures { IfOk result (λ b. b ≡ specs.obs program.now closure.now.node closure.now.births start closed.now u.now v.now) }
{
    let births = closure.births.list();
    node_obs(alloc, program, closure.node, births, start, closed, u, v)
}
