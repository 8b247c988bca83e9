//! When a closure rests at the instant that starts it, by the definition.
ghost use Rattle.std.specs.Prelude.{◌≡◌, ◌<◌, IfOk, length};
ghost use Rattle.agent_core.specs.Names.{IsClosure};
ghost use Rattle.agent_core.specs.Scope.{TokenFits, ConstraintFits};
ghost use Rattle.agent_core.specs.Stores.{IsStore, Below};
ghost use Rattle.agent_core.specs.Rests as specs;

use crate::names::name_of;
use crate::node::{Closure, Constraint, Node};
use crate::program::Program;
use std::alloc::Global;
use token_system::{Births, Memory, Store, Token};

/// Whether the store entails the token of the cell with this number.
fn holds(
    alloc: Global,
    program: &Program,
    births: &[u32],
    store: &Store,
    cell: u32,
    token: Token,
) -> Result<bool, Memory>
    requires store { IsStore program.now store.now }
    requires fits { TokenFits program.now births.now (record { 0 = cell; 1 = token }) }
    ensures { IfOk result (λ b. b ≡ specs.holds program.now births.now store.now (record { 0 = cell; 1 = token })) }
{
    let name = name_of(alloc, program, births, cell)?;
    let decl = &program.cells()[cell as usize];
    Ok(store.entails(&name, decl.cell, token))
}

/// Whether the store entails each token of the constraint, whose cells are named under these births.
pub fn entails(
    alloc: Global,
    program: &Program,
    births: &[u32],
    store: &Store,
    ask: &Constraint,
) -> Result<bool, Memory>
    requires store { IsStore program.now store.now }
    requires fits { ConstraintFits program.now births.now ask.now }
    ensures { IfOk result (λ b. b ≡ specs.entails program.now births.now store.now ask.now) }
{
    for (cell, token) in ask.list() {
        let held = holds(alloc, program, births, store, *cell, *token)?;
        if !held {
            return Ok(false);
        }
    }
    Ok(true)
}

/// The same as `rests`, for the node with these births.
pub(crate) fn node_rests(
    alloc: Global,
    program: &Program,
    node: u32,
    births: &[u32],
    t: u32,
    u: &Store,
    v: &Store,
) -> Result<bool, Memory>
    requires closure { IsClosure program.now node births.now }
    requires store { IsStore program.now u.now }
    requires guess { IsStore program.now v.now }
    ensures { IfOk result (λ b. b ≡ specs.rests program.now node births.now t u.now v.now) }
{
    match &program.nodes()[node as usize] {
        Node::Skip | Node::Hence { .. } | Node::Next { .. } => Ok(true),
        Node::Tell(ask) => entails(alloc, program, births, u, ask),
        Node::Par { left, right } => {
            let left_rests = node_rests(alloc, program, *left, births, t, u, v)?;
            if !left_rests {
                return Ok(false);
            }
            node_rests(alloc, program, *right, births, t, u, v)
        }
        Node::Then { ask, body } => {
            let runs = entails(alloc, program, births, u, ask)?;
            if runs {
                let body_rests = node_rests(alloc, program, *body, births, t, u, v)?;
                if !body_rests {
                    return Ok(false);
                }
            }
            let runs_at_last = entails(alloc, program, births, v, ask)?;
            if !runs_at_last {
                return Ok(true);
            }
            node_rests(alloc, program, *body, births, t, v, v)
        }
        Node::Else { ask, body } => {
            let refuted = entails(alloc, program, births, v, ask)?;
            if refuted {
                return Ok(true);
            }
            node_rests(alloc, program, *body, births, t, u, v)
        }
        Node::New { body, .. } => {
            let inner = Births::extended(alloc, births, t)?;
            node_rests(alloc, program, *body, inner.list(), t, u, v)
        }
    }
}

/// Whether the closure, started at instant t, rests under the store u and the guess v of the
/// instant's final store. It goes over the definition itself and takes memory for each name, so it
/// is meant for tests and for small programs.
pub fn rests(
    alloc: Global,
    program: &Program,
    closure: &Closure,
    t: u32,
    u: &Store,
    v: &Store,
) -> Result<bool, Memory>
    requires closure { IsClosure program.now closure.now.node closure.now.births }
    requires store { IsStore program.now u.now }
    requires guess { IsStore program.now v.now }
    requires below { Below program.now u.now v.now }
    ensures { IfOk result (λ b. b ≡ specs.rests program.now closure.now.node closure.now.births t u.now v.now) }
{
    node_rests(alloc, program, closure.node, closure.births.list(), t, u, v)
}
