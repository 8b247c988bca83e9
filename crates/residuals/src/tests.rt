//! The roots of next instants, worked out by hand.
ghost use Rattle.std.specs.Prelude.{◌≡◌, ℕ, List, ◌+◌, IfOk, length};
ghost use Rattle.token_system.specs.Stores.{StoreMap};
ghost use Rattle.agent_core.specs.Closures as closures;
ghost use Rattle.agent_core.specs.WellFormed.{IsWellFormed};
ghost use Rattle.instant_net.specs.Opened.{IsNetOf};
ghost use Rattle.residuals.specs.RootLists.{listed_roots, AreRootsOf};

use crate::{Roots, first_roots, next_roots, ran};
use agent_core::{CellDecl, Closure, Constraint, Levels, Name, Node, Program};
use instant_net::{Net, open_net, open_words, tell};
use std::alloc::Global;
use std::fmt::Write;
use std::test::Fail;
use token_system::{Cell, Kind, Store, Token};

/// The constraint that this cell is on.
fn on(alloc: Global, cell: u32) -> Result<Constraint, Fail> {
    let mut list = Vec::new(alloc);
    list.push((cell, Token::On))?;
    Ok(Constraint::make(list))
}

/// The program of these nodes over so many signals, of which the first so many are declared.
fn over_signals(alloc: Global, count: u32, declared: u32, nodes: Vec<Node>) -> Result<Program, Fail>
    ensures { IfOk result IsWellFormed }
{
    let mut cells = Vec::new(alloc);
    for _ in 0..count {
        cells.push(CellDecl {
            name: Name::make(b"s".to_vec(alloc)?),
            cell: Cell {
                kind: Kind::Signal,
                lo: 0,
                hi: 0,
            },
        })?;
    }
    match Program::make(cells, declared, nodes) {
        Some(program) => Ok(program),
        None => Err(Fail::from("not a program")),
    }
}

/// Level 0 for each cell.
fn flat_levels(alloc: Global, program: &Program) -> Result<Levels, Fail>
    ensures { IfOk result (λ levels. length levels ≡ length program.now.cells) }
{
    let mut list = Vec::new(alloc);
    list.resize(program.cells().len(), 0)?;
    Ok(Levels::make(list))
}

/// The net of these roots at instant t.
fn net_at(
    alloc: Global,
    program: &Program,
    levels: &Levels,
    roots: &Roots,
    t: u32,
) -> Result<Net, Fail>
    requires program { IsWellFormed program.now }
    requires levels { length levels.now ≡ length program.now.cells }
    requires roots { (closed : List StoreMap) × (length closed ≡ t) × AreRootsOf program.now (closures.roots program.now closed) roots.now }
    ensures { IfOk result (IsNetOf program.now levels.now (listed_roots roots.now) t) }
{
    let list = roots.list(alloc)?;
    match open_net(alloc, program, levels, &list, t, 100) {
        Ok(net) => Ok(net),
        Err(_) => Err(Fail::from("no net")),
    }
}

/// The roots after those of instant t, whose input tells nothing. No ask looks at what is told there.
fn after(
    alloc: Global,
    program: &Program,
    levels: &Levels,
    roots: &Roots,
    t: u32,
) -> Result<Roots, Fail>
    requires program { IsWellFormed program.now }
    requires levels { length levels.now ≡ length program.now.cells }
    requires roots { (closed : List StoreMap) × (length closed ≡ t) × AreRootsOf program.now (closures.roots program.now closed) roots.now }
    ensures { IfOk result (λ next. (closed : List StoreMap) × (length closed ≡ t + 1) × AreRootsOf program.now (closures.roots program.now closed) next) }
{
    let net = net_at(alloc, program, levels, roots, t)?;
    let words = open_words(alloc, &net, &Store::new(alloc))?;
    Ok(next_roots(alloc, &net, roots, &words)?)
}

/// How many leaves of the first instant the store runs in which nothing is told, and how many the one after that leaf is told.
fn ran_before_and_after(alloc: Global, program: &Program, leaf: u32) -> Result<(u64, u64), Fail>
    requires { IsWellFormed program.now }
{
    let levels = flat_levels(alloc, program)?;
    let roots = first_roots(alloc)?;
    let net = net_at(alloc, program, &levels, &roots, 0)?;
    let mut words = open_words(alloc, &net, &Store::new(alloc))?;
    let before = ran(&net, &words);
    if leaf < net.leaves() {
        tell(&net, &mut words, leaf);
    }
    Ok((before, ran(&net, &words)))
}

/// The roots of this instant, where no input tells anything.
fn roots_at(alloc: Global, program: &Program, instant: u32) -> Result<Roots, Fail>
    requires { IsWellFormed program.now }
{
    let levels = flat_levels(alloc, program)?;
    let mut roots = first_roots(alloc)?;
    for t in 0..instant {
        roots = after(alloc, program, &levels, &roots, t)?;
    }
    Ok(roots)
}

/// Appends the closure as its node, with each birth behind an `@`.
fn push_closure(text: &mut String, closure: &Closure) -> Result<(), Fail> {
    write!(text, " {}", closure.node)?;
    for birth in closure.births.list() {
        write!(text, "@{birth}")?;
    }
    Ok(())
}

/// The roots of this instant in their order, as text.
fn text_at(alloc: Global, program: &Program, instant: u32) -> Result<String, Fail>
    requires { IsWellFormed program.now }
{
    let mut text = String::new(alloc);
    for closure in &roots_at(alloc, program, instant)?.list(alloc)? {
        push_closure(&mut text, closure)?;
    }
    Ok(text)
}

/// `signal a; next a || hence next a`.
fn next_beside_hence_next(alloc: Global) -> Result<Program, Fail>
    ensures { IfOk result IsWellFormed }
{
    let mut nodes = Vec::new(alloc);
    nodes.push(Node::Par { left: 1, right: 3 })?;
    nodes.push(Node::Next { body: 2 })?;
    nodes.push(Node::Tell(on(alloc, 0)?))?;
    nodes.push(Node::Hence { body: 4 })?;
    nodes.push(Node::Next { body: 5 })?;
    nodes.push(Node::Tell(on(alloc, 0)?))?;
    over_signals(alloc, 1, 1, nodes)
}

/// `next a` starts `a` at instant 1 alone. `hence next a` starts `next a` at each instant from 1 on, and so `a` at each from
/// 2 on.
#[test]
fn what_next_starts_lasts_an_instant_and_what_hence_starts_stays(
    rt: HostRuntime,
) -> Result<(), Fail> {
    let program = next_beside_hence_next(rt.alloc())?;
    assert_eq!(rt; text_at(rt.alloc(), &program, 0)?.as_str(), " 0");
    assert_eq!(rt; text_at(rt.alloc(), &program, 1)?.as_str(), " 2 4");
    assert_eq!(rt; text_at(rt.alloc(), &program, 2)?.as_str(), " 4 5");
    assert_eq!(rt; text_at(rt.alloc(), &program, 3)?.as_str(), " 4 5");
    Ok(())
}

/// Two roots at instant 1 of the same program, and none after `next a` alone has run.
#[test]
fn roots_are_counted(rt: HostRuntime) -> Result<(), Fail> {
    let program = next_beside_hence_next(rt.alloc())?;
    let roots = roots_at(rt.alloc(), &program, 1)?;
    assert_eq!(rt; roots.len(), 2);
    assert!(rt; !roots.is_empty());

    let mut nodes = Vec::new(rt.alloc());
    nodes.push(Node::Next { body: 1 })?;
    nodes.push(Node::Tell(on(rt.alloc(), 0)?))?;
    let once = over_signals(rt.alloc(), 1, 1, nodes)?;
    assert_eq!(rt; roots_at(rt.alloc(), &once, 1)?.len(), 1);
    assert!(rt; roots_at(rt.alloc(), &once, 2)?.is_empty());
    Ok(())
}

/// `hence new signal s in hence s`: the new node is started at each instant from 1 on, each time with a cell of its own, which
/// is told ever after.
#[test]
fn births_tell_the_closures_of_one_node_apart(rt: HostRuntime) -> Result<(), Fail> {
    let mut nodes = Vec::new(rt.alloc());
    nodes.push(Node::Hence { body: 1 })?;
    nodes.push(Node::New { cell: 0, body: 2 })?;
    nodes.push(Node::Hence { body: 3 })?;
    nodes.push(Node::Tell(on(rt.alloc(), 0)?))?;
    let program = over_signals(rt.alloc(), 1, 0, nodes)?;
    assert_eq!(rt; text_at(rt.alloc(), &program, 1)?.as_str(), " 1");
    assert_eq!(rt; text_at(rt.alloc(), &program, 2)?.as_str(), " 1 3@1");
    assert_eq!(rt; text_at(rt.alloc(), &program, 3)?.as_str(), " 1 3@1 3@2");
    Ok(())
}

/// `signal a; hence hence a`: from instant 2 on `a` is a root, and the inner hence starts it anew at each instant.
#[test]
fn a_closure_that_is_started_again_stands_once(rt: HostRuntime) -> Result<(), Fail> {
    let mut nodes = Vec::new(rt.alloc());
    nodes.push(Node::Hence { body: 1 })?;
    nodes.push(Node::Hence { body: 2 })?;
    nodes.push(Node::Tell(on(rt.alloc(), 0)?))?;
    let program = over_signals(rt.alloc(), 1, 1, nodes)?;
    assert_eq!(rt; text_at(rt.alloc(), &program, 1)?.as_str(), " 1");
    assert_eq!(rt; text_at(rt.alloc(), &program, 2)?.as_str(), " 1 2");
    assert_eq!(rt; text_at(rt.alloc(), &program, 3)?.as_str(), " 1 2");
    Ok(())
}

/// `signal a, b; if a then next b || if a else hence b`: without `a` the hence alone runs.
#[test]
fn leaves_that_do_not_run_start_nothing(rt: HostRuntime) -> Result<(), Fail> {
    let mut nodes = Vec::new(rt.alloc());
    nodes.push(Node::Par { left: 1, right: 4 })?;
    nodes.push(Node::Then {
        ask: on(rt.alloc(), 0)?,
        body: 2,
    })?;
    nodes.push(Node::Next { body: 3 })?;
    nodes.push(Node::Tell(on(rt.alloc(), 1)?))?;
    nodes.push(Node::Else {
        ask: on(rt.alloc(), 0)?,
        body: 5,
    })?;
    nodes.push(Node::Hence { body: 6 })?;
    nodes.push(Node::Tell(on(rt.alloc(), 1)?))?;
    let program = over_signals(rt.alloc(), 2, 2, nodes)?;
    assert_eq!(rt; text_at(rt.alloc(), &program, 1)?.as_str(), " 6");
    assert_eq!(rt; text_at(rt.alloc(), &program, 2)?.as_str(), " 6");
    Ok(())
}

/// `signal a, b; a || if a then { b || hence b } || if a else b`: at first `a` and what the else lets run; where `a` is told, `a`
/// and the two leaves below the then.
#[test]
fn leaves_that_run_are_counted(rt: HostRuntime) -> Result<(), Fail> {
    let mut nodes = Vec::new(rt.alloc());
    nodes.push(Node::Par { left: 1, right: 2 })?;
    nodes.push(Node::Tell(on(rt.alloc(), 0)?))?;
    nodes.push(Node::Par { left: 3, right: 8 })?;
    nodes.push(Node::Then {
        ask: on(rt.alloc(), 0)?,
        body: 4,
    })?;
    nodes.push(Node::Par { left: 5, right: 6 })?;
    nodes.push(Node::Tell(on(rt.alloc(), 1)?))?;
    nodes.push(Node::Hence { body: 7 })?;
    nodes.push(Node::Tell(on(rt.alloc(), 1)?))?;
    nodes.push(Node::Else {
        ask: on(rt.alloc(), 0)?,
        body: 9,
    })?;
    nodes.push(Node::Tell(on(rt.alloc(), 1)?))?;
    let program = over_signals(rt.alloc(), 2, 2, nodes)?;
    assert_eq!(rt; ran_before_and_after(rt.alloc(), &program, 0)?, (2, 3));
    Ok(())
}
