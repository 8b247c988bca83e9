//! The counts of small instants, worked out by hand.
ghost use Rattle.std.specs.Prelude.{◌≡◌, List, ◌+◌, ◌≤◌, IfOk, length};
ghost use Rattle.token_system.specs.Stores.{StoreMap};
ghost use Rattle.agent_core.specs.Closures as closures;
ghost use Rattle.agent_core.specs.WellFormed.{IsWellFormed};
ghost use Rattle.instant_net.specs.Words.{AreWords};
ghost use Rattle.residuals.specs.RootLists.{AreRootsOf};

use crate::{Report, report};
use agent_core::{CellDecl, Constraint, Levels, Name, Node, Program};
use instant_net::{Net, Words, open_net, open_words, tell};
use residuals::{Roots, first_roots, next_roots};
use std::alloc::Global;
use std::test::Fail;
use token_system::{Cell, Kind, Store, Token};

/// The constraint that this cell is on.
fn on(alloc: Global, cell: u32) -> Result<Constraint, Fail> {
    let mut list = Vec::new(alloc);
    list.push((cell, Token::On))?;
    Ok(Constraint::make(list))
}

/// The program of these nodes over the signals `a`, which is cell 0, and `b`, which is cell 1.
fn over_two_signals(alloc: Global, nodes: Vec<Node>) -> Result<Program, Fail>
    ensures { IfOk result IsWellFormed }
{
    let mut cells = Vec::new(alloc);
    for letter in b"ab" {
        cells.push(CellDecl {
            name: Name::make([*letter].to_vec(alloc)?),
            cell: Cell {
                kind: Kind::Signal,
                lo: 0,
                hi: 0,
            },
        })?;
    }
    match Program::make(cells, 2, nodes) {
        Some(program) => Ok(program),
        None => Err(Fail::from("not a program")),
    }
}

/// Level 0 for each cell.
fn flat_levels(alloc: Global, program: &Program) -> Result<Levels, Fail>
    ensures { IfOk result (λ levels. length levels ≡ length program.now.cells) }
{
    let mut list = Vec::new(alloc);
    list.resize(program.cells().len(), 0)?;
    Ok(Levels::make(list))
}

/// Tells what these leaves tell.
fn tell_each(net: &Net, words: &mut Words, leaves: &[u32])
    requires { AreWords net.now.cells words.old }
    ensures { AreWords net.now.cells words.new }
{
    for leaf in leaves {
        if *leaf < net.leaves() {
            tell(net, words, *leaf);
        }
    }
}

/// The report of these roots at instant t, and the roots of the next instant, where nothing is put in and these are the tells
/// that the output runs.
fn report_after(
    alloc: Global,
    program: &Program,
    levels: &Levels,
    roots: &Roots,
    t: u32,
    told: &[u32],
) -> Result<(Report, Roots), Fail>
    requires program { IsWellFormed program.now }
    requires levels { length levels.now ≡ length program.now.cells }
    requires roots { (closed : List StoreMap) × (length closed ≡ t) × AreRootsOf program.now (closures.roots program.now closed) roots.now }
    ensures { IfOk result (λ next. (closed : List StoreMap) × (length closed ≡ t + 1) × AreRootsOf program.now (closures.roots program.now closed) next.1) }
{
    let list = roots.list(alloc)?;
    let net = match open_net(alloc, program, levels, &list, t, 100) {
        Ok(net) => net,
        Err(_) => return Err(Fail::from("no net")),
    };
    let mut words = open_words(alloc, &net, &Store::new(alloc))?;
    tell_each(&net, &mut words, told);
    let next = next_roots(alloc, &net, roots, &words)?;
    Ok((report(&net, &words, next.len()), next))
}

/// The reports of the first instants, where these are the tells that each output runs.
fn reports(alloc: Global, program: &Program, told: &[&[u32]]) -> Result<Vec<Report>, Fail>
    requires program { IsWellFormed program.now }
    requires few { length told.now ≤ 100 }
{
    let levels = flat_levels(alloc, program)?;
    let mut roots = first_roots(alloc)?;
    let mut list = Vec::new(alloc);
    for t in 0..told.len() as u32 {
        let (counts, next) = report_after(alloc, program, &levels, &roots, t, told[t as usize])?;
        list.push(counts)?;
        roots = next;
    }
    Ok(list)
}

/// The report with these counts.
fn counts(ran: u64, confirmed: u64, refuted: u64, parked: u64, next: u64) -> Report {
    Report {
        ran,
        confirmed,
        refuted,
        parked,
        next,
    }
}

/// `signal a, b; a || b || if a else b`: both are told, and the else is refuted by `a`.
#[test]
fn an_else_whose_ask_is_told_is_refuted(rt: HostRuntime) -> Result<(), Fail> {
    let mut nodes = Vec::new(rt.alloc());
    nodes.push(Node::Par { left: 1, right: 4 })?;
    nodes.push(Node::Par { left: 2, right: 3 })?;
    nodes.push(Node::Tell(on(rt.alloc(), 0)?))?;
    nodes.push(Node::Tell(on(rt.alloc(), 1)?))?;
    nodes.push(Node::Else {
        ask: on(rt.alloc(), 0)?,
        body: 5,
    })?;
    nodes.push(Node::Tell(on(rt.alloc(), 1)?))?;
    let program = over_two_signals(rt.alloc(), nodes)?;
    let list = reports(rt.alloc(), &program, &[&[0, 1]])?;
    assert_eq!(rt; list.as_slice(), [counts(2, 0, 1, 0, 0)].as_slice());
    Ok(())
}

/// `signal a, b; hence hence a`: from instant 1 on the inner hence runs, and from instant 2 on `a` too, which is leaf 1 there.
#[test]
fn leaves_that_run_and_next_roots_are_counted(rt: HostRuntime) -> Result<(), Fail> {
    let mut nodes = Vec::new(rt.alloc());
    nodes.push(Node::Hence { body: 1 })?;
    nodes.push(Node::Hence { body: 2 })?;
    nodes.push(Node::Tell(on(rt.alloc(), 0)?))?;
    let program = over_two_signals(rt.alloc(), nodes)?;
    let list = reports(rt.alloc(), &program, &[&[], &[], &[1], &[1]])?;
    assert_eq!(rt;
        list.as_slice(),
        [
            counts(1, 0, 0, 0, 1),
            counts(1, 0, 0, 0, 2),
            counts(2, 0, 0, 0, 2),
            counts(2, 0, 0, 0, 2)
        ]
        .as_slice()
    );
    Ok(())
}

/// `signal a, b; if a then { if b else a } || if a else { b || if b then hence a }`: without `a` the first then is parked, and
/// the else in it is not reached. The second else is confirmed, and tells `b`, so the then in it is not parked, and its
/// hence runs.
#[test]
fn what_stands_below_a_parked_then_is_not_counted(rt: HostRuntime) -> Result<(), Fail> {
    let mut nodes = Vec::new(rt.alloc());
    nodes.push(Node::Par { left: 1, right: 4 })?;
    nodes.push(Node::Then {
        ask: on(rt.alloc(), 0)?,
        body: 2,
    })?;
    nodes.push(Node::Else {
        ask: on(rt.alloc(), 1)?,
        body: 3,
    })?;
    nodes.push(Node::Tell(on(rt.alloc(), 0)?))?;
    nodes.push(Node::Else {
        ask: on(rt.alloc(), 0)?,
        body: 5,
    })?;
    nodes.push(Node::Par { left: 6, right: 7 })?;
    nodes.push(Node::Tell(on(rt.alloc(), 1)?))?;
    nodes.push(Node::Then {
        ask: on(rt.alloc(), 1)?,
        body: 8,
    })?;
    nodes.push(Node::Hence { body: 9 })?;
    nodes.push(Node::Tell(on(rt.alloc(), 0)?))?;
    let program = over_two_signals(rt.alloc(), nodes)?;
    let list = reports(rt.alloc(), &program, &[&[1]])?;
    assert_eq!(rt; list.as_slice(), [counts(2, 1, 0, 1, 1)].as_slice());
    Ok(())
}
