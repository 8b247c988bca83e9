//! Runs of small programs, worked out by hand.
ghost use Rattle.std.specs.Prelude.{◌<◌, ◌≤◌, All, IfOk, length};
ghost use Rattle.agent_core.specs.Limits.{most_instants};
ghost use Rattle.agent_core.specs.WellFormed.{IsWellFormed};
ghost use Rattle.agent_core.specs.Stores.{IsInput};

use crate::slow_run;
use agent_core::{CellDecl, Constraint, Name, Node, Program};
use std::alloc::Global;
use std::test::Fail;
use strata::strata;
use token_system::{Cell, CellName, Kind, Store, Token, fits};

/// The constraint that this cell is on.
fn on(alloc: Global, cell: u32) -> Result<Constraint, Fail> {
    let mut list = Vec::new(alloc);
    list.push((cell, Token::On))?;
    Ok(Constraint::make(list))
}

/// The program of these nodes over so many signals, of which the first so many are declared.
fn over_signals(alloc: Global, count: u32, declared: u32, nodes: Vec<Node>) -> Result<Program, Fail>
    ensures { IfOk result IsWellFormed }
{
    let mut cells = Vec::new(alloc);
    for _ in 0..count {
        cells.push(CellDecl {
            name: Name::make(b"s".to_vec(alloc)?),
            cell: Cell {
                kind: Kind::Signal,
                lo: 0,
                hi: 0,
            },
        })?;
    }
    match Program::make(cells, declared, nodes) {
        Some(program) => Ok(program),
        None => Err(Fail::from("not a program")),
    }
}

/// Appends `if ask else tell`, whose body has this number.
fn push_else(
    alloc: Global,
    nodes: &mut Vec<Node>,
    ask: u32,
    body: u32,
    tell: u32,
) -> Result<(), Fail> {
    nodes.push(Node::Else {
        ask: on(alloc, ask)?,
        body,
    })?;
    nodes.push(Node::Tell(on(alloc, tell)?))?;
    Ok(())
}

/// Appends `if ask then tell`, whose body has this number.
fn push_then(
    alloc: Global,
    nodes: &mut Vec<Node>,
    ask: u32,
    body: u32,
    tell: u32,
) -> Result<(), Fail> {
    nodes.push(Node::Then {
        ask: on(alloc, ask)?,
        body,
    })?;
    nodes.push(Node::Tell(on(alloc, tell)?))?;
    Ok(())
}

/// Appends `if a else next a`, whose nodes are numbered from n on.
fn push_told_after_absence(alloc: Global, nodes: &mut Vec<Node>, n: u32) -> Result<(), Fail>
    requires { n < 1000 }
{
    nodes.push(Node::Else {
        ask: on(alloc, 0)?,
        body: n + 1,
    })?;
    nodes.push(Node::Next { body: n + 2 })?;
    nodes.push(Node::Tell(on(alloc, 0)?))?;
    Ok(())
}

/// Appends `new signal s in {s || if s then a || next if s then b}`, whose nodes are numbered from n on.
fn push_new(alloc: Global, nodes: &mut Vec<Node>, n: u32, s: u32) -> Result<(), Fail>
    requires { n < 1000 }
{
    nodes.push(Node::New {
        cell: s,
        body: n + 1,
    })?;
    nodes.push(Node::Par {
        left: n + 2,
        right: n + 3,
    })?;
    nodes.push(Node::Tell(on(alloc, s)?))?;
    nodes.push(Node::Par {
        left: n + 4,
        right: n + 6,
    })?;
    push_then(alloc, nodes, s, n + 5, 0)?;
    nodes.push(Node::Next { body: n + 7 })?;
    push_then(alloc, nodes, s, n + 8, 1)
}

/// The input of which nothing is told.
fn nothing(alloc: Global, program: &Program) -> Store
    ensures { IsInput program.now result }
{
    Store::new(alloc)
}

/// The input in which the first declared signal is on.
fn first_on(alloc: Global, program: &Program) -> Result<Store, Fail>
    ensures { IfOk result (IsInput program.now) }
{
    if program.declared() == 0 {
        return Err(Fail::from("nothing is declared"));
    }
    let cell = program.cells()[0].cell;
    if !fits(cell, Token::On) {
        return Err(Fail::from("no signal"));
    }
    let mut store = Store::new(alloc);
    store.tell(CellName::Declared(0), cell, Token::On)?;
    Ok(store)
}

/// So many inputs of which nothing is told.
fn silence(alloc: Global, program: &Program, instants: usize) -> Result<Vec<Store>, Fail>
    ensures inputs { IfOk result (λ ins. All (IsInput program.now) ins.items) }
    ensures bounded { IfOk result (λ ins. length ins.items ≤ instants) }
{
    let mut ins = Vec::new(alloc);
    for _ in 0..instants {
        ins.push(nothing(alloc, program))?;
    }
    Ok(ins)
}

/// An input of which nothing is told, and one in which the first declared signal is on.
fn silence_and_first_on(alloc: Global, program: &Program) -> Result<Vec<Store>, Fail>
    ensures inputs { IfOk result (λ ins. All (IsInput program.now) ins.items) }
    ensures bounded { IfOk result (λ ins. length ins.items ≤ 2) }
{
    let mut ins = silence(alloc, program, 1)?;
    let on = first_on(alloc, program)?;
    ins.push(on)?;
    Ok(ins)
}

/// The outputs on these inputs: for each the letters of the signals `a` and `b` that it entails, and a semicolon.
fn outputs(alloc: Global, program: &Program, ins: Vec<Store>) -> Result<String, Fail>
    requires inputs { All (IsInput program.now) ins.items }
    requires few { length ins.items ≤ most_instants }
{
    let levels = match strata(alloc, program) {
        Ok(levels) => levels,
        Err(_) => return Err(Fail::from("not stratified")),
    };
    let mut text = String::new(alloc);
    for out in &slow_run(alloc, program, &levels, &ins)? {
        if out.get(&CellName::Declared(0)).is_some() {
            text.push_str("a")?;
        }
        if out.get(&CellName::Declared(1)).is_some() {
            text.push_str("b")?;
        }
        text.push_str(";")?;
    }
    Ok(text)
}

#[test]
fn a_default_is_told_at_each_instant_at_which_nothing_forbids_it(
    rt: HostRuntime,
) -> Result<(), Fail> {
    let mut nodes = Vec::new(rt.alloc());
    nodes.push(Node::Par { left: 1, right: 3 })?;
    push_else(rt.alloc(), &mut nodes, 0, 2, 1)?;
    nodes.push(Node::Hence { body: 4 })?;
    push_else(rt.alloc(), &mut nodes, 0, 5, 1)?;
    let program = over_signals(rt.alloc(), 2, 2, nodes)?;
    let ins = silence_and_first_on(rt.alloc(), &program)?;
    let outs = outputs(rt.alloc(), &program, ins)?;
    assert_eq!(rt; outs.as_str(), "b;a;");
    Ok(())
}

#[test]
fn what_is_told_after_each_absence_is_told_at_every_other_instant(
    rt: HostRuntime,
) -> Result<(), Fail> {
    let mut nodes = Vec::new(rt.alloc());
    nodes.push(Node::Par { left: 1, right: 4 })?;
    push_told_after_absence(rt.alloc(), &mut nodes, 1)?;
    nodes.push(Node::Hence { body: 5 })?;
    push_told_after_absence(rt.alloc(), &mut nodes, 5)?;
    let program = over_signals(rt.alloc(), 1, 1, nodes)?;
    let ins = silence(rt.alloc(), &program, 4)?;
    let outs = outputs(rt.alloc(), &program, ins)?;
    assert_eq!(rt; outs.as_str(), ";a;;a;");
    Ok(())
}

#[test]
fn what_is_told_later_than_later_is_told_from_the_third_instant_on(
    rt: HostRuntime,
) -> Result<(), Fail> {
    let mut nodes = Vec::new(rt.alloc());
    nodes.push(Node::Hence { body: 1 })?;
    nodes.push(Node::Hence { body: 2 })?;
    nodes.push(Node::Tell(on(rt.alloc(), 0)?))?;
    let program = over_signals(rt.alloc(), 1, 1, nodes)?;
    let ins = silence(rt.alloc(), &program, 4)?;
    let outs = outputs(rt.alloc(), &program, ins)?;
    assert_eq!(rt; outs.as_str(), ";;a;a;");
    Ok(())
}

#[test]
fn a_local_cell_that_is_made_at_each_instant_is_not_that_of_the_last(
    rt: HostRuntime,
) -> Result<(), Fail> {
    let mut nodes = Vec::new(rt.alloc());
    nodes.push(Node::Par { left: 1, right: 10 })?;
    push_new(rt.alloc(), &mut nodes, 1, 2)?;
    nodes.push(Node::Hence { body: 11 })?;
    push_new(rt.alloc(), &mut nodes, 11, 3)?;
    let program = over_signals(rt.alloc(), 4, 2, nodes)?;
    let ins = silence(rt.alloc(), &program, 3)?;
    let outs = outputs(rt.alloc(), &program, ins)?;
    assert_eq!(rt; outs.as_str(), "a;a;a;");
    Ok(())
}
