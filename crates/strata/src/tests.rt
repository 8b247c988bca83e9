//! Strata and refusals, worked out by hand.
use crate::{StrataFault, strata};
use agent_core::{CellDecl, Constraint, Levels, Name, Node, Program};
use std::alloc::Global;
use std::test::Fail;
use token_system::{Cell, Kind, Token};

/// The constraint that the signal of this number is on.
fn on(alloc: Global, cell: u32) -> Result<Constraint, Fail> {
    let mut list = Vec::new(alloc);
    list.push((cell, Token::On))?;
    Ok(Constraint::make(list))
}

/// The constraint that both signals are on, the first one first.
fn both_on(alloc: Global, first: u32, second: u32) -> Result<Constraint, Fail> {
    let mut list = Vec::new(alloc);
    list.push((first, Token::On))?;
    list.push((second, Token::On))?;
    Ok(Constraint::make(list))
}

/// The program with these nodes over three declared signals: a is 0, b is 1 and c is 2.
fn over_three_signals(alloc: Global, nodes: Vec<Node>) -> Result<Program, Fail> {
    let mut cells = Vec::new(alloc);
    for name in [b"a", b"b", b"c"] {
        cells.push(CellDecl {
            name: Name::make(name.to_vec(alloc)?),
            cell: Cell {
                kind: Kind::Signal,
                lo: 0,
                hi: 0,
            },
        })?;
    }
    match Program::make(cells, 3, nodes) {
        Some(program) => Ok(program),
        None => Err(Fail::from("not a program")),
    }
}

/// The fault of the program with these nodes.
fn fault_of(alloc: Global, nodes: Vec<Node>) -> Result<StrataFault, Fail> {
    let program = over_three_signals(alloc, nodes)?;
    match strata(alloc, &program) {
        Ok(_) => Err(Fail::from("a table")),
        Err(fault) => Ok(fault),
    }
}

/// The least table of the program with these nodes.
fn table_of(alloc: Global, nodes: Vec<Node>) -> Result<Levels, Fail> {
    let program = over_three_signals(alloc, nodes)?;
    match strata(alloc, &program) {
        Ok(table) => Ok(table),
        Err(_) => Err(Fail::from("no table")),
    }
}

/// `if a else a`.
#[test]
fn else_over_its_own_tell_is_refused(rt: HostRuntime) -> Result<(), Fail> {
    let mut nodes = Vec::new(rt.alloc());
    nodes.push(Node::Else {
        ask: on(rt.alloc(), 0)?,
        body: 1,
    })?;
    nodes.push(Node::Tell(on(rt.alloc(), 0)?))?;
    let fault = fault_of(rt.alloc(), nodes)?;
    let expected = StrataFault::NotStratified {
        guard: 0,
        told: 0,
        node: 0,
    };
    assert_eq!(rt; fault, expected);
    Ok(())
}

/// `if a else b || if b else a`.
#[test]
fn two_elses_over_the_tells_of_each_other_are_refused_at_the_first(
    rt: HostRuntime,
) -> Result<(), Fail> {
    let mut nodes = Vec::new(rt.alloc());
    nodes.push(Node::Par { left: 1, right: 3 })?;
    nodes.push(Node::Else {
        ask: on(rt.alloc(), 0)?,
        body: 2,
    })?;
    nodes.push(Node::Tell(on(rt.alloc(), 1)?))?;
    nodes.push(Node::Else {
        ask: on(rt.alloc(), 1)?,
        body: 4,
    })?;
    nodes.push(Node::Tell(on(rt.alloc(), 0)?))?;
    let fault = fault_of(rt.alloc(), nodes)?;
    let expected = StrataFault::NotStratified {
        guard: 0,
        told: 1,
        node: 1,
    };
    assert_eq!(rt; fault, expected);
    Ok(())
}

/// `if a else b || if b then a`.
#[test]
fn cycle_through_a_then_is_refused(rt: HostRuntime) -> Result<(), Fail> {
    let mut nodes = Vec::new(rt.alloc());
    nodes.push(Node::Par { left: 1, right: 3 })?;
    nodes.push(Node::Else {
        ask: on(rt.alloc(), 0)?,
        body: 2,
    })?;
    nodes.push(Node::Tell(on(rt.alloc(), 1)?))?;
    nodes.push(Node::Then {
        ask: on(rt.alloc(), 1)?,
        body: 4,
    })?;
    nodes.push(Node::Tell(on(rt.alloc(), 0)?))?;
    let fault = fault_of(rt.alloc(), nodes)?;
    let expected = StrataFault::NotStratified {
        guard: 0,
        told: 1,
        node: 1,
    };
    assert_eq!(rt; fault, expected);
    Ok(())
}

/// `if a, b else c, b`: c reaches nothing, and b reaches b but not a.
#[test]
fn first_told_token_that_reaches_a_guard_is_named(rt: HostRuntime) -> Result<(), Fail> {
    let mut nodes = Vec::new(rt.alloc());
    nodes.push(Node::Else {
        ask: both_on(rt.alloc(), 0, 1)?,
        body: 1,
    })?;
    nodes.push(Node::Tell(both_on(rt.alloc(), 2, 1)?))?;
    let fault = fault_of(rt.alloc(), nodes)?;
    let expected = StrataFault::NotStratified {
        guard: 1,
        told: 1,
        node: 0,
    };
    assert_eq!(rt; fault, expected);
    Ok(())
}

/// `if a else b || if b else c`.
#[test]
fn chain_of_elses_counts_up(rt: HostRuntime) -> Result<(), Fail> {
    let mut nodes = Vec::new(rt.alloc());
    nodes.push(Node::Par { left: 1, right: 3 })?;
    nodes.push(Node::Else {
        ask: on(rt.alloc(), 0)?,
        body: 2,
    })?;
    nodes.push(Node::Tell(on(rt.alloc(), 1)?))?;
    nodes.push(Node::Else {
        ask: on(rt.alloc(), 1)?,
        body: 4,
    })?;
    nodes.push(Node::Tell(on(rt.alloc(), 2)?))?;
    let table = table_of(rt.alloc(), nodes)?;
    assert_eq!(rt; table.list(), [0u32, 1, 2].as_slice());
    Ok(())
}

/// `if a else hence a`: what is told later is told on a path of its own.
#[test]
fn else_over_a_later_tell_of_its_guard_has_a_table(rt: HostRuntime) -> Result<(), Fail> {
    let mut nodes = Vec::new(rt.alloc());
    nodes.push(Node::Else {
        ask: on(rt.alloc(), 0)?,
        body: 1,
    })?;
    nodes.push(Node::Hence { body: 2 })?;
    nodes.push(Node::Tell(on(rt.alloc(), 0)?))?;
    let table = table_of(rt.alloc(), nodes)?;
    assert_eq!(rt; table.list(), [0u32, 0, 0].as_slice());
    Ok(())
}

#[test]
fn faults_name_the_cells_and_the_node(rt: HostRuntime) -> Result<(), Fail> {
    let case = StrataFault::NotStratified {
        guard: 0,
        told: 1,
        node: 3,
    };
    let wanted = "not stratified, cell 0 guards cell 1 at node 3";
    assert_eq!(rt; format!(in rt.alloc(); "{case}")?.as_str(), wanted);
    let memory = StrataFault::Memory;
    assert_eq!(rt;
        format!(in rt.alloc(); "{memory}")?.as_str(),
        "out of memory"
    );
    Ok(())
}
