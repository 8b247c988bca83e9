//! Books of short runs, worked out by hand.
use crate::Book;
use agent_core::{CellDecl, Constraint, Name, Node, Program};
use agent_laws::{by_roots_law, one_output_law};
use instant_net::{net_outputs_law, open_net, open_words, stratified_net_law};
use settle::settle;
use std::alloc::Global;
use std::test::Fail;
use strata::strata;
use token_system::{Cell, CellName, Kind, Store, Token, Value};

/// The constraint that this cell is on.
fn on(alloc: Global, cell: u32) -> Result<Constraint, Fail> {
    let mut list = Vec::new(alloc);
    list.push((cell, Token::On))?;
    Ok(Constraint::make(list))
}

/// The book of the program of these nodes over so many signals, some of them declared.
fn open_book(alloc: Global, signals: u32, declared: u32, nodes: Vec<Node>) -> Result<Book, Fail> {
    let mut cells = Vec::new(alloc);
    for _ in 0..signals {
        cells.push(CellDecl {
            name: Name::make(b"a".to_vec(alloc)?),
            cell: Cell {
                kind: Kind::Signal,
                lo: 0,
                hi: 0,
            },
        })?;
    }
    let Some(program) = Program::make(cells, declared, nodes) else {
        return Err(Fail::from("not a program"));
    };
    match strata(alloc, &program) {
        Ok(levels) => Ok(Book::open(alloc, program, levels)?),
        Err(_) => Err(Fail::from("not stratified")),
    }
}

/// Settles and closes the next instant, whose input tells nothing.
fn close_next(alloc: Global, book: &mut Book) -> Result<(), Fail> {
    one_output_law();
    by_roots_law();
    stratified_net_law();
    net_outputs_law();
    let instant = book.instants();
    if instant >= 65_536 {
        return Err(Fail::from("no room"));
    }
    let roots = book.roots().list(alloc)?;
    let net = match open_net(
        alloc,
        book.program(),
        book.levels(),
        &roots,
        instant,
        65_536,
    ) {
        Ok(net) => net,
        Err(_) => return Err(Fail::from("no net")),
    };
    let input = Store::new(alloc);
    let mut words = open_words(alloc, &net, &input)?;
    settle(&net, &mut words, 0);
    book.close(alloc, &net, input, &words)?;
    Ok(())
}

/// Whether the store says that this signal is on, and of no other cell anything.
fn only(store: &Store, cell: u32) -> bool {
    match store.get(&CellName::Declared(cell)) {
        Some(value) => {
            store.len() == 1
                && value
                    == Value::Signal {
                        on: true,
                        off: false,
                    }
        }
        None => false,
    }
}

/// `signal a, b; a || hence if a else b`: `a` at the first instant, and `b` at each later one, whose one root stays.
#[test]
fn a_default_runs_at_each_later_instant(rt: HostRuntime) -> Result<(), Fail> {
    let mut nodes = Vec::new(rt.alloc());
    nodes.push(Node::Par { left: 1, right: 2 })?;
    nodes.push(Node::Tell(on(rt.alloc(), 0)?))?;
    nodes.push(Node::Hence { body: 3 })?;
    nodes.push(Node::Else {
        ask: on(rt.alloc(), 0)?,
        body: 4,
    })?;
    nodes.push(Node::Tell(on(rt.alloc(), 1)?))?;
    let mut book = open_book(rt.alloc(), 2, 2, nodes)?;
    assert_eq!(rt; book.instants(), 0);
    assert_eq!(rt; book.program().declared(), 2);
    assert_eq!(rt; book.levels().list(), [0, 1].as_slice());
    for _ in 0..3 {
        close_next(rt.alloc(), &mut book)?;
    }
    assert_eq!(rt; book.instants(), 3);
    assert_eq!(rt; book.roots().len(), 1);
    let outs = book.outs();
    assert_eq!(rt; outs.len(), 3);
    assert!(rt; only(&outs[0], 0));
    assert!(rt; only(&outs[1], 1));
    assert!(rt; only(&outs[2], 1));
    Ok(())
}

/// `signal a; new signal s in {s || {if s then a || next s}}`: `a` at the first instant, and then the local cell alone,
/// which is not shown. Behind that nothing is left to run.
#[test]
fn local_cells_are_in_no_out(rt: HostRuntime) -> Result<(), Fail> {
    let mut nodes = Vec::new(rt.alloc());
    nodes.push(Node::New { cell: 1, body: 1 })?;
    nodes.push(Node::Par { left: 2, right: 3 })?;
    nodes.push(Node::Tell(on(rt.alloc(), 1)?))?;
    nodes.push(Node::Par { left: 4, right: 6 })?;
    nodes.push(Node::Then {
        ask: on(rt.alloc(), 1)?,
        body: 5,
    })?;
    nodes.push(Node::Tell(on(rt.alloc(), 0)?))?;
    nodes.push(Node::Next { body: 7 })?;
    nodes.push(Node::Tell(on(rt.alloc(), 1)?))?;
    let mut book = open_book(rt.alloc(), 2, 1, nodes)?;
    close_next(rt.alloc(), &mut book)?;
    assert_eq!(rt; book.roots().len(), 1);
    close_next(rt.alloc(), &mut book)?;
    assert_eq!(rt; book.roots().len(), 0);
    let outs = book.outs();
    assert_eq!(rt; outs.len(), 2);
    assert!(rt; only(&outs[0], 0));
    assert!(rt; outs[1].is_empty());
    Ok(())
}
