//! Core texts of programs, worked out by hand.
ghost use Rattle.std.specs.Prelude.{◌<◌};

use super::*;
use agent_core::{CellDecl, Constraint, Name, Node, Program};
use std::alloc::Global;
use std::test::Fail;
use token_system::{Cell, Kind, Token};

const SIGNAL: Cell = Cell {
    kind: Kind::Signal,
    lo: 0,
    hi: 0,
};

/// The cell with this name.
fn named(alloc: Global, name: &[u8], cell: Cell) -> Result<CellDecl, Fail> {
    Ok(CellDecl {
        name: Name::make(name.to_vec(alloc)?),
        cell,
    })
}

/// Signals with these names.
fn signals(alloc: Global, names: &[&[u8]]) -> Result<Vec<CellDecl>, Fail> {
    let mut cells = Vec::new(alloc);
    for name in names {
        cells.push(named(alloc, name, SIGNAL)?)?;
    }
    Ok(cells)
}

/// The constraint of these tokens.
fn ask(alloc: Global, tokens: &[(u32, Token)]) -> Result<Constraint, Fail> {
    if tokens.is_empty() || tokens.len() > 16 {
        return Err(Fail::from("not a constraint"));
    }
    Ok(Constraint::make(tokens.to_vec(alloc)?))
}

/// The constraint that this signal is on.
fn on(alloc: Global, cell: u32) -> Result<Constraint, Fail> {
    ask(alloc, &[(cell, Token::On)])
}

/// Tells that this signal is on.
fn tell(alloc: Global, cell: u32) -> Result<Node, Fail> {
    Ok(Node::Tell(on(alloc, cell)?))
}

/// The program of these nodes.
fn program(cells: Vec<CellDecl>, declared: u32, nodes: Vec<Node>) -> Result<Program, Fail> {
    match Program::make(cells, declared, nodes) {
        Some(program) => Ok(program),
        None => Err(Fail::from("not a program")),
    }
}

/// The core text of the program of these nodes.
fn text_of(
    alloc: Global,
    cells: Vec<CellDecl>,
    declared: u32,
    nodes: Vec<Node>,
) -> Result<Vec<u8>, Fail> {
    let program = program(cells, declared, nodes)?;
    let mut text = Vec::new(alloc);
    print_core(&program, &mut text)?;
    Ok(text)
}

#[test]
fn a_default_at_every_instant(rt: HostRuntime) -> Result<(), Fail> {
    let alloc = rt.alloc();
    let mut nodes = Vec::new(alloc);
    nodes.push(Node::Par { left: 1, right: 3 })?;
    nodes.push(Node::Else {
        ask: on(alloc, 0)?,
        body: 2,
    })?;
    nodes.push(tell(alloc, 1)?)?;
    nodes.push(Node::Hence { body: 4 })?;
    nodes.push(Node::Else {
        ask: on(alloc, 0)?,
        body: 5,
    })?;
    nodes.push(tell(alloc, 1)?)?;
    let text = text_of(alloc, signals(alloc, &[b"a", b"b"])?, 2, nodes)?;
    assert_eq!(rt;
        text.as_slice(),
        b"signal a;\nsignal b;\nif a else b || hence if a else b\n".as_slice()
    );
    Ok(())
}

/// Adds the nodes of `if a then { if D else b || hence D }`, where the first has this number.
fn push_when_body(alloc: Global, first: u32, nodes: &mut Vec<Node>) -> Result<(), Fail>
    requires { first < 100 }
{
    nodes.push(Node::Then {
        ask: on(alloc, 0)?,
        body: first + 1,
    })?;
    nodes.push(Node::Par {
        left: first + 2,
        right: first + 4,
    })?;
    nodes.push(Node::Else {
        ask: on(alloc, 2)?,
        body: first + 3,
    })?;
    nodes.push(tell(alloc, 1)?)?;
    nodes.push(Node::Hence { body: first + 5 })?;
    nodes.push(tell(alloc, 2)?)?;
    Ok(())
}

#[test]
fn a_hidden_cell_has_a_dollar_and_its_number(rt: HostRuntime) -> Result<(), Fail> {
    let alloc = rt.alloc();
    let mut nodes = Vec::new(alloc);
    nodes.push(Node::New { cell: 2, body: 1 })?;
    nodes.push(Node::Par { left: 2, right: 8 })?;
    push_when_body(alloc, 2, &mut nodes)?;
    nodes.push(Node::Hence { body: 9 })?;
    push_when_body(alloc, 9, &mut nodes)?;
    let text = text_of(alloc, signals(alloc, &[b"a", b"b", b"$2"])?, 2, nodes)?;
    let wanted =
        b"signal a;\nsignal b;\nnew signal $2 in { if a then { if $2 else b || hence $2 } || hence if a then { if $2 else b || hence $2 } }\n";
    assert_eq!(rt; text.as_slice(), wanted.as_slice());
    Ok(())
}

#[test]
fn a_par_on_the_left_stands_in_braces_and_one_on_the_right_does_not(
    rt: HostRuntime,
) -> Result<(), Fail> {
    let alloc = rt.alloc();
    let mut left = Vec::new(alloc);
    left.push(Node::Par { left: 1, right: 4 })?;
    left.push(Node::Par { left: 2, right: 3 })?;
    left.push(tell(alloc, 0)?)?;
    left.push(tell(alloc, 1)?)?;
    left.push(tell(alloc, 2)?)?;
    let text = text_of(alloc, signals(alloc, &[b"a", b"b", b"c"])?, 3, left)?;
    assert_eq!(rt;
        text.as_slice(),
        b"signal a;\nsignal b;\nsignal c;\n{ a || b } || c\n".as_slice()
    );
    let mut right = Vec::new(alloc);
    right.push(Node::Par { left: 1, right: 2 })?;
    right.push(tell(alloc, 0)?)?;
    right.push(Node::Par { left: 3, right: 4 })?;
    right.push(tell(alloc, 1)?)?;
    right.push(tell(alloc, 2)?)?;
    let text = text_of(alloc, signals(alloc, &[b"a", b"b", b"c"])?, 3, right)?;
    assert_eq!(rt;
        text.as_slice(),
        b"signal a;\nsignal b;\nsignal c;\na || b || c\n".as_slice()
    );
    Ok(())
}

#[test]
fn numbers_have_their_domains_and_tokens_their_marks(rt: HostRuntime) -> Result<(), Fail> {
    let alloc = rt.alloc();
    let mut cells = signals(alloc, &[b"a"])?;
    let x = Cell {
        kind: Kind::Number,
        lo: -7,
        hi: 10,
    };
    let y = Cell {
        kind: Kind::Number,
        lo: 0,
        hi: 0,
    };
    cells.push(named(alloc, b"x", x)?)?;
    cells.push(named(alloc, b"y_2", y)?)?;
    let mut nodes = Vec::new(alloc);
    nodes.push(Node::New { cell: 2, body: 1 })?;
    nodes.push(Node::Then {
        ask: ask(
            alloc,
            &[
                (1, Token::AtLeast(-3)),
                (1, Token::AtMost(5)),
                (0, Token::Off),
            ],
        )?,
        body: 2,
    })?;
    nodes.push(Node::Next { body: 3 })?;
    nodes.push(Node::Par { left: 4, right: 5 })?;
    nodes.push(Node::Skip)?;
    nodes.push(Node::Tell(ask(alloc, &[(0, Token::Clash), (2, Token::AtMost(0))])?))?;
    let text = text_of(alloc, cells, 2, nodes)?;
    let wanted =
        b"signal a;\nint x in -7..10;\nnew int y_2 in 0..0 in if x>=-3 & x<=5 & !a then next { skip || #a & y_2<=0 }\n";
    assert_eq!(rt; text.as_slice(), wanted.as_slice());
    Ok(())
}

#[test]
fn a_text_is_appended_to_what_stands_there(rt: HostRuntime) -> Result<(), Fail> {
    let alloc = rt.alloc();
    let mut nodes = Vec::new(alloc);
    nodes.push(Node::Skip)?;
    let program = program(Vec::new(alloc), 0, nodes)?;
    let mut text = b"; ".to_vec(alloc)?;
    print_core(&program, &mut text)?;
    assert_eq!(rt; text.as_slice(), b"; skip\n".as_slice());
    Ok(())
}
