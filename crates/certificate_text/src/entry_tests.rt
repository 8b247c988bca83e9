//! Out lines as they are read, and whole entries, worked out by hand.

use crate::tests::two_declared_and_two_local;
use crate::{
    Entry, EntryFault, EntryLineFault, RunList, read_entry_line, read_out, write_entry, write_out,
};
use agent_core::{CellDecl, Constraint, Name, Node, Program};
use std::alloc::Global;
use std::test::Fail;
use token_system::{Cell, Kind, Store, Token};

#[test]
fn an_out_line_is_read_as_what_its_tokens_tell(rt: HostRuntime) -> Result<(), Fail> {
    let alloc = rt.alloc();
    let program = two_declared_and_two_local(alloc)?;
    for (line, wanted) in [
        (b"out".as_slice(), b"out".as_slice()),
        (
            b"out s @0.2=2 @0.0<=-2 #@1.0.2",
            b"out s @0.0<=-2 @0.2=2 #@1.0.2",
        ),
        (b" \tout\r @0.0>=3 x>=03 @0.00<=3", b"out x>=3 @0.0=3"),
        (b"out @1.1.2 x=0 !@1.1.2", b"out x=0 #@1.1.2"),
        (b"out @0.1>=-5 @1.2.2", b"out @1.2.2"),
    ] {
        let out = read_out(alloc, &program, 2, line)?;
        let mut text = Vec::new(alloc);
        write_out(alloc, &program, &out, &mut text)?;
        assert_eq!(rt; text.as_slice(), wanted, "{line:?}");
    }
    Ok(())
}

#[test]
fn the_first_bad_field_of_an_out_line_decides(rt: HostRuntime) -> Result<(), Fail> {
    let alloc = rt.alloc();
    let program = two_declared_and_two_local(alloc)?;
    for (line, wanted) in [
        (b"".as_slice(), 0),
        (b"  in s", 2),
        (b"out s @1.0.0 y", 13),
        (b"out s out", 6),
        // a birth after the instant, and one before the outer one
        (b"out @0.3=1", 4),
        (b"out @1.2.1", 4),
        // a birth too few, and one too many
        (b"out @1.0", 4),
        (b"out @0.0.0>=1", 4),
        // a node that makes no cell, and none
        (b"out @2.0", 4),
        (b"out @7.0", 4),
        // tokens of another kind
        (b"out @0.0", 4),
        (b"out @1.0.0>=1", 4),
    ] {
        match read_out(alloc, &program, 2, line) {
            Ok(_) => assert!(rt; false, "{line:?} is read"),
            Err(fault) => assert_eq!(rt; fault, EntryLineFault::Bad { offset: wanted }, "{line:?}"),
        }
    }
    Ok(())
}

/// The constraint of one signal that is on.
fn is_on(alloc: Global, cell: u32) -> Result<Constraint, Fail> {
    let mut list = Vec::new(alloc);
    list.push((cell, Token::On))?;
    Ok(Constraint::make(list))
}

/// `signal a; new signal s in {s || if s then a}`.
fn one_told_through_a_local(alloc: Global) -> Result<Program, Fail> {
    let mut cells = Vec::new(alloc);
    for name in [b"a", b"s"] {
        cells.push(CellDecl {
            name: Name::make(name.to_vec(alloc)?),
            cell: Cell {
                kind: Kind::Signal,
                lo: 0,
                hi: 0,
            },
        })?;
    }
    let mut nodes = Vec::new(alloc);
    nodes.push(Node::New { cell: 1, body: 1 })?;
    nodes.push(Node::Par { left: 2, right: 3 })?;
    nodes.push(Node::Tell(is_on(alloc, 1)?))?;
    nodes.push(Node::Then {
        ask: is_on(alloc, 1)?,
        body: 4,
    })?;
    nodes.push(Node::Tell(is_on(alloc, 0)?))?;
    match Program::make(cells, 1, nodes) {
        Some(program) => Ok(program),
        None => Err(Fail::from("not a program")),
    }
}

/// The entry of which nothing is told and where no leaf tells.
fn no_entry(alloc: Global) -> Entry {
    Entry {
        input: Store::new(alloc),
        out: Store::new(alloc),
        run: RunList::make(Vec::new(alloc)),
    }
}

#[test]
fn an_entry_is_read_line_by_line_and_written_at_once(rt: HostRuntime) -> Result<(), Fail> {
    let alloc = rt.alloc();
    let program = one_told_through_a_local(alloc)?;
    let mut entry = no_entry(alloc);
    let mut text = Vec::new(alloc);
    write_entry(alloc, &program, &entry, &mut text)?;
    assert_eq!(rt; text.as_slice(), b"in\nout\nrun\n".as_slice());
    for (which, line) in [
        (2, b"run 0 1".as_slice()),
        (1, b"out @0.0 a"),
        (0, b"in a"),
        (0, b"in"),
    ] {
        read_entry_line(alloc, &program, 0, which, line, &mut entry)?;
    }
    text.clear();
    write_entry(alloc, &program, &entry, &mut text)?;
    assert_eq!(rt; text.as_slice(), b"in\nout a @0.0\nrun 0 1\n".as_slice());
    // a line that is bad changes nothing
    for (which, line, wanted) in [
        (0, b"out a".as_slice(), 0),
        (1, b"oot", 0),
        (1, b"out a @0.1", 6),
        (2, b"run 1 a", 6),
    ] {
        match read_entry_line(alloc, &program, 0, which, line, &mut entry) {
            Ok(()) => assert!(rt; false, "{line:?} is read"),
            Err(fault) => assert_eq!(rt; fault, EntryLineFault::Bad { offset: wanted }, "{line:?}"),
        }
    }
    text.clear();
    write_entry(alloc, &program, &entry, &mut text)?;
    assert_eq!(rt; text.as_slice(), b"in\nout a @0.0\nrun 0 1\n".as_slice());
    Ok(())
}

#[test]
fn an_entry_with_a_line_that_is_too_long_is_not_written(rt: HostRuntime) -> Result<(), Fail> {
    let alloc = rt.alloc();
    let program = one_told_through_a_local(alloc)?;
    let mut entry = no_entry(alloc);
    let mut text = b"x".to_vec(alloc)?;
    // three bytes of `run`, and two for each number
    entry.run = RunList::make(vec![in alloc; 0; 524_287]?);
    match write_entry(alloc, &program, &entry, &mut text) {
        Ok(()) => assert!(rt; false, "it is written"),
        Err(fault) => assert_eq!(rt; fault, EntryFault::LineLong),
    }
    assert_eq!(rt; text.as_slice(), b"x".as_slice());
    entry.run = RunList::make(vec![in alloc; 0; 524_286]?);
    write_entry(alloc, &program, &entry, &mut text)?;
    assert_eq!(rt; text.len(), 1 + 3 + 4 + 1_048_576);
    Ok(())
}
