//! Names and lines of certificates, worked out by hand.
ghost use Rattle.token_system.specs.Values.{IsProper};

use crate::{
    EntryLineFault, read_in, read_local_token, read_name, read_run, write_in, write_name,
    write_out, write_run,
};
use agent_core::{CellDecl, Name, Node, Program};
use std::alloc::Global;
use std::test::Fail;
use token_system::{Births, Cell, CellName, Kind, Store, Token, Value};

/// A signal.
pub fn signal() -> Cell {
    Cell {
        kind: Kind::Signal,
        lo: 0,
        hi: 0,
    }
}

/// A number from -5 to 10.
pub fn number() -> Cell {
    Cell {
        kind: Kind::Number,
        lo: -5,
        hi: 10,
    }
}

/// `signal s; int x in -5..10; new int n in -5..10 in new signal t in skip`.
pub fn two_declared_and_two_local(alloc: Global) -> Result<Program, Fail> {
    let mut cells = Vec::new(alloc);
    for (name, cell) in [
        (b"s", signal()),
        (b"x", number()),
        (b"n", number()),
        (b"t", signal()),
    ] {
        cells.push(CellDecl {
            name: Name::make(name.to_vec(alloc)?),
            cell,
        })?;
    }
    let mut nodes = Vec::new(alloc);
    nodes.push(Node::New { cell: 2, body: 1 })?;
    nodes.push(Node::New { cell: 3, body: 2 })?;
    nodes.push(Node::Skip)?;
    match Program::make(cells, 2, nodes) {
        Some(program) => Ok(program),
        None => Err(Fail::from("not a program")),
    }
}

/// Keeps this value for the local cell of this node under these births.
pub fn keep_local(
    alloc: Global,
    store: &mut Store,
    node: u32,
    births: &[u32],
    cell: Cell,
    value: Value,
) -> Result<(), Fail>
    requires { IsProper value }
{
    let births = Births::from_slice(alloc, births)?;
    store.keep(CellName::Local { node, births }, cell, value)?;
    Ok(())
}

#[test]
fn an_in_line_is_the_store_line_behind_its_word(rt: HostRuntime) -> Result<(), Fail> {
    let alloc = rt.alloc();
    let program = two_declared_and_two_local(alloc)?;
    let mut input = Store::new(alloc);
    let mut text = Vec::new(alloc);
    write_in(&program, &input, &mut text)?;
    assert_eq!(rt; text.as_slice(), b"in".as_slice());
    text.push(b'\n')?;
    input.keep(
        CellName::Declared(1),
        number(),
        Value::Number { lo: 3, hi: 10 },
    )?;
    input.keep(CellName::Declared(0), signal(), Value::Clash)?;
    write_in(&program, &input, &mut text)?;
    assert_eq!(rt; text.as_slice(), b"in\nin #s x>=3".as_slice());
    Ok(())
}

#[test]
fn an_in_line_is_read_as_what_its_tokens_tell(rt: HostRuntime) -> Result<(), Fail> {
    let alloc = rt.alloc();
    let program = two_declared_and_two_local(alloc)?;
    // longer than a line of a trace
    let mut long = b"in".to_vec(alloc)?;
    long.extend_from_slice(&vec![in alloc; b' '; 40_000]?)?;
    long.push(b's')?;
    for (line, wanted) in [
        (b"in".as_slice(), b"in".as_slice()),
        (b" \tin\r x>=03 s ", b"in s x>=3"),
        (b"in x=0 s !s x>=3", b"in #s #x"),
        (long.as_slice(), b"in s"),
    ] {
        let input = read_in(alloc, &program, line)?;
        let mut text = Vec::new(alloc);
        write_in(&program, &input, &mut text)?;
        assert_eq!(rt; text.as_slice(), wanted, "{line:?}");
    }
    Ok(())
}

#[test]
fn the_first_bad_field_of_an_in_line_decides(rt: HostRuntime) -> Result<(), Fail> {
    let alloc = rt.alloc();
    let program = two_declared_and_two_local(alloc)?;
    for (line, wanted) in [
        (b"".as_slice(), 0),
        (b" \r", 0),
        (b"  out s", 2),
        (b"s in", 0),
        (b"in s y x", 5),
        (b"in x s>=1", 3),
        (b"in s  x>=", 6),
        (b"in @0.0=1", 3),
        (b"in in", 3),
    ] {
        match read_in(alloc, &program, line) {
            Ok(_) => assert!(rt; false, "{line:?} is read"),
            Err(fault) => assert_eq!(rt; fault, EntryLineFault::Bad { offset: wanted }, "{line:?}"),
        }
    }
    Ok(())
}

#[test]
fn an_out_line_has_the_local_cells_by_node_and_births(rt: HostRuntime) -> Result<(), Fail> {
    let alloc = rt.alloc();
    let program = two_declared_and_two_local(alloc)?;
    let mut output = Store::new(alloc);
    let mut text = Vec::new(alloc);
    write_out(alloc, &program, &output, &mut text)?;
    assert_eq!(rt; text.as_slice(), b"out".as_slice());
    keep_local(alloc, &mut output, 1, &[0, 2], signal(), Value::Clash)?;
    keep_local(
        alloc,
        &mut output,
        0,
        &[10],
        number(),
        Value::Number { lo: -1, hi: 3 },
    )?;
    keep_local(
        alloc,
        &mut output,
        0,
        &[2],
        number(),
        Value::Number { lo: 2, hi: 2 },
    )?;
    text.clear();
    write_out(alloc, &program, &output, &mut text)?;
    assert_eq!(rt;
        text.as_slice(),
        b"out @0.2=2 @0.10>=-1 @0.10<=3 #@1.0.2".as_slice()
    );
    keep_local(
        alloc,
        &mut output,
        0,
        &[0],
        number(),
        Value::Number { lo: -5, hi: -2 },
    )?;
    keep_local(
        alloc,
        &mut output,
        1,
        &[0, 0],
        signal(),
        Value::Signal {
            on: false,
            off: true,
        },
    )?;
    output.keep(
        CellName::Declared(0),
        signal(),
        Value::Signal {
            on: true,
            off: false,
        },
    )?;
    text.clear();
    write_out(alloc, &program, &output, &mut text)?;
    assert_eq!(rt;
        text.as_slice(),
        b"out s @0.0<=-2 @0.2=2 @0.10>=-1 @0.10<=3 !@1.0.0 #@1.0.2".as_slice()
    );
    Ok(())
}

/// Whether the bytes are the name of the cell of this node under these births.
fn names(alloc: Global, bytes: &[u8], node: u32, births: &[u32]) -> Result<bool, Fail> {
    Ok(match read_name(alloc, bytes)? {
        Some(
            CellName::Local {
                node: found,
                births: list,
            },
        ) => found == node && list.list() == births,
        _ => false,
    })
}

#[test]
fn a_local_name_has_a_node_and_births(rt: HostRuntime) -> Result<(), Fail> {
    let alloc = rt.alloc();
    assert!(rt; names(alloc, b"@0.0", 0, &[0])?);
    assert!(rt; names(alloc, b"@3.0.12", 3, &[0, 12])?);
    assert!(rt; names(alloc, b"@7", 7, &[])?);
    // zeros in front, and a name of more than 32 bytes
    assert!(rt;
        names(
            alloc,
            b"@000000003.000000000.000000012.000000012",
            3,
            &[0, 12, 12]
        )?
    );
    for bytes in [
        b"".as_slice(),
        b"@",
        b"3.0",
        b"@3.",
        b"@.0",
        b"@3..0",
        b"@3.-1",
        b"@3.1000000000",
        b"@3.0 ",
        b"@3.0000000000",
    ] {
        assert!(rt; read_name(alloc, bytes)?.is_none(), "{bytes:?}");
    }
    Ok(())
}

#[test]
fn a_local_name_is_written_without_zeros_in_front(rt: HostRuntime) -> Result<(), Fail> {
    let alloc = rt.alloc();
    let mut text = Vec::new(alloc);
    write_name(4095, &[0, 10, 65_535], &mut text)?;
    assert_eq!(rt; text.as_slice(), b"@4095.0.10.65535".as_slice());
    Ok(())
}

#[test]
fn a_run_line_lists_numbers_behind_its_word(rt: HostRuntime) -> Result<(), Fail> {
    let alloc = rt.alloc();
    for (line, wanted) in [
        (b"run".as_slice(), [].as_slice()),
        (b"run 0 1", &[0, 1]),
        (b" \trun\r 1 0 1 ", &[1, 0, 1]),
        (b"run 007 999999999", &[7, 999_999_999]),
    ] {
        let numbers = read_run(alloc, line)?;
        assert_eq!(rt; numbers.as_slice(), wanted, "{line:?}");
    }
    let mut text = Vec::new(alloc);
    write_run(&[2, 0, 10], &mut text)?;
    assert_eq!(rt; text.as_slice(), b"run 2 0 10".as_slice());
    Ok(())
}

#[test]
fn the_first_bad_field_of_a_run_line_decides(rt: HostRuntime) -> Result<(), Fail> {
    let alloc = rt.alloc();
    for (line, wanted) in [
        (b"".as_slice(), 0),
        (b" \t", 0),
        (b"  ran 1", 2),
        (b"run1", 0),
        (b"run 1 a -2", 6),
        (b"run 1000000000", 4),
        (b"run 1 run", 6),
    ] {
        match read_run(alloc, line) {
            Ok(_) => assert!(rt; false, "{line:?} is read"),
            Err(fault) => assert_eq!(rt; fault, EntryLineFault::Bad { offset: wanted }, "{line:?}"),
        }
    }
    Ok(())
}

#[test]
fn a_run_line_has_up_to_1048576_bytes(rt: HostRuntime) -> Result<(), Fail> {
    let alloc = rt.alloc();
    let mut line = vec![in alloc; b' '; 1_048_573]?;
    line.extend_from_slice(b"run")?;
    assert!(rt; read_run(alloc, &line)?.is_empty());
    line.push(b'a')?;
    match read_run(alloc, &line) {
        Ok(_) => assert!(rt; false, "it is read"),
        Err(fault) => assert_eq!(rt; fault, EntryLineFault::Bad { offset: 1_048_576 }),
    }
    Ok(())
}

#[test]
fn a_token_of_a_local_cell_is_a_name_and_what_is_said_of_it(rt: HostRuntime) -> Result<(), Fail> {
    let alloc = rt.alloc();
    for (bytes, first, second) in [
        (b"@3.0".as_slice(), Token::On, None),
        (b"!@3.0", Token::Off, None),
        (b"#@3.0", Token::Clash, None),
        (b"@3.0>=-5", Token::AtLeast(-5), None),
        (b"@3.0<=007", Token::AtMost(7), None),
        (b"@3.0=2", Token::AtLeast(2), Some(Token::AtMost(2))),
    ] {
        let Some(token) = read_local_token(alloc, bytes)? else {
            assert!(rt; false, "{bytes:?} is not read");
            return Ok(());
        };
        assert_eq!(rt; (token.first, token.second), (first, second), "{bytes:?}");
    }
    for bytes in [
        b"".as_slice(),
        b"a",
        b"!a",
        b"@3.0>5",
        b"@3.0=",
        b"!@3.0=1",
        b">=1",
        b"@3=>=1",
    ] {
        assert!(rt; read_local_token(alloc, bytes)?.is_none(), "{bytes:?}");
    }
    Ok(())
}
