//! Lines that are read, refused and written, worked out by hand.
ghost use Rattle.std.specs.Prelude.{◌≤◌, IsTrue, vec_len};
ghost use Rattle.token_system.specs.Domain.{is_cell};

use crate::{LineFault, read_input, write_store};
use agent_core::{CellDecl, Name, Node, Program};
use std::alloc::Global;
use std::process::Abort;
use std::test::Fail;
use token_system::{Cell, Kind};

/// A signal of this name.
fn signal(alloc: Global, name: &[u8]) -> Result<CellDecl, Fail> {
    Ok(CellDecl {
        name: Name::make(name.to_vec(alloc)?),
        cell: Cell {
            kind: Kind::Signal,
            lo: 0,
            hi: 0,
        },
    })
}

/// A number of this name and domain.
fn number(alloc: Global, name: &[u8], lo: i64, hi: i64) -> Result<CellDecl, Fail>
    requires { IsTrue (is_cell Kind.Number lo hi) }
{
    Ok(CellDecl {
        name: Name::make(name.to_vec(alloc)?),
        cell: Cell {
            kind: Kind::Number,
            lo,
            hi,
        },
    })
}

/// The program `skip` over these declared cells.
fn over(alloc: Global, cells: Vec<CellDecl>) -> Result<Program, Fail>
    requires { vec_len cells ≤ 256 }
{
    let mut nodes = Vec::new(alloc);
    nodes.push(Node::Skip)?;
    let declared = cells.len() as u32;
    match Program::make(cells, declared, nodes) {
        Some(program) => Ok(program),
        None => Err(Fail::from("not a program")),
    }
}

/// `int x in 0..10; signal a, b; int y in 0..10; skip`.
fn two_numbers_and_two_signals(alloc: Global) -> Result<Program, Fail> {
    let mut cells = Vec::new(alloc);
    cells.push(number(alloc, b"x", 0, 10)?)?;
    cells.push(signal(alloc, b"a")?)?;
    cells.push(signal(alloc, b"b")?)?;
    cells.push(number(alloc, b"y", 0, 10)?)?;
    over(alloc, cells)
}

/// The line of the input that the line gives.
fn rewritten(alloc: Global, program: &Program, line: &[u8]) -> Result<Vec<u8>, LineFault> {
    let input = read_input(alloc, program, line)?;
    let mut written = Vec::new(alloc);
    write_store(program, &input, &mut written)?;
    Ok(written)
}

/// Asserts the line of the input that the line gives.
fn assert_rewritten<R: Abort>(
    rt: &R,
    alloc: Global,
    program: &Program,
    line: &[u8],
    wanted: &[u8],
) -> Result<(), Fail> {
    let written = rewritten(alloc, program, line)?;
    assert_eq!(rt; written.as_slice(), wanted, "{line:?}");
    Ok(())
}

#[test]
fn a_store_is_written_in_order_of_declaration(rt: HostRuntime) -> Result<(), Fail> {
    let alloc = rt.alloc();
    let program = two_numbers_and_two_signals(alloc)?;
    for (line, wanted) in [
        (b"".as_slice(), b"".as_slice()),
        (b"b a", b"a b"),
        (b"x>=3 x<=5", b"x>=3 x<=5"),
        (b"x>=5 x<=5", b"x=5"),
        (b"x>=3", b"x>=3"),
        (b"x<=5", b"x<=5"),
        (b"x=0 x<=0", b"x=0"),
        (b"y=2 a x>=6 x<=5", b"#x a y=2"),
        // beyond the domain, and no more than the domain says
        (b"x>=11", b"#x"),
        (b"x>=0 x<=10 y<=999999999", b""),
        (b"!a x>=2 x<=9 x>=1", b"x>=2 x<=9 !a"),
        (b"b !b #y", b"#b #y"),
    ] {
        assert_rewritten(&rt, alloc, &program, line, wanted)?;
    }
    Ok(())
}

#[test]
fn blanks_stand_anywhere_and_tokens_may_repeat(rt: HostRuntime) -> Result<(), Fail> {
    let alloc = rt.alloc();
    let program = two_numbers_and_two_signals(alloc)?;
    for (line, wanted) in [
        (b" \t\r ".as_slice(), b"".as_slice()),
        (b"\ta\r", b"a"),
        (b"  b\t\ta a  ", b"a b"),
        (b"x>=-0 x<=000000007", b"x<=7"),
    ] {
        assert_rewritten(&rt, alloc, &program, line, wanted)?;
    }
    Ok(())
}

#[test]
fn the_first_refused_field_decides(rt: HostRuntime) -> Result<(), Fail> {
    let alloc = rt.alloc();
    let program = two_numbers_and_two_signals(alloc)?;
    for (line, wanted) in [
        (b" a&".as_slice(), LineFault::BadToken { offset: 1 }),
        (b"q", LineFault::UnknownName { offset: 0 }),
        (b"a a>=1", LineFault::WrongKind { offset: 2 }),
        (b"a\t!x a&", LineFault::WrongKind { offset: 2 }),
        (b"a  else q", LineFault::UnknownName { offset: 3 }),
        (b"x>=1 a:3 q", LineFault::BadToken { offset: 5 }),
        (b"x>=1000000000", LineFault::BadToken { offset: 0 }),
        (b"a & b", LineFault::BadToken { offset: 2 }),
        (b"x >=3", LineFault::WrongKind { offset: 0 }),
        // names of 32 and of 33 bytes
        (
            b"a2345678901234567890123456789_12",
            LineFault::UnknownName { offset: 0 },
        ),
        (
            b"a2345678901234567890123456789_123",
            LineFault::BadToken { offset: 0 },
        ),
    ] {
        match rewritten(alloc, &program, line) {
            Ok(_) => assert!(rt; false, "{line:?} is read"),
            Err(fault) => assert_eq!(rt; fault, wanted, "{line:?}"),
        }
    }
    Ok(())
}

#[test]
fn a_line_has_up_to_32768_bytes(rt: HostRuntime) -> Result<(), Fail> {
    let alloc = rt.alloc();
    let program = two_numbers_and_two_signals(alloc)?;
    let mut line = vec![in alloc; b' '; 32_767]?;
    line.push(b'a')?;
    assert_rewritten(&rt, alloc, &program, &line, b"a")?;
    // no field is looked at
    line.push(b'&')?;
    match rewritten(alloc, &program, &line) {
        Ok(_) => assert!(rt; false, "it is read"),
        Err(fault) => assert_eq!(rt; fault, LineFault::LineTooLong),
    }
    Ok(())
}

#[test]
fn faults_say_what_is_refused_and_where(rt: HostRuntime) -> Result<(), Fail> {
    let alloc = rt.alloc();
    for (fault, wanted) in [
        (LineFault::BadToken { offset: 2 }, "bad token at offset 2"),
        (
            LineFault::UnknownName { offset: 0 },
            "unknown name at offset 0",
        ),
        (
            LineFault::WrongKind { offset: 32_767 },
            "wrong kind at offset 32767",
        ),
        (LineFault::LineTooLong, "line over 32768 bytes"),
        (LineFault::Memory, "out of memory"),
    ] {
        assert_eq!(rt; format!(in alloc; "{fault}")?.as_str(), wanted);
    }
    Ok(())
}

#[test]
fn numbers_of_the_widest_domain_and_of_one_number(rt: HostRuntime) -> Result<(), Fail> {
    let alloc = rt.alloc();
    let mut cells = Vec::new(alloc);
    cells.push(number(alloc, b"x", -999_999_999, 999_999_999)?)?;
    cells.push(number(alloc, b"four", 4, 4)?)?;
    let program = over(alloc, cells)?;
    for (line, wanted) in [
        (b"x>=999999999".as_slice(), b"x=999999999".as_slice()),
        (b"x<=-999999999", b"x=-999999999"),
        (b"x>=-999999999 x<=999999999", b""),
        (b"four=4", b""),
        (b"four=5", b"#four"),
    ] {
        assert_rewritten(&rt, alloc, &program, line, wanted)?;
    }
    Ok(())
}

/// A name of 32 bytes that ends with the number.
fn long_name(alloc: Global, number: u8) -> Result<Vec<u8>, Fail> {
    let mut name = b"a_name_of_32_bytes_that_ends_".to_vec(alloc)?;
    name.push(b'0' + number / 100)?;
    name.push(b'0' + number / 10 % 10)?;
    name.push(b'0' + number % 10)?;
    Ok(name)
}

/// The domain is the widest, and each bound is one tighter than its end.
#[test]
fn the_longest_line_of_a_store_reads_back(rt: HostRuntime) -> Result<(), Fail> {
    let alloc = rt.alloc();
    let mut cells = Vec::new(alloc);
    let mut line = Vec::new(alloc);
    for place in 0..=255u8 {
        let name = long_name(alloc, place)?;
        cells.push(number(alloc, &name, -999_999_999, 999_999_999)?)?;
        if place > 0 {
            line.push(b' ')?;
        }
        line.extend_from_slice(&name)?;
        line.extend_from_slice(b">=-999999998 ")?;
        line.extend_from_slice(&name)?;
        line.extend_from_slice(b"<=-999999997")?;
    }
    assert_eq!(rt; cells.len(), 256);
    let program = over(alloc, cells)?;
    // 256 cells, each of two texts of 44 bytes with a space between them, and 255 spaces
    assert_eq!(rt; line.len(), 23_039);
    assert_rewritten(&rt, alloc, &program, &line, &line)
}
