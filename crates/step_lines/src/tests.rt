//! Lines of steps, worked out by hand.
ghost use Rattle.std.specs.Prelude.{◌≤◌, IfOk, length};
ghost use Rattle.std.specs.List.Sorted.{IsStrictlySortedBy};
ghost use Rattle.agent_core.specs.Closures.{closure_cmp};
ghost use Rattle.agent_core.specs.WellFormed.{IsWellFormed};
ghost use Rattle.agent_laws.specs.Laws.{AreClosures};
ghost use Rattle.instant_net.specs.Limits.{most_roots};

use crate::read_step;
use agent_core::{CellDecl, Closure, Constraint, Levels, Name, Node, Program};
use instant_core::CoreStep;
use instant_net::{Net, open_net};
use std::alloc::Global;
use std::test::Fail;
use token_system::{Births, Cell, Kind, Token};

/// A signal.
fn signal() -> Cell {
    Cell {
        kind: Kind::Signal,
        lo: 0,
        hi: 0,
    }
}

/// A number from -5 to 10.
fn number() -> Cell {
    Cell {
        kind: Kind::Number,
        lo: -5,
        hi: 10,
    }
}

/// `signal a, b; int x in -5..10; new int n in -5..10 in new signal t in n >= 2 & t`. In its nets the signals share word 0,
/// and word 1 is the first of `x`, word 3 that of `n`.
fn program(alloc: Global) -> Result<Program, Fail>
    ensures { IfOk result IsWellFormed }
{
    let mut cells = Vec::new(alloc);
    for (name, cell) in [
        (b"a", signal()),
        (b"b", signal()),
        (b"x", number()),
        (b"n", number()),
        (b"t", signal()),
    ] {
        cells.push(CellDecl {
            name: Name::make(name.to_vec(alloc)?),
            cell,
        })?;
    }
    let told = [(3, Token::AtLeast(2)), (4, Token::On)].to_vec(alloc)?;
    let mut nodes = Vec::new(alloc);
    nodes.push(Node::New { cell: 3, body: 1 })?;
    nodes.push(Node::New { cell: 4, body: 2 })?;
    nodes.push(Node::Tell(Constraint::make(told)))?;
    match Program::make(cells, 3, nodes) {
        Some(program) => Ok(program),
        None => Err(Fail::from("not a program")),
    }
}

/// The root.
fn first_roots(alloc: Global, program: &Program) -> Result<Vec<Closure>, Fail>
    requires { IsWellFormed program.now }
    ensures closures { IfOk result (λ roots. AreClosures program.now roots.items) }
    ensures sorted { IfOk result (λ roots. IsStrictlySortedBy closure_cmp roots.items) }
    ensures bounded { IfOk result (λ roots. length roots.items ≤ most_roots) }
{
    let mut roots = Vec::new(alloc);
    roots.push(Closure {
        node: 0,
        births: Births::make(Vec::new(alloc)),
    })?;
    Ok(roots)
}

/// The net of the first instant.
fn opened(alloc: Global, program: &Program) -> Result<Net, Fail>
    requires { IsWellFormed program.now }
{
    let levels = Levels::make([0, 0, 0, 0, 0].to_vec(alloc)?);
    if program.cells().len() != 5 {
        return Err(Fail::from("not five cells"));
    }
    let roots = first_roots(alloc, program)?;
    match open_net(alloc, program, &levels, &roots, 0, 100) {
        Ok(net) => Ok(net),
        Err(_) => Err(Fail::from("no net")),
    }
}

/// The step that the line says over the net of that program.
fn step_of(alloc: Global, line: &[u8]) -> Result<Option<CoreStep>, Fail> {
    let program = program(alloc)?;
    let net = opened(alloc, &program)?;
    Ok(read_step(alloc, &program, &net, line)?)
}

#[test]
fn each_kind_of_line_is_read(rt: HostRuntime) -> Result<(), Fail> {
    let worker = 7;
    for (line, wanted) in [
        (
            b"7 load x.lo".as_slice(),
            CoreStep::Load { worker, word: 1 },
        ),
        (b"7 seek 12", CoreStep::Seek { worker, leaf: 12 }),
        (b"7 announce 0", CoreStep::Announce { worker, leaf: 0 }),
        (
            b"7 claim 65535",
            CoreStep::Claim {
                worker,
                leaf: 65535,
            },
        ),
        (b"7 post", CoreStep::Post { worker }),
        (b"7 finish", CoreStep::Finish { worker }),
        (b"7 count", CoreStep::Count { worker }),
        (b"7 phase", CoreStep::Phase { worker }),
        (b"7 raise 2", CoreStep::Raise { worker, phase: 2 }),
        (b"7 split 63", CoreStep::Split { worker, other: 63 }),
        (b"7 join 1", CoreStep::Join { worker, other: 1 }),
    ] {
        assert_eq!(rt; step_of(rt.alloc(), line)?, Some(wanted), "{line:?}");
    }
    Ok(())
}

#[test]
fn a_number_has_one_to_nine_digits(rt: HostRuntime) -> Result<(), Fail> {
    let alloc = rt.alloc();
    for (line, wanted) in [
        (
            b"000000003 raise 4".as_slice(),
            CoreStep::Raise {
                worker: 3,
                phase: 4,
            },
        ),
        (
            b"999999999 seek 999999999",
            CoreStep::Seek {
                worker: 999_999_999,
                leaf: 999_999_999,
            },
        ),
    ] {
        assert_eq!(rt; step_of(alloc, line)?, Some(wanted), "{line:?}");
    }
    for line in [
        b"0000000003 post".as_slice(),
        b"3 seek 0000000003",
        b"-1 post",
        b"3 raise",
        b"3 raise 1.5",
        b"3 join x",
    ] {
        assert_eq!(rt; step_of(alloc, line)?, None, "{line:?}");
    }
    Ok(())
}

#[test]
fn words_are_named_by_their_cells(rt: HostRuntime) -> Result<(), Fail> {
    let worker = 0;
    for (line, word) in [
        (b"0 load a".as_slice(), 0),
        (b"0 load b", 0),
        (b"0 load x.lo", 1),
        (b"0 load x.hi", 2),
        (b"0 load @0.0.lo", 3),
        (b"0 load @0.0.hi", 4),
        (b"0 load @1.0.0", 0),
    ] {
        assert_eq!(rt;
            step_of(rt.alloc(), line)?,
            Some(CoreStep::Load { worker, word }),
            "{line:?}"
        );
    }
    Ok(())
}

#[test]
fn other_names_name_no_word(rt: HostRuntime) -> Result<(), Fail> {
    for line in [
        b"0 load".as_slice(),
        b"0 load c",
        b"0 load n.lo",
        b"0 load x",
        b"0 load x.",
        b"0 load x.low",
        b"0 load a.lo",
        b"0 load b.hi",
        b"0 load @0.0",
        b"0 load @0.00.lo",
        b"0 load @00.0.lo",
        b"0 load @0.1.lo",
        b"0 load @1.0",
        b"0 load @1.0.0.lo",
        b"0 load 0",
    ] {
        assert_eq!(rt; step_of(rt.alloc(), line)?, None, "{line:?}");
    }
    Ok(())
}

#[test]
fn one_space_is_between_each_two_parts(rt: HostRuntime) -> Result<(), Fail> {
    for line in [
        b"".as_slice(),
        b" ",
        b"0",
        b"0 ",
        b" 0 post",
        b"0  post",
        b"0 post ",
        b"0\tpost",
        b"0 post\r",
        b"0 post 1",
        b"0 seek  1",
        b"0 seek 1 ",
        b"0 seek 1 2",
        b"0 load a b",
        b"0 Post",
        b"0 posts",
        b"0 stop",
        b"post",
        b"post 0",
    ] {
        assert_eq!(rt; step_of(rt.alloc(), line)?, None, "{line:?}");
    }
    Ok(())
}
