//! What is read off a net with a part of each kind.
ghost use Rattle.std.specs.Prelude.{◌≡◌, IfOk};
ghost use Rattle.agent_core.specs.WellFormed.{IsWellFormed};

use super::{SIGNAL, all, first_roots, on, over_cells};
use crate::{Atom, Net, open_net};
use agent_core::{Levels, Node, Program};
use std::alloc::Global;
use std::test::Fail;
use token_system::{Births, Cell, CellName, Kind, Token};

pub(super) const UP_TO_SEVEN: Cell = Cell {
    kind: Kind::Number,
    lo: 0,
    hi: 7,
};

/// Appends what stands below `if a then` in the program below, whose first node has number 5.
fn push_below(alloc: Global, nodes: &mut Vec<Node>) -> Result<(), Fail> {
    nodes.push(Node::Par { left: 6, right: 15 })?;
    nodes.push(Node::Else {
        ask: all(alloc, &[(1, Token::AtLeast(5)), (0, Token::On)])?,
        body: 7,
    })?;
    nodes.push(Node::New { cell: 2, body: 8 })?;
    nodes.push(Node::Par { left: 9, right: 10 })?;
    nodes.push(Node::Tell(all(alloc, &[(2, Token::Clash), (1, Token::AtMost(4))])?))?;
    nodes.push(Node::Par {
        left: 11,
        right: 13,
    })?;
    nodes.push(Node::Hence { body: 12 })?;
    nodes.push(Node::Tell(all(alloc, &[(2, Token::AtMost(6))])?))?;
    nodes.push(Node::Next { body: 14 })?;
    nodes.push(Node::Skip)?;
    nodes.push(Node::Tell(all(alloc, &[(1, Token::AtLeast(5))])?))?;
    Ok(())
}

/// `signal a; int n in 0..7; skip || {a || if a then {{if n >= 5 & a else new int m in 0..7 in {#m & n <= 4 || {hence m
/// <= 6 || next skip}}} || n >= 5}}`: a is cell 0, n is cell 1 and m is cell 2.
fn each_kind(alloc: Global) -> Result<Program, Fail>
    ensures { IfOk result IsWellFormed }
{
    let mut nodes = Vec::new(alloc);
    nodes.push(Node::Par { left: 1, right: 2 })?;
    nodes.push(Node::Skip)?;
    nodes.push(Node::Par { left: 3, right: 4 })?;
    nodes.push(Node::Tell(on(alloc, 0)?))?;
    nodes.push(Node::Then {
        ask: on(alloc, 0)?,
        body: 5,
    })?;
    push_below(alloc, &mut nodes)?;
    over_cells(alloc, &[SIGNAL, UP_TO_SEVEN, UP_TO_SEVEN], 2, nodes)
}

/// The net of that program at instant 9, with level 3 for a, 1 for n and 5 for m.
pub(super) fn net_of_each_kind(alloc: Global) -> Result<Net, Fail> {
    let program = each_kind(alloc)?;
    let levels = Levels::make([3, 1, 5].to_vec(alloc)?);
    if program.cells().len() != 3 {
        return Err(Fail::from("not three cells"));
    }
    let roots = first_roots(alloc, &program)?;
    match open_net(alloc, &program, &levels, &roots, 9, 6) {
        Ok(net) => Ok(net),
        Err(_) => Err(Fail::from("no net")),
    }
}

/// The leaves are the skip, the three tells, the hence and the next; the guards the two asks. The signal has a word,
/// which no other shares, and each number two.
#[test]
fn parts_are_counted(rt: HostRuntime) -> Result<(), Fail> {
    let net = net_of_each_kind(rt.alloc())?;
    assert_eq!(rt; (net.leaves(), net.guards(), net.cells()), (6, 2, 3));
    assert_eq!(rt; (net.words(), net.strata(), net.instant()), (5, 6, 9));
    Ok(())
}

#[test]
fn cells_have_names_domains_and_strata(rt: HostRuntime) -> Result<(), Fail> {
    let net = net_of_each_kind(rt.alloc())?;
    assert_eq!(rt; net.cells(), 3);
    let local = CellName::Local {
        node: 7,
        births: Births::make([9].to_vec(rt.alloc())?),
    };
    assert!(rt; *net.cell_name(0) == CellName::Declared(0));
    assert!(rt; *net.cell_name(1) == CellName::Declared(1));
    assert!(rt; *net.cell_name(2) == local);
    assert_eq!(rt; net.cell(0), SIGNAL);
    assert_eq!(rt; net.cell(1), UP_TO_SEVEN);
    assert_eq!(rt; net.cell(2), UP_TO_SEVEN);
    assert_eq!(rt; (net.stratum(0), net.stratum(1), net.stratum(2)), (3, 1, 5));
    Ok(())
}

/// Guard 0 is `if a then`, above leaves 2 to 5; guard 1 is the else in it, above leaves 2 to 4.
#[test]
fn guards_have_their_asks_and_the_leaves_below_them(rt: HostRuntime) -> Result<(), Fail> {
    let net = net_of_each_kind(rt.alloc())?;
    assert_eq!(rt; net.guards(), 2);
    let a = Atom {
        cell: 0,
        token: Token::On,
    };
    let n = Atom {
        cell: 1,
        token: Token::AtLeast(5),
    };
    assert_eq!(rt; net.ask(0), [a].as_slice());
    assert_eq!(rt; net.ask(1), [n, a].as_slice());
    assert_eq!(rt; (net.is_else(0), net.is_else(1)), (false, true));
    assert_eq!(rt; (net.guard_stratum(0), net.guard_stratum(1)), (3, 3));
    assert_eq!(rt; (net.above(0), net.above(1)), (None, Some(0)));
    assert_eq!(rt; (net.first_under(0), net.past_under(0)), (2, 6));
    assert_eq!(rt; (net.first_under(1), net.past_under(1)), (2, 5));
    Ok(())
}

/// Of the tell of #m and n <= 4, n has the lesser level.
#[test]
fn tells_have_their_tokens_and_the_least_level(rt: HostRuntime) -> Result<(), Fail> {
    let net = net_of_each_kind(rt.alloc())?;
    assert_eq!(rt; net.leaves(), 6);
    let m = Atom {
        cell: 2,
        token: Token::Clash,
    };
    let n = Atom {
        cell: 1,
        token: Token::AtMost(4),
    };
    assert_eq!(rt; net.tells(2), [m, n].as_slice());
    assert_eq!(rt; net.level(2), Some(1));
    assert_eq!(rt; net.last_guard(2), Some(1));
    assert_eq!(rt; net.tells(0).len(), 0);
    assert_eq!(rt; (net.level(0), net.last_guard(0)), (None, None));
    assert_eq!(rt;
        (net.is_tell(0), net.is_tell(2), net.is_tell(3)),
        (false, true, false)
    );
    Ok(())
}

/// Leaf 3 is the hence of node 12, leaf 4 the next of node 14, both below the new that is started at instant 9.
#[test]
fn hence_and_next_start_their_bodies(rt: HostRuntime) -> Result<(), Fail> {
    let net = net_of_each_kind(rt.alloc())?;
    assert_eq!(rt; net.leaves(), 6);
    assert_eq!(rt;
        (net.is_hence(2), net.is_hence(3), net.is_hence(4)),
        (false, true, false)
    );
    match (net.starts(2), net.starts(3), net.starts(4)) {
        (None, Some(always), Some(once)) => {
            assert_eq!(rt; (always.node, once.node), (12, 14));
            assert_eq!(rt; always.births.list(), [9].as_slice());
            assert_eq!(rt; once.births.list(), [9].as_slice());
        }
        _ => return Err(Fail::from("not a tell, a hence and a next")),
    }
    Ok(())
}
