//! How a net is made: its leaves, its cells, and its guards.
ghost use Rattle.std.specs.Prelude.{◌≡◌, IfOk};
ghost use Rattle.agent_core.specs.WellFormed.{IsWellFormed};

use super::{SIGNAL, first_roots, on, over_cells, rising_levels};
use crate::collecting::net_cells;
use crate::locals::{Local, locals_of};
use crate::parts::{Atom, Atoms, LeafKind, NetGuard, NetLeaf};
use crate::walking::net_parts;
use crate::{NetFault, open_net};
use agent_core::{Node, Program};
use std::alloc::Global;
use std::test::Fail;
use token_system::{Births, CellName, Token};

/// `signal a; a || a`.
fn twice(alloc: Global) -> Result<Program, Fail>
    ensures { IfOk result IsWellFormed }
{
    let mut nodes = Vec::new(alloc);
    nodes.push(Node::Par { left: 1, right: 2 })?;
    nodes.push(Node::Tell(on(alloc, 0)?))?;
    nodes.push(Node::Tell(on(alloc, 0)?))?;
    over_cells(alloc, &[SIGNAL], 1, nodes)
}

/// `signal a, b; if a then if b else new signal s in {s || if s then b}`.
pub(super) fn nested(alloc: Global) -> Result<Program, Fail>
    ensures { IfOk result IsWellFormed }
{
    let mut nodes = Vec::new(alloc);
    nodes.push(Node::Then {
        ask: on(alloc, 0)?,
        body: 1,
    })?;
    nodes.push(Node::Else {
        ask: on(alloc, 1)?,
        body: 2,
    })?;
    nodes.push(Node::New { cell: 2, body: 3 })?;
    nodes.push(Node::Par { left: 4, right: 5 })?;
    nodes.push(Node::Tell(on(alloc, 2)?))?;
    nodes.push(Node::Then {
        ask: on(alloc, 2)?,
        body: 6,
    })?;
    nodes.push(Node::Tell(on(alloc, 1)?))?;
    over_cells(alloc, &[SIGNAL, SIGNAL, SIGNAL], 2, nodes)
}

/// `new signal r in {new signal s in s || r}`.
fn new_in_new(alloc: Global) -> Result<Program, Fail>
    ensures { IfOk result IsWellFormed }
{
    let mut nodes = Vec::new(alloc);
    nodes.push(Node::New { cell: 0, body: 1 })?;
    nodes.push(Node::Par { left: 2, right: 4 })?;
    nodes.push(Node::New { cell: 1, body: 3 })?;
    nodes.push(Node::Tell(on(alloc, 1)?))?;
    nodes.push(Node::Tell(on(alloc, 0)?))?;
    over_cells(alloc, &[SIGNAL, SIGNAL], 0, nodes)
}

/// `signal a, b; if a then b || if a then b`.
fn one_guard_twice(alloc: Global) -> Result<Program, Fail>
    ensures { IfOk result IsWellFormed }
{
    let mut nodes = Vec::new(alloc);
    nodes.push(Node::Par { left: 1, right: 3 })?;
    nodes.push(Node::Then {
        ask: on(alloc, 0)?,
        body: 2,
    })?;
    nodes.push(Node::Tell(on(alloc, 1)?))?;
    nodes.push(Node::Then {
        ask: on(alloc, 0)?,
        body: 4,
    })?;
    nodes.push(Node::Tell(on(alloc, 1)?))?;
    over_cells(alloc, &[SIGNAL, SIGNAL], 2, nodes)
}

/// Whether these atoms are that the one cell is on.
fn is_on(atoms: &Atoms, cell: u32) -> bool {
    atoms.list().len() == 1
        && atoms.list()[0]
            == Atom {
                cell,
                token: Token::On,
            }
}

/// Whether this is a guard on the one cell being on.
fn is_guard(
    guard: &NetGuard,
    negative: bool,
    cell: u32,
    above: Option<u32>,
    first: u32,
    past: u32,
) -> bool {
    guard.negative == negative
        && is_on(&guard.ask, cell)
        && guard.above == above
        && guard.first == first
        && guard.past == past
}

/// Whether this is a leaf that tells that the one cell is on.
fn is_tell(leaf: &NetLeaf, cell: u32, last: u32) -> bool {
    match &leaf.kind {
        LeafKind::Tells(told) => is_on(told, cell) && leaf.last == Some(last),
        _ => false,
    }
}

#[test]
fn two_tells_are_two_leaves_and_more_than_one(rt: HostRuntime) -> Result<(), Fail> {
    let program = twice(rt.alloc())?;
    let levels = rising_levels(rt.alloc(), &program)?;
    let roots = first_roots(rt.alloc(), &program)?;
    match open_net(rt.alloc(), &program, &levels, &roots, 7, 2) {
        Ok(net) => assert_eq!(rt; (net.leaves(), net.instant()), (2, 7)),
        Err(_) => return Err(Fail::from("no net")),
    }
    match open_net(rt.alloc(), &program, &levels, &roots, 7, 1) {
        Ok(_) => return Err(Fail::from("a net above the limit")),
        Err(fault) => assert_eq!(rt; fault, NetFault::NetFull { leaves: 2 }),
    }
    Ok(())
}

#[test]
fn cells_are_the_declared_ones_and_then_the_local_one(rt: HostRuntime) -> Result<(), Fail> {
    let program = nested(rt.alloc())?;
    let levels = rising_levels(rt.alloc(), &program)?;
    let roots = first_roots(rt.alloc(), &program)?;
    let locals = locals_of(rt.alloc(), &program)?;
    let cells = net_cells(rt.alloc(), &program, &locals, &levels, &roots, 7)?;
    let mut births = Vec::new(rt.alloc());
    births.push(7)?;
    let local = CellName::Local {
        node: 2,
        births: Births::make(births),
    };
    assert_eq!(rt; cells.len(), 3);
    assert!(rt; cells[0].name == CellName::Declared(0) && cells[1].name == CellName::Declared(1));
    assert!(rt; cells[2].name == local);
    assert_eq!(rt;
        (cells[0].stratum, cells[1].stratum, cells[2].stratum),
        (0, 1, 2)
    );
    assert_eq!(rt; (cells[0].first, cells[1].first, cells[2].first), (0, 1, 2));
    Ok(())
}

#[test]
fn a_local_cell_has_the_births_of_all_new_nodes_around_it(rt: HostRuntime) -> Result<(), Fail> {
    let program = new_in_new(rt.alloc())?;
    let locals = locals_of(rt.alloc(), &program)?;
    let outer = Local {
        cell: 0,
        node: 0,
        births: 1,
    };
    let inner = Local {
        cell: 1,
        node: 2,
        births: 2,
    };
    assert_eq!(rt; locals.len(), 2);
    assert!(rt; locals[0] == outer && locals[1] == inner);
    Ok(())
}

#[test]
fn guards_name_the_one_above_and_leaves_the_last_one(rt: HostRuntime) -> Result<(), Fail> {
    let program = nested(rt.alloc())?;
    let levels = rising_levels(rt.alloc(), &program)?;
    let roots = first_roots(rt.alloc(), &program)?;
    let locals = locals_of(rt.alloc(), &program)?;
    let cells = net_cells(rt.alloc(), &program, &locals, &levels, &roots, 7)?;
    let parts = net_parts(rt.alloc(), &program, &locals, &roots, 7, &cells)?;
    assert_eq!(rt; parts.guards.len(), 3);
    assert_eq!(rt; parts.leaves.len(), 2);
    assert!(rt; is_guard(&parts.guards[0], false, 0, None, 0, 2));
    assert!(rt; is_guard(&parts.guards[1], true, 1, Some(0), 0, 2));
    assert!(rt; is_guard(&parts.guards[2], false, 2, Some(1), 1, 2));
    assert!(rt; is_tell(&parts.leaves[0], 2, 1));
    assert!(rt; is_tell(&parts.leaves[1], 1, 2));
    Ok(())
}

#[test]
fn leaves_below_equal_guards_name_each_their_own(rt: HostRuntime) -> Result<(), Fail> {
    let program = one_guard_twice(rt.alloc())?;
    let levels = rising_levels(rt.alloc(), &program)?;
    let roots = first_roots(rt.alloc(), &program)?;
    let Ok(net) = open_net(rt.alloc(), &program, &levels, &roots, 7, 2) else {
        return Err(Fail::from("no net"));
    };
    let mut last = Vec::new(rt.alloc());
    for leaf in 0..net.leaves() {
        last.push(net.last_guard(leaf))?;
    }
    let mut links = Vec::new(rt.alloc());
    for guard in 0..net.guards() {
        links.push((
            net.above(guard),
            net.first_under(guard),
            net.past_under(guard),
        ))?;
    }
    assert_eq!(rt; last.len(), 2);
    assert!(rt; last[0] == Some(0) && last[1] == Some(1));
    assert_eq!(rt; links.len(), 2);
    assert!(rt; links[0] == (None, 0, 1) && links[1] == (None, 1, 2));
    Ok(())
}
