//! Completed instants, worked out by hand.
ghost use Rattle.std.specs.Prelude.{◌≡◌, ◌≤◌, IfOk, length, All};
ghost use Rattle.std.specs.List.Sorted.{IsStrictlySortedBy};
ghost use Rattle.agent_core.specs.Closures.{closure_cmp};
ghost use Rattle.agent_core.specs.WellFormed.{IsWellFormed};
ghost use Rattle.agent_laws.specs.Laws.{AreClosures};
ghost use Rattle.instant_net.specs.Words.{AreWords};

use crate::{settle, settle_instant, settle_stratum};
use agent_core::{CellDecl, Closure, Constraint, Levels, Name, Node, Program};
use instant_net::{Net, Words, open_net, open_words, words_store};
use parked_asks::Watch;
use std::alloc::Global;
use std::test::Fail;
use token_system::{Births, Cell, CellName, Kind, Store, Token, Value};

const SIGNAL: Cell = Cell {
    kind: Kind::Signal,
    lo: 0,
    hi: 0,
};

const UP_TO_SEVEN: Cell = Cell {
    kind: Kind::Number,
    lo: 0,
    hi: 7,
};

/// The constraint of this one token of the cell.
fn one(alloc: Global, cell: u32, token: Token) -> Result<Constraint, Fail> {
    let mut list = Vec::new(alloc);
    list.push((cell, token))?;
    Ok(Constraint::make(list))
}

/// The constraint that this cell is on.
fn on(alloc: Global, cell: u32) -> Result<Constraint, Fail> {
    one(alloc, cell, Token::On)
}

/// The program of these nodes over these cells, the first of them declared.
fn over_cells(
    alloc: Global,
    kinds: &[Cell],
    declared: u32,
    nodes: Vec<Node>,
) -> Result<Program, Fail>
    ensures { IfOk result IsWellFormed }
{
    let mut cells = Vec::new(alloc);
    for cell in kinds {
        cells.push(CellDecl {
            name: Name::make(b"a".to_vec(alloc)?),
            cell: *cell,
        })?;
    }
    match Program::make(cells, declared, nodes) {
        Some(program) => Ok(program),
        None => Err(Fail::from("not a program")),
    }
}

/// The program of these nodes over so many declared signals.
fn over_signals(alloc: Global, count: u32, nodes: Vec<Node>) -> Result<Program, Fail>
    ensures { IfOk result IsWellFormed }
{
    let kinds = vec![in alloc; SIGNAL; count as usize]?;
    over_cells(alloc, &kinds, count, nodes)
}

/// Levels 0, 1, 2 and so on, one for each cell.
fn rising_levels(alloc: Global, program: &Program) -> Result<Levels, Fail>
    ensures { IfOk result (λ levels. length levels ≡ length program.now.cells) }
{
    let mut list = Vec::new(alloc);
    for (level, _) in program.cells().iter().enumerate() {
        list.push(level as u32)?;
    }
    Ok(Levels::make(list))
}

/// The root.
fn first_roots(alloc: Global, program: &Program) -> Result<Vec<Closure>, Fail>
    requires { IsWellFormed program.now }
    ensures closures { IfOk result (λ roots. AreClosures program.now roots.items) }
    ensures sorted { IfOk result (λ roots. IsStrictlySortedBy closure_cmp roots.items) }
    ensures bounded { IfOk result (λ roots. length roots.items ≤ 131072) }
{
    let mut roots = Vec::new(alloc);
    roots.push(Closure {
        node: 0,
        births: Births::make(Vec::new(alloc)),
    })?;
    Ok(roots)
}

/// The net of the first instant, and the words of which nothing is told.
fn opened(alloc: Global, program: &Program) -> Result<(Net, Words), Fail>
    requires { IsWellFormed program.now }
    ensures { IfOk result (λ opened. AreWords opened.0.cells opened.1) }
{
    let levels = rising_levels(alloc, program)?;
    let roots = first_roots(alloc, program)?;
    let net = match open_net(alloc, program, &levels, &roots, 0, 100) {
        Ok(net) => net,
        Err(_) => return Err(Fail::from("no net")),
    };
    let words = unknown(alloc, &net)?;
    Ok((net, words))
}

/// The words of which nothing is told.
fn unknown(alloc: Global, net: &Net) -> Result<Words, Fail>
    ensures { IfOk result (AreWords net.now.cells) }
{
    Ok(open_words(alloc, net, &Store::new(alloc))?)
}

/// The store that the first instant ends in, where the input tells nothing, whether by passes over all leaves or by a watch.
fn settled(alloc: Global, program: &Program) -> Result<Store, Fail>
    requires { IsWellFormed program.now }
{
    let (net, mut words) = opened(alloc, program)?;
    settle(&net, &mut words, 0);
    let mut watched = unknown(alloc, &net)?;
    settle_instant(alloc, &net, &mut watched)?;
    if watched.list() != words.list() {
        return Err(Fail::from("the words differ"));
    }
    Ok(words_store(alloc, &net, &words)?)
}

/// Whether the store has this signal on, and not off.
fn is_on(store: &Store, cell: u32) -> bool {
    match store.get(&CellName::Declared(cell)) {
        Some(value) => {
            value
                == Value::Signal {
                    on: true,
                    off: false,
                }
        }
        None => false,
    }
}

/// Appends `if ask else tell`, whose body has this number.
fn push_else(
    alloc: Global,
    nodes: &mut Vec<Node>,
    ask: u32,
    body: u32,
    tell: u32,
) -> Result<(), Fail> {
    nodes.push(Node::Else {
        ask: on(alloc, ask)?,
        body,
    })?;
    nodes.push(Node::Tell(on(alloc, tell)?))?;
    Ok(())
}

/// Appends `if ask then tell`, whose body has this number.
fn push_then(
    alloc: Global,
    nodes: &mut Vec<Node>,
    ask: u32,
    body: u32,
    tell: u32,
) -> Result<(), Fail> {
    nodes.push(Node::Then {
        ask: on(alloc, ask)?,
        body,
    })?;
    nodes.push(Node::Tell(on(alloc, tell)?))?;
    Ok(())
}

/// `signal a, b, c; if a else b || if b else c`: `a` is not told, so `b` is, and `c` is not.
#[test]
fn a_default_is_told_before_the_default_that_it_forbids(rt: HostRuntime) -> Result<(), Fail> {
    let mut nodes = Vec::new(rt.alloc());
    nodes.push(Node::Par { left: 1, right: 3 })?;
    push_else(rt.alloc(), &mut nodes, 0, 2, 1)?;
    push_else(rt.alloc(), &mut nodes, 1, 4, 2)?;
    let store = settled(rt.alloc(), &over_signals(rt.alloc(), 3, nodes)?)?;
    assert!(rt; is_on(&store, 1));
    assert_eq!(rt; store.len(), 1);
    Ok(())
}

/// `signal a, b, c; {if a else b || if b else c} || a`: `a` is told, so `b` is not, and `c` is.
#[test]
fn what_forbids_a_default_lets_the_next_one_run(rt: HostRuntime) -> Result<(), Fail> {
    let mut nodes = Vec::new(rt.alloc());
    nodes.push(Node::Par { left: 1, right: 6 })?;
    nodes.push(Node::Par { left: 2, right: 4 })?;
    push_else(rt.alloc(), &mut nodes, 0, 3, 1)?;
    push_else(rt.alloc(), &mut nodes, 1, 5, 2)?;
    nodes.push(Node::Tell(on(rt.alloc(), 0)?))?;
    let store = settled(rt.alloc(), &over_signals(rt.alloc(), 3, nodes)?)?;
    assert!(rt; is_on(&store, 0) && is_on(&store, 2));
    assert_eq!(rt; store.len(), 2);
    Ok(())
}

/// `signal a, b; if a else b || a`: `a` alone, though the default stands first.
#[test]
fn a_default_waits_for_what_forbids_it(rt: HostRuntime) -> Result<(), Fail> {
    let mut nodes = Vec::new(rt.alloc());
    nodes.push(Node::Par { left: 1, right: 3 })?;
    push_else(rt.alloc(), &mut nodes, 0, 2, 1)?;
    nodes.push(Node::Tell(on(rt.alloc(), 0)?))?;
    let store = settled(rt.alloc(), &over_signals(rt.alloc(), 2, nodes)?)?;
    assert!(rt; is_on(&store, 0));
    assert_eq!(rt; store.len(), 1);
    Ok(())
}

/// `signal a, b, c; if a else b || if b else c`: `a` is asked for by guard 0, `b` by guard 1, and `c` by none.
#[test]
fn a_cell_is_watched_by_the_guards_that_name_it(rt: HostRuntime) -> Result<(), Fail> {
    let mut nodes = Vec::new(rt.alloc());
    nodes.push(Node::Par { left: 1, right: 3 })?;
    push_else(rt.alloc(), &mut nodes, 0, 2, 1)?;
    push_else(rt.alloc(), &mut nodes, 1, 4, 2)?;
    let (net, _) = opened(rt.alloc(), &over_signals(rt.alloc(), 3, nodes)?)?;
    let watch = Watch::open(rt.alloc(), &net)?;
    if net.cells() != 3 {
        return Err(Fail::from("not three cells"));
    }
    assert!(rt; watch.of(0) == [0].as_slice());
    assert!(rt; watch.of(1) == [1].as_slice());
    assert!(rt; watch.of(2).is_empty());
    Ok(())
}

/// `signal a; if a then a`: nothing.
#[test]
fn nothing_is_told_on_its_own_account(rt: HostRuntime) -> Result<(), Fail> {
    let mut nodes = Vec::new(rt.alloc());
    push_then(rt.alloc(), &mut nodes, 0, 1, 0)?;
    let store = settled(rt.alloc(), &over_signals(rt.alloc(), 1, nodes)?)?;
    assert!(rt; store.is_empty());
    Ok(())
}

/// `signal a, b, c, d; if c then d || {if b then c || {if a then b || a}}`: each of the four.
#[test]
fn a_chain_is_told_to_its_end(rt: HostRuntime) -> Result<(), Fail> {
    let mut nodes = Vec::new(rt.alloc());
    nodes.push(Node::Par { left: 1, right: 3 })?;
    push_then(rt.alloc(), &mut nodes, 2, 2, 3)?;
    nodes.push(Node::Par { left: 4, right: 6 })?;
    push_then(rt.alloc(), &mut nodes, 1, 5, 2)?;
    nodes.push(Node::Par { left: 7, right: 9 })?;
    push_then(rt.alloc(), &mut nodes, 0, 8, 1)?;
    nodes.push(Node::Tell(on(rt.alloc(), 0)?))?;
    let store = settled(rt.alloc(), &over_signals(rt.alloc(), 4, nodes)?)?;
    assert!(rt; is_on(&store, 0) && is_on(&store, 1));
    assert!(rt; is_on(&store, 2) && is_on(&store, 3));
    assert_eq!(rt; store.len(), 4);
    Ok(())
}

/// `signal a0, .., a70; if a69 then a70 || {.. {if a0 then a1 || a0}}`: 71 leaves, so many that a watch is opened, and each
/// of the signals is told.
#[test]
fn a_chain_of_71_leaves_is_told_to_its_end(rt: HostRuntime) -> Result<(), Fail> {
    let mut nodes = Vec::new(rt.alloc());
    for link in 0..70 {
        nodes.push(Node::Par {
            left: 3 * link + 1,
            right: 3 * link + 3,
        })?;
        push_then(rt.alloc(), &mut nodes, 69 - link, 3 * link + 2, 70 - link)?;
    }
    nodes.push(Node::Tell(on(rt.alloc(), 0)?))?;
    let store = settled(rt.alloc(), &over_signals(rt.alloc(), 71, nodes)?)?;
    for cell in 0..71 {
        assert!(rt; is_on(&store, cell));
    }
    assert_eq!(rt; store.len(), 71);
    Ok(())
}

/// `int n in 0..7; n >= 5 || n <= 3`: a clash.
#[test]
fn bounds_that_cross_are_a_clash(rt: HostRuntime) -> Result<(), Fail> {
    let mut nodes = Vec::new(rt.alloc());
    nodes.push(Node::Par { left: 1, right: 2 })?;
    nodes.push(Node::Tell(one(rt.alloc(), 0, Token::AtLeast(5))?))?;
    nodes.push(Node::Tell(one(rt.alloc(), 0, Token::AtMost(3))?))?;
    let program = over_cells(rt.alloc(), &[UP_TO_SEVEN], 1, nodes)?;
    let store = settled(rt.alloc(), &program)?;
    assert_eq!(rt; store.get(&CellName::Declared(0)), Some(Value::Clash));
    Ok(())
}

/// `int n in 0..7; signal a; n >= 5 || {n <= 3 || if n >= 7 else a}`: the clash of n is that n is 7 or more, too.
#[test]
fn a_clash_forbids_a_default(rt: HostRuntime) -> Result<(), Fail> {
    let mut nodes = Vec::new(rt.alloc());
    nodes.push(Node::Par { left: 1, right: 2 })?;
    nodes.push(Node::Tell(one(rt.alloc(), 0, Token::AtLeast(5))?))?;
    nodes.push(Node::Par { left: 3, right: 4 })?;
    nodes.push(Node::Tell(one(rt.alloc(), 0, Token::AtMost(3))?))?;
    nodes.push(Node::Else {
        ask: one(rt.alloc(), 0, Token::AtLeast(7))?,
        body: 5,
    })?;
    nodes.push(Node::Tell(on(rt.alloc(), 1)?))?;
    let program = over_cells(rt.alloc(), &[UP_TO_SEVEN, SIGNAL], 2, nodes)?;
    let store = settled(rt.alloc(), &program)?;
    assert_eq!(rt; store.get(&CellName::Declared(0)), Some(Value::Clash));
    assert_eq!(rt; store.len(), 1);
    Ok(())
}

/// `int n in 0..7; n >= 5 || new int m in 0..7 in {if n >= 4 then m <= 2 || if n >= 6 else m >= 1}`: n is 5 to 7, which
/// is 4 or more and not yet 6 or more, so m is 1 to 2.
#[test]
fn a_local_number_is_bounded_from_both_sides(rt: HostRuntime) -> Result<(), Fail> {
    let mut nodes = Vec::new(rt.alloc());
    nodes.push(Node::Par { left: 1, right: 2 })?;
    nodes.push(Node::Tell(one(rt.alloc(), 0, Token::AtLeast(5))?))?;
    nodes.push(Node::New { cell: 1, body: 3 })?;
    nodes.push(Node::Par { left: 4, right: 6 })?;
    nodes.push(Node::Then {
        ask: one(rt.alloc(), 0, Token::AtLeast(4))?,
        body: 5,
    })?;
    nodes.push(Node::Tell(one(rt.alloc(), 1, Token::AtMost(2))?))?;
    nodes.push(Node::Else {
        ask: one(rt.alloc(), 0, Token::AtLeast(6))?,
        body: 7,
    })?;
    nodes.push(Node::Tell(one(rt.alloc(), 1, Token::AtLeast(1))?))?;
    let program = over_cells(rt.alloc(), &[UP_TO_SEVEN, UP_TO_SEVEN], 1, nodes)?;
    let store = settled(rt.alloc(), &program)?;
    let n = CellName::Declared(0);
    let m = CellName::Local {
        node: 2,
        births: Births::make([0].to_vec(rt.alloc())?),
    };
    assert_eq!(rt; store.get(&n), Some(Value::Number { lo: 5, hi: 7 }));
    assert_eq!(rt; store.get(&m), Some(Value::Number { lo: 1, hi: 2 }));
    assert_eq!(rt; store.len(), 2);
    Ok(())
}

/// `signal a, b, c; if a else b || if b else c`, where a, b and c are strata 0, 1 and 2: nothing is told in stratum 0, b
/// in stratum 1, and nothing more in stratum 2. The three signals share a word, in which b has bits 2 and 3.
#[test]
fn each_stratum_is_completed_after_those_below_it(rt: HostRuntime) -> Result<(), Fail> {
    let mut nodes = Vec::new(rt.alloc());
    nodes.push(Node::Par { left: 1, right: 3 })?;
    push_else(rt.alloc(), &mut nodes, 0, 2, 1)?;
    push_else(rt.alloc(), &mut nodes, 1, 4, 2)?;
    let program = over_signals(rt.alloc(), 3, nodes)?;
    let (net, mut words) = opened(rt.alloc(), &program)?;
    settle_stratum(&net, &mut words, 0);
    assert_eq!(rt; words.list(), [0].as_slice());
    settle_stratum(&net, &mut words, 1);
    assert_eq!(rt; words.list(), [4].as_slice());
    settle(&net, &mut words, 2);
    assert_eq!(rt; words.list(), [4].as_slice());
    Ok(())
}
