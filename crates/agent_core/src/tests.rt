//! Programs, names and rest, worked out by hand.
ghost use Rattle.std.specs.Prelude.{◌≡◌, ◌<◌, ℕ, [], ◌∷◌, All, IfOk, Some, length, slice_get};
ghost use Rattle.agent_core.specs.declared.node.CellDecl.{CellDecl as DeclValue};
ghost use Rattle.agent_core.specs.WellFormed.{IsWellFormed};
ghost use Rattle.agent_core.specs.Names.{IsClosure, Names};
ghost use Rattle.agent_core.specs.Stores.{IsStore};
ghost use Rattle.token_system.specs.declared.name.CellName.TheVariants.{Declared as DeclaredName, Local as LocalName};
ghost use Rattle.token_system.specs.declared.cell.Kind.TheVariants.{Signal as SignalKind};

use crate::{CellDecl, Closure, Constraint, Name, Node, Program, obs, rests};
use std::alloc::Global;
use std::test::Fail;
use token_system::{Births, Cell, CellName, Kind, Store, Token};

/// The constraint `a`, where `a` is cell 0.
fn is_on(alloc: Global) -> Result<Constraint, Fail> {
    let mut list = Vec::new(alloc);
    list.push((0, Token::On))?;
    Ok(Constraint::make(list))
}

/// The program with these nodes over one signal `a`, of which so many are declared: 1, or 0 where it
/// is a local cell.
fn over_one_signal(alloc: Global, declared: u32, nodes: Vec<Node>) -> Result<Program, Fail>
    ensures program { IfOk result IsWellFormed }
    ensures signal { IfOk result (λ p. (decl : DeclValue) × (slice_get p.cells 0 ≡ Some decl) × (decl.cell.kind ≡ SignalKind)) }
    ensures declared { IfOk result (λ p. p.declared ≡ declared) }
    ensures nodes { IfOk result (λ p. p.nodes ≡ nodes.items) }
{
    let mut cells = Vec::new(alloc);
    cells.push(CellDecl {
        name: Name::make(b"a".to_vec(alloc)?),
        cell: Cell {
            kind: Kind::Signal,
            lo: 0,
            hi: 0,
        },
    })?;
    match Program::make(cells, declared, nodes) {
        Some(program) => Ok(program),
        None => Err(Fail::from("not a program")),
    }
}

/// The same, where the signal is declared.
fn over_declared_signal(alloc: Global, nodes: Vec<Node>) -> Result<Program, Fail>
    ensures program { IfOk result IsWellFormed }
    ensures signal { IfOk result (λ p. (decl : DeclValue) × Names p (DeclaredName 0) decl × (slice_get p.cells 0 ≡ Some decl) × (decl.cell.kind ≡ SignalKind)) }
{
    over_one_signal(alloc, 1, nodes)
}

/// `signal a; if a else a`.
fn else_over_its_own_tell(alloc: Global) -> Result<Program, Fail>
    ensures program { IfOk result IsWellFormed }
    ensures signal { IfOk result (λ p. (decl : DeclValue) × Names p (DeclaredName 0) decl × (slice_get p.cells 0 ≡ Some decl) × (decl.cell.kind ≡ SignalKind)) }
{
    let mut nodes = Vec::new(alloc);
    nodes.push(Node::Else {
        ask: is_on(alloc)?,
        body: 1,
    })?;
    nodes.push(Node::Tell(is_on(alloc)?))?;
    over_declared_signal(alloc, nodes)
}

/// Adds `if a else next a`, whose nodes are numbered from n on.
fn push_told_after_absence(alloc: Global, nodes: &mut Vec<Node>, n: u32) -> Result<(), Fail>
    requires { n < 1000 }
{
    nodes.push(Node::Else {
        ask: is_on(alloc)?,
        body: n + 1,
    })?;
    nodes.push(Node::Next { body: n + 2 })?;
    nodes.push(Node::Tell(is_on(alloc)?))?;
    Ok(())
}

/// `signal a; always (if a else next a)`.
fn told_after_each_absence(alloc: Global) -> Result<Program, Fail>
    ensures program { IfOk result IsWellFormed }
    ensures signal { IfOk result (λ p. (decl : DeclValue) × Names p (DeclaredName 0) decl × (slice_get p.cells 0 ≡ Some decl) × (decl.cell.kind ≡ SignalKind)) }
{
    let mut nodes = Vec::new(alloc);
    nodes.push(Node::Par { left: 1, right: 4 })?;
    push_told_after_absence(alloc, &mut nodes, 1)?;
    nodes.push(Node::Hence { body: 5 })?;
    push_told_after_absence(alloc, &mut nodes, 5)?;
    over_declared_signal(alloc, nodes)
}

/// `hence new a in next a`.
fn local_at_each_instant(alloc: Global) -> Result<Program, Fail>
    ensures program { IfOk result IsWellFormed }
    ensures signal { IfOk result (λ p. (t : ℕ) → (decl : DeclValue) × Names p (LocalName 1 (t ∷ [])) decl × (slice_get p.cells 0 ≡ Some decl) × (decl.cell.kind ≡ SignalKind)) }
{
    let mut nodes = Vec::new(alloc);
    nodes.push(Node::Hence { body: 1 })?;
    nodes.push(Node::New { cell: 0, body: 2 })?;
    nodes.push(Node::Next { body: 3 })?;
    nodes.push(Node::Tell(is_on(alloc)?))?;
    over_one_signal(alloc, 0, nodes)
}

/// The name of the local cell that node 1 made at this instant.
fn made_at(alloc: Global, birth: u32) -> Result<CellName, Fail>
    ensures { IfOk result (λ name. name ≡ LocalName 1 (birth ∷ [])) }
{
    let mut births = Vec::new(alloc);
    births.push(birth)?;
    Ok(CellName::Local {
        node: 1,
        births: Births::make(births),
    })
}

/// The store in which cell 0 is on under this name of it.
fn only_on(alloc: Global, program: &Program, name: CellName) -> Result<Store, Fail>
    requires { (decl : DeclValue) × Names program.now name decl × (slice_get program.now.cells 0 ≡ Some decl) × (decl.cell.kind ≡ SignalKind) }
    ensures { IfOk result (IsStore program.now) }
{
    let mut store = Store::new(alloc);
    let decl = &program.cells()[0];
    store.tell(name, decl.cell, Token::On)?;
    Ok(store)
}

/// The same for the local cell that node 1 made at this instant.
fn local_on(alloc: Global, program: &Program, birth: u32) -> Result<Store, Fail>
    requires { (t : ℕ) → (decl : DeclValue) × Names program.now (LocalName 1 (t ∷ [])) decl × (slice_get program.now.cells 0 ≡ Some decl) × (decl.cell.kind ≡ SignalKind) }
    ensures { IfOk result (IsStore program.now) }
{
    only_on(alloc, program, made_at(alloc, birth)?)
}

/// The store of which nothing is told.
fn nothing(alloc: Global, program: &Program) -> Store
    ensures { IsStore program.now result }
{
    Store::new(alloc)
}

/// The root, which no new node encloses.
fn root(alloc: Global, program: &Program) -> Closure
    requires { IsWellFormed program.now }
    ensures { IsClosure program.now result.node result.births }
{
    Closure {
        node: 0,
        births: Births::make(Vec::new(alloc)),
    }
}

/// Whether the root rests at instant 0 under the empty store with itself, under the empty store
/// with the given one, and under the given one with itself.
fn root_rests(alloc: Global, program: &Program, on: &Store) -> Result<(bool, bool, bool), Fail>
    requires program { IsWellFormed program.now }
    requires store { IsStore program.now on.now }
{
    let root = root(alloc, program);
    let empty = Store::new(alloc);
    let neither = rests(alloc, program, &root, 0, &empty, &empty)?;
    let guessed = rests(alloc, program, &root, 0, &empty, on)?;
    let both = rests(alloc, program, &root, 0, on, on)?;
    Ok((neither, guessed, both))
}

/// The closed stores of so many instants at which nothing was told.
fn silence(alloc: Global, program: &Program, instants: usize) -> Result<Vec<Store>, Fail>
    ensures stores { IfOk result (λ closed. All (IsStore program.now) closed.items) }
    ensures long { IfOk result (λ closed. length closed.items ≡ instants) }
{
    let mut closed = Vec::new(alloc);
    for _ in 0..instants {
        closed.push(nothing(alloc, program))?;
    }
    Ok(closed)
}

/// Whether the root, started at instant 0, rests under the store with itself after so many instants
/// at which nothing was told.
fn root_rests_after(
    alloc: Global,
    program: &Program,
    instants: usize,
    store: &Store,
) -> Result<bool, Fail>
    requires program { IsWellFormed program.now }
    requires few { instants < 1000 }
    requires store { IsStore program.now store.now }
{
    let root = root(alloc, program);
    let closed = silence(alloc, program, instants)?;
    let answer = obs(alloc, program, &root, 0, &closed, store, store)?;
    Ok(answer)
}

#[test]
fn else_over_its_own_tell_rests_only_under_a_guess_that_has_it(
    rt: HostRuntime,
) -> Result<(), Fail> {
    let program = else_over_its_own_tell(rt.alloc())?;
    let on = only_on(rt.alloc(), &program, CellName::Declared(0))?;
    let answers = root_rests(rt.alloc(), &program, &on)?;
    assert_eq!(rt; answers, (false, true, true));
    Ok(())
}

#[test]
fn what_is_told_after_an_absence_rests_only_once_it_is_told(rt: HostRuntime) -> Result<(), Fail> {
    let program = told_after_each_absence(rt.alloc())?;
    let empty = nothing(rt.alloc(), &program);
    let on = only_on(rt.alloc(), &program, CellName::Declared(0))?;
    let neither = root_rests_after(rt.alloc(), &program, 1, &empty)?;
    let both = root_rests_after(rt.alloc(), &program, 1, &on)?;
    assert_eq!(rt; (neither, both), (false, true));
    Ok(())
}

#[test]
fn a_local_cell_is_that_of_the_instant_at_which_the_hence_started_it(
    rt: HostRuntime,
) -> Result<(), Fail> {
    let program = local_at_each_instant(rt.alloc())?;
    let empty = nothing(rt.alloc(), &program);
    let first = local_on(rt.alloc(), &program, 1)?;
    let second = local_on(rt.alloc(), &program, 2)?;
    let neither = root_rests_after(rt.alloc(), &program, 2, &empty)?;
    let of_first = root_rests_after(rt.alloc(), &program, 2, &first)?;
    let of_second = root_rests_after(rt.alloc(), &program, 2, &second)?;
    assert_eq!(rt; (neither, of_first, of_second), (false, true, false));
    Ok(())
}

/// Whether so many nexts around a skip are a program: a chain in which each node but the last has the
/// next one as its part.
fn is_chain_a_program(alloc: Global, nexts: u32) -> Result<bool, Fail>
    requires { nexts < 10000 }
{
    let mut nodes = Vec::new(alloc);
    for n in 0..nexts {
        nodes.push(Node::Next { body: n + 1 })?;
    }
    nodes.push(Node::Skip)?;
    Ok(Program::make(Vec::new(alloc), 0, nodes).is_some())
}

#[test]
fn a_program_is_up_to_4096_nodes_deep(rt: HostRuntime) -> Result<(), Fail> {
    let deepest = is_chain_a_program(rt.alloc(), 4_095)?;
    let deeper = is_chain_a_program(rt.alloc(), 4_096)?;
    assert_eq!(rt; (deepest, deeper), (true, false));
    Ok(())
}
