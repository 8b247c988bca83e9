//! Nets of programs worked out by hand.
ghost use Rattle.std.specs.Prelude.{◌≡◌, ◌≤◌, IfOk, length, All};
ghost use Rattle.std.specs.List.Sorted.{IsStrictlySortedBy};
ghost use Rattle.agent_core.specs.Closures.{closure_cmp};
ghost use Rattle.agent_core.specs.WellFormed.{IsWellFormed};
ghost use Rattle.agent_laws.specs.Laws.{AreClosures};
ghost use Rattle.instant_net.specs.Limits.{most_roots};

mod fronts;
mod making;
mod packing;
mod reading;
mod seeing;
mod telling;

use agent_core::{CellDecl, Closure, Constraint, Levels, Name, Node, Program};
use std::alloc::Global;
use std::test::Fail;
use token_system::{Births, Cell, Kind, Token};

const SIGNAL: Cell = Cell {
    kind: Kind::Signal,
    lo: 0,
    hi: 0,
};

/// The constraint of these tokens.
fn all(alloc: Global, tokens: &[(u32, Token)]) -> Result<Constraint, Fail>
    requires some { 1 ≤ length tokens.now }
    requires few { length tokens.now ≤ 16 }
{
    Ok(Constraint::make(tokens.to_vec(alloc)?))
}

/// The constraint that this cell is on.
fn on(alloc: Global, cell: u32) -> Result<Constraint, Fail> {
    all(alloc, &[(cell, Token::On)])
}

/// The program of these nodes over these cells, the first of them declared.
fn over_cells(
    alloc: Global,
    kinds: &[Cell],
    declared: u32,
    nodes: Vec<Node>,
) -> Result<Program, Fail>
    ensures { IfOk result IsWellFormed }
{
    let mut cells = Vec::new(alloc);
    for cell in kinds {
        cells.push(CellDecl {
            name: Name::make(b"a".to_vec(alloc)?),
            cell: *cell,
        })?;
    }
    match Program::make(cells, declared, nodes) {
        Some(program) => Ok(program),
        None => Err(Fail::from("not a program")),
    }
}

/// Levels 0, 1, 2 and so on, one for each cell.
fn rising_levels(alloc: Global, program: &Program) -> Result<Levels, Fail>
    ensures { IfOk result (λ levels. length levels ≡ length program.now.cells) }
{
    let mut list = Vec::new(alloc);
    for (level, _) in program.cells().iter().enumerate() {
        list.push(level as u32)?;
    }
    Ok(Levels::make(list))
}

/// The root.
fn first_roots(alloc: Global, program: &Program) -> Result<Vec<Closure>, Fail>
    requires { IsWellFormed program.now }
    ensures closures { IfOk result (λ roots. AreClosures program.now roots.items) }
    ensures sorted { IfOk result (λ roots. IsStrictlySortedBy closure_cmp roots.items) }
    ensures bounded { IfOk result (λ roots. length roots.items ≤ most_roots) }
{
    let mut roots = Vec::new(alloc);
    roots.push(Closure {
        node: 0,
        births: Births::make(Vec::new(alloc)),
    })?;
    Ok(roots)
}
