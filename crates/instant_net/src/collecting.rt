//! The cells of an instant: the declared ones, and the local ones that its leaves speak of.
ghost use Rattle.std.specs.Prelude.{◌≡◌, ℕ, ◌≤◌, ◌++◌, ◌∷◌, [], All, IfOk, length};
ghost use Rattle.instant_net.specs.Limits.{most_roots};
ghost use Rattle.token_system.specs.Names.{name_cmp};
ghost use Rattle.agent_core.specs.declared.node.CellDecl.{CellDecl};
ghost use Rattle.agent_core.specs.WellFormed.{IsWellFormed};
ghost use Rattle.agent_core.specs.Names as names;
ghost use Rattle.agent_core.specs.Names.{IsClosure, cell_named};
ghost use Rattle.std.specs.List.Sorted.{IsStrictlySortedBy};
ghost use Rattle.agent_core.specs.Scope.{ConstraintFits};
ghost use Rattle.agent_laws.specs.Laws.{AreClosures};
ghost use Rattle.instant_net.specs.Programs.{root_leaves};
ghost use Rattle.instant_net.specs.Locals.{AreLocalsOf};
ghost use Rattle.instant_net.specs.Covering.{CoversAsk, CoversNode, RootsCovered};
ghost use Rattle.instant_net.specs.Collecting.{IsLocal, IsSpokenBy, AddsAsked, AddsSpoken, cell_names, declared_names, IsRow, AreCellsFor};

use crate::layout::lay_out;
use crate::locals::{Local, local_of};
use crate::parts::NetCell;
use agent_core::{Closure, Constraint, Levels, Node, Program};
use std::alloc::Global;
use std::collections::BTreeSet;
use token_system::{Births, CellName, Memory};

/// What names are collected by: the program, its local cells, and the instant.
#[derive(Clone, Copy)]
struct Collector<'a> {
    alloc: Global,
    program: &'a Program,
    locals: &'a [Local],
    t: u32,
}

impl Collector<'_> {
    /// Adds the names of the local cells that the constraint speaks of.
    fn add_ask(
        &self,
        births: &[u32],
        ask: &Constraint,
        names: &mut BTreeSet<CellName>,
    ) -> Result<(), Memory>
        requires locals { AreLocalsOf self.now.program.now self.now.locals.now }
        requires fits { ConstraintFits self.now.program.now births.now ask.now }
        ensures spoken { IfOk result (λ _. AddsAsked self.now.program.now births.now ask.now names.old.keys names.new.keys) }
        ensures covered { IfOk result (λ _. CoversAsk self.now.program.now births.now ask.now names.old.keys names.new.keys) }
    {
        for (cell, _) in ask.list() {
            if *cell >= self.program.declared() {
                let local = local_of(self.program, self.locals, *cell);
                names.insert(local.name(self.alloc, births)?)?;
            }
        }
        Ok(())
    }

    /// Adds the names of the local cells that the leaves of the node speak of.
    fn add_node(
        &self,
        node: u32,
        births: &[u32],
        names: &mut BTreeSet<CellName>,
    ) -> Result<(), Memory>
        requires locals { AreLocalsOf self.now.program.now self.now.locals.now }
        requires closure { IsClosure self.now.program.now node births.now }
        ensures spoken { IfOk result (λ _. AddsSpoken self.now.program.now self.now.t node births.now names.old.keys names.new.keys) }
        ensures covered { IfOk result (λ _. CoversNode self.now.program.now self.now.t node births.now names.old.keys names.new.keys) }
    {
        match &self.program.nodes()[node as usize] {
            Node::Skip | Node::Hence { .. } | Node::Next { .. } => Ok(()),
            Node::Tell(told) => self.add_ask(births, told, names),
            Node::Then { ask, body } | Node::Else { ask, body } => {
                self.add_ask(births, ask, names)?;
                self.add_node(*body, births, names)
            }
            Node::Par { left, right } => {
                self.add_node(*left, births, names)?;
                self.add_node(*right, births, names)
            }
            Node::New { body, .. } => {
                let inner = Births::extended(self.alloc, births, self.t)?;
                self.add_node(*body, inner.list(), names)
            }
        }
    }
}

/// The names of the local cells that the leaves of the roots speak of.
fn local_names(
    alloc: Global,
    program: &Program,
    locals: &[Local],
    roots: &[Closure],
    t: u32,
) -> Result<BTreeSet<CellName>, Memory>
    requires locals { AreLocalsOf program.now locals.now }
    requires closures { AreClosures program.now roots.now }
    ensures spoken { IfOk result (λ names. All (IsSpokenBy program.now (root_leaves program.now roots.now t)) names.keys) }
    ensures covered { IfOk result (λ names. RootsCovered program.now t names.keys roots.now) }
{
    let collector = Collector {
        alloc,
        program,
        locals,
        t,
    };
    let mut names = BTreeSet::new(alloc);
    if program.cells().len() == program.declared() as usize {
        return Ok(names);
    }
    for root in roots {
        collector.add_node(root.node, root.births.list(), &mut names)?;
    }
    Ok(names)
}

/// The number of the local cell that has the name.
fn local_cell(program: &Program, name: &CellName) -> u32
    requires { IsLocal program.now name.now }
    ensures { result ≡ cell_named program.now name.now }
{
    match name {
        CellName::Declared(_) => unreachable!(),
        CellName::Local { node, .. } => match &program.nodes()[*node as usize] {
            Node::New { cell, .. } => *cell,
            _ => unreachable!(),
        },
    }
}

/// Cells in a row. Their parts and words are still to be laid out.
#[derive(Debug, Drop)]
struct Row {
    cells: Vec<NetCell>,
}

impl Row {
    /// Adds the cell of this name, which has this number among the program's.
    fn add(
        &mut self,
        program: &Program,
        levels: &Levels,
        name: CellName,
        cell: u32,
    ) -> Result<(), Memory>
        requires levels { length levels.now ≡ length program.now.cells }
        requires named { (d : CellDecl) × names.Names program.now name d }
        requires number { cell ≡ cell_named program.now name }
        requires row { IsRow program.now levels.now self.old.cells.items }
        ensures row { IfOk result (λ _. IsRow program.now levels.now self.new.cells.items) }
        ensures names { IfOk result (λ _. cell_names self.new.cells.items ≡ cell_names self.old.cells.items ++ name ∷ []) }
    {
        let decl = program.cells()[cell as usize].cell;
        let stratum = levels.list()[cell as usize];
        self.cells.push(NetCell {
            name,
            cell: decl,
            stratum,
            first: 0,
            word: 0,
        })?;
        Ok(())
    }

    /// Adds the declared cells.
    fn add_declared(&mut self, program: &Program, levels: &Levels) -> Result<(), Memory>
        requires levels { length levels.now ≡ length program.now.cells }
        requires row { IsRow program.now levels.now self.old.cells.items }
        requires empty { self.old.cells.items ≡ [] }
        ensures row { IfOk result (λ _. IsRow program.now levels.now self.new.cells.items) }
        ensures names { IfOk result (λ _. cell_names self.new.cells.items ≡ declared_names program.now.declared) }
        ensures program { IsWellFormed program.now }
    {
        for cell in 0..program.declared() {
            self.add(program, levels, CellName::Declared(cell), cell)?;
        }
        Ok(())
    }

    /// Adds the local cells that have these names.
    fn add_locals(
        &mut self,
        program: &Program,
        levels: &Levels,
        names: BTreeSet<CellName>,
    ) -> Result<(), Memory>
        requires levels { length levels.now ≡ length program.now.cells }
        requires row { IsRow program.now levels.now self.old.cells.items }
        requires locals { All (IsLocal program.now) names.keys }
        ensures row { IfOk result (λ _. IsRow program.now levels.now self.new.cells.items) }
        ensures names { IfOk result (λ _. cell_names self.new.cells.items ≡ cell_names self.old.cells.items ++ names.keys) }
        ensures order { IfOk result (λ _. IsStrictlySortedBy name_cmp names.keys) }
    {
        for name in names {
            let cell = local_cell(program, &name);
            self.add(program, levels, name, cell)?;
        }
        Ok(())
    }
}

/// The cells of the net of these roots, where these are the program's local cells.
pub(crate) fn net_cells(
    alloc: Global,
    program: &Program,
    locals: &[Local],
    levels: &Levels,
    roots: &[Closure],
    t: u32,
) -> Result<Vec<NetCell>, Memory>
    requires locals { AreLocalsOf program.now locals.now }
    requires levels { length levels.now ≡ length program.now.cells }
    requires closures { AreClosures program.now roots.now }
    requires few { length roots.now ≤ most_roots }
    ensures cells { IfOk result (λ cells. AreCellsFor program.now levels.now (root_leaves program.now roots.now t) cells.items) }
    ensures covered { IfOk result (λ cells. RootsCovered program.now t (cell_names cells.items) roots.now) }
{
    let names = local_names(alloc, program, locals, roots, t)?;
    let mut row = Row {
        cells: Vec::with_capacity(alloc, program.declared() as usize + names.len())?,
    };
    row.add_declared(program, levels)?;
    row.add_locals(program, levels, names)?;
    lay_out(&mut row.cells);
    Ok(row.cells)
}
