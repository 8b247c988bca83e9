//! The guards and leaves of an instant, by a walk over the nodes of its roots.
ghost use Rattle.std.specs.Prelude.{◌≡◌, ◌<◌, ◌≤◌, ◌++◌, ◌∷◌, [], Contains, IfOk, length};
ghost use Rattle.token_system.specs.Names.{name_cmp};
ghost use Rattle.token_system.specs.declared.name.CellName.TheVariants.{Local as LocalName};
ghost use Rattle.agent_core.specs.Agents.{agent_at};
ghost use Rattle.agent_core.specs.WellFormed.{IsWellFormed};
ghost use Rattle.agent_core.specs.Names.{IsClosure};
ghost use Rattle.agent_core.specs.Scope.{TokenFits, ConstraintFits};
ghost use Rattle.agent_laws.specs.Laws.{AreClosures};
ghost use Rattle.instant_net.specs.Limits.{most_roots};
ghost use Rattle.instant_net.specs.declared.parts.NetGuard.{NetGuard as GuardValue};
ghost use Rattle.instant_net.specs.Opened.{AreInOrder};
ghost use Rattle.instant_net.specs.Collecting.{cell_names};
ghost use Rattle.instant_net.specs.Covering.{TokenCovered, AskCovered, AgentCovered, RootsCovered};
ghost use Rattle.instant_net.specs.Walks.{AreNamed, IsPlaceOfName, IsAtomOf, AreAtomsOf, IsBegun, IsEnded, HasRoomFor, Adds, AreListedFor};

use crate::locals::{Local, local_of};
use crate::parts::{Atom, Atoms, LeafKind, NetCell, NetGuard, NetLeaf};
use agent_core::{Closure, Constraint, Node, Program};
use smallvec::SmallVec;
use std::alloc::Global;
use std::cmp::Ordering;
use token_system::{Births, CellName, Memory, Token};

/// Guards and leaves, so far.
#[derive(Debug, Drop)]
pub(crate) struct Parts {
    pub(crate) guards: Vec<NetGuard>,
    pub(crate) leaves: Vec<NetLeaf>,
}

impl Parts {
    /// Adds a guard, whose leaves are not there yet, and gives its number.
    fn begin_guard(&mut self, negative: bool, ask: Atoms, above: Option<u32>) -> Result<u32, Memory>
        requires few_guards { length self.old.guards.items < 4294967296 }
        requires few_leaves { length self.old.leaves.items < 4294967296 }
        ensures number { IfOk result (λ k. k ≡ length self.old.guards.items) }
        ensures guards { IfOk result (λ k. (g : GuardValue) × (self.new.guards.items ≡ self.old.guards.items ++ g ∷ []) × IsBegun negative ask above (length self.old.leaves.items) g) }
        ensures leaves { IfOk result (λ k. self.new.leaves.items ≡ self.old.leaves.items) }
    {
        let guard = self.guards.len() as u32;
        let first = self.leaves.len() as u32;
        self.guards.push(NetGuard {
            negative,
            ask,
            above,
            first,
            past: first,
        })?;
        Ok(guard)
    }

    /// The leaves below the guard are those from its first one on.
    fn end_guard(&mut self, guard: u32)
        requires guard { guard < length self.old.guards.items }
        requires few_leaves { length self.old.leaves.items < 4294967296 }
        ensures guards { IsEnded self.old.guards.items self.new.guards.items guard (length self.old.leaves.items) }
        ensures leaves { self.new.leaves.items ≡ self.old.leaves.items }
    {
        let past = self.leaves.len() as u32;
        let ended = &mut self.guards[guard as usize];
        ended.past = past;
    }

    /// Adds a leaf.
    fn add_leaf(&mut self, kind: LeafKind, last: Option<u32>) -> Result<(), Memory>
        ensures guards { IfOk result (λ _. self.new.guards.items ≡ self.old.guards.items) }
        ensures leaves { IfOk result (λ _. self.new.leaves.items ≡ self.old.leaves.items ++ (record { kind = kind; last = last }) ∷ []) }
    {
        self.leaves.push(NetLeaf { kind, last })?;
        Ok(())
    }
}

/// How the name compares with that of the local cell of this node and these births.
fn compared(name: &CellName, node: u32, births: &[u32]) -> Ordering
    ensures { result ≡ name_cmp name.now (LocalName node births.now) }
{
    match name {
        CellName::Declared(_) => Ordering::Less,
        CellName::Local {
            node: own,
            births: under,
        } => match own.cmp(&node) {
            Ordering::Equal => under.list().cmp(births),
            order => order,
        },
    }
}

/// The place of the local cell of this node and these births, which is one of the cells.
fn place_of(cells: &[NetCell], node: u32, births: &[u32]) -> u32
    requires order { AreInOrder cells.now }
    requires few { length cells.now < 4294967296 }
    requires there { Contains (cell_names cells.now) (LocalName node births.now) }
    ensures { IsPlaceOfName cells.now (LocalName node births.now) result }
{
    match cells.binary_search_by(|cell| compared(&cell.name, node, births)) {
        Ok(place) => place as u32,
        Err(_) => unreachable!(),
    }
}

/// What a walk goes by: the program and its local cells, the cells of the net, and the instant.
#[derive(Clone, Copy)]
struct Walk<'a> {
    alloc: Global,
    program: &'a Program,
    locals: &'a [Local],
    cells: &'a [NetCell],
    t: u32,
}

impl Walk<'_> {
    /// The token of a cell under the births, by the cell's place. That of a declared cell is its number.
    fn atom(&self, births: &[u32], cell: u32, token: Token) -> Atom
        requires named { AreNamed self.now.program.now self.now.locals.now self.now.cells.now }
        requires fits { TokenFits self.now.program.now births.now (record { 0 = cell; 1 = token }) }
        requires covered { TokenCovered self.now.program.now births.now (cell_names self.now.cells.now) (record { 0 = cell; 1 = token }) }
        ensures { IsAtomOf self.now.program.now self.now.cells.now births.now (record { 0 = cell; 1 = token }) result }
    {
        if cell < self.program.declared() {
            return Atom { cell, token };
        }
        let local = local_of(self.program, self.locals, cell);
        let own = &births[..local.births as usize];
        Atom {
            cell: place_of(self.cells, local.node, own),
            token,
        }
    }

    /// The tokens of the constraint under the births.
    fn atoms(&self, births: &[u32], ask: &Constraint) -> Result<Atoms, Memory>
        requires named { AreNamed self.now.program.now self.now.locals.now self.now.cells.now }
        requires fits { ConstraintFits self.now.program.now births.now ask.now }
        requires covered { AskCovered self.now.program.now births.now (cell_names self.now.cells.now) ask.now }
        ensures { IfOk result (AreAtomsOf self.now.program.now self.now.cells.now births.now ask.now) }
    {
        let mut list = SmallVec::new(self.alloc);
        for (cell, token) in ask.list() {
            list.push(self.atom(births, *cell, *token))?;
        }
        Ok(Atoms::make(list))
    }

    /// The closure of the node under these births.
    fn closure(&self, node: u32, births: &[u32]) -> Result<Closure, Memory>
        ensures { IfOk result (λ c. (c.node ≡ node) × (c.births ≡ births.now)) }
    {
        Ok(Closure {
            node,
            births: Births::from_slice(self.alloc, births)?,
        })
    }

    /// Adds the guards and leaves of the node, which stands below the guard `last`.
    fn add_node(
        &self,
        node: u32,
        births: &[u32],
        last: Option<u32>,
        parts: &mut Parts,
    ) -> Result<(), Memory>
        requires named { AreNamed self.now.program.now self.now.locals.now self.now.cells.now }
        requires closure { IsClosure self.now.program.now node births.now }
        requires covered { AgentCovered self.now.program.now self.now.t (cell_names self.now.cells.now) (agent_at self.now.program.now.nodes node) births.now }
        requires room { HasRoomFor self.now.program.now node parts.old.guards.items parts.old.leaves.items }
        ensures { IfOk result (λ _. Adds self.now.program.now self.now.cells.now self.now.t node births.now last parts.old.guards.items parts.new.guards.items parts.old.leaves.items parts.new.leaves.items) }
    {
        match &self.program.nodes()[node as usize] {
            Node::Skip => parts.add_leaf(LeafKind::Idle, last),
            Node::Tell(told) => {
                let told = self.atoms(births, told)?;
                parts.add_leaf(LeafKind::Tells(told), last)
            }
            Node::Hence { body } => {
                let always = self.closure(*body, births)?;
                parts.add_leaf(LeafKind::StartsHence(always), last)
            }
            Node::Next { body } => {
                let once = self.closure(*body, births)?;
                parts.add_leaf(LeafKind::StartsNext(once), last)
            }
            Node::Then { ask, body } => {
                let ask = self.atoms(births, ask)?;
                let guard = parts.begin_guard(false, ask, last)?;
                self.add_node(*body, births, Some(guard), parts)?;
                parts.end_guard(guard);
                Ok(())
            }
            Node::Else { ask, body } => {
                let ask = self.atoms(births, ask)?;
                let guard = parts.begin_guard(true, ask, last)?;
                self.add_node(*body, births, Some(guard), parts)?;
                parts.end_guard(guard);
                Ok(())
            }
            Node::Par { left, right } => {
                self.add_node(*left, births, last, parts)?;
                self.add_node(*right, births, last, parts)
            }
            Node::New { body, .. } => {
                let inner = Births::extended(self.alloc, births, self.t)?;
                self.add_node(*body, inner.list(), last, parts)
            }
        }
    }
}

/// The guards and leaves of the roots, where these are the program's local cells, and the cells of the net.
pub(crate) fn net_parts(
    alloc: Global,
    program: &Program,
    locals: &[Local],
    roots: &[Closure],
    t: u32,
    cells: &[NetCell],
) -> Result<Parts, Memory>
    requires named { AreNamed program.now locals.now cells.now }
    requires closures { AreClosures program.now roots.now }
    requires program { IsWellFormed program.now }
    requires few { length roots.now ≤ most_roots }
    requires covered { RootsCovered program.now t (cell_names cells.now) roots.now }
    ensures { IfOk result (λ parts. AreListedFor program.now cells.now t roots.now parts.guards.items parts.leaves.items) }
{
    let walk = Walk {
        alloc,
        program,
        locals,
        cells,
        t,
    };
    let mut parts = Parts {
        guards: Vec::new(alloc),
        leaves: Vec::new(alloc),
    };
    for root in roots {
        walk.add_node(root.node, root.births.list(), None, &mut parts)?;
    }
    Ok(parts)
}
