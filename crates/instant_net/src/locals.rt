//! Where a program makes its local cells, and the names that the cells have there.
ghost use Rattle.std.specs.Prelude.{◌≡◌, ◌++◌, ◌<◌, ◌≤◌, IfOk, length, take};
ghost use Rattle.token_system.specs.declared.name.CellName.TheVariants.{Local as LocalName};
ghost use Rattle.agent_core.specs.Agents.{agent_at};
ghost use Rattle.instant_net.specs.Locals.{news_of, IsLocalOf, AreLocalsOf};

use agent_core::{Node, Program};
use std::alloc::Global;
use token_system::{Births, CellName, Memory};

/// The new node of a local cell, and how many births the names of the cell have.
#[derive(Clone, Copy, Debug, PartialEq, Eq)]
pub(crate) struct Local {
    pub(crate) cell: u32,
    pub(crate) node: u32,
    pub(crate) births: u32,
}

impl Local {
    /// The name of the cell under these births, of which it keeps its own and those of the new nodes around its own.
    pub(crate) fn name(self, alloc: Global, births: &[u32]) -> Result<CellName, Memory>
        requires { self.births ≤ length births.now }
        ensures { IfOk result (λ name. name ≡ LocalName self.node (take self.births births.now)) }
    {
        let own = &births[..self.births as usize];
        Ok(CellName::Local {
            node: self.node,
            births: Births::from_slice(alloc, own)?,
        })
    }
}

/// Adds the new nodes from this node on downwards, in preorder; so many enclose the node.
fn add_news(program: &Program, node: u32, depth: u32, news: &mut Vec<Local>) -> Result<(), Memory>
    requires inside { node < length program.now.nodes }
    requires shallow { depth ≤ node }
    ensures { IfOk result (λ _. news.new.items ≡ news.old.items ++ news_of node depth (agent_at program.now.nodes node)) }
{
    match &program.nodes()[node as usize] {
        Node::Skip | Node::Tell(_) => Ok(()),
        Node::Then { body, .. }
        | Node::Else { body, .. }
        | Node::Hence { body }
        | Node::Next { body } => add_news(program, *body, depth, news),
        Node::Par { left, right } => {
            add_news(program, *left, depth, news)?;
            add_news(program, *right, depth, news)
        }
        Node::New { cell, body } => {
            let births = depth + 1;
            news.push(Local {
                cell: *cell,
                node,
                births,
            })?;
            add_news(program, *body, births, news)
        }
    }
}

/// The local cells of the program, in order.
pub(crate) fn locals_of(alloc: Global, program: &Program) -> Result<Vec<Local>, Memory>
    ensures { IfOk result (λ locals. AreLocalsOf program.now locals.items) }
{
    let mut locals = Vec::new(alloc);
    if program.cells().len() == program.declared() as usize {
        return Ok(locals);
    }
    add_news(program, 0, 0, &mut locals)?;
    Ok(locals)
}

/// Where the program makes this local cell, which is one of these.
pub(crate) fn local_of(program: &Program, locals: &[Local], cell: u32) -> Local
    requires locals { AreLocalsOf program.now locals.now }
    requires local { program.now.declared ≤ cell }
    requires cell { cell < length program.now.cells }
    ensures { IsLocalOf program.now cell result }
{
    locals[(cell - program.declared()) as usize]
}
