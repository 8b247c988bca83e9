//! Making the net of an instant from a program's roots.
ghost use Rattle.std.specs.Prelude.{◌≡◌, ◌<◌, ◌≤◌, IfOk, IfErr, Err, length};
ghost use Rattle.std.specs.List.Sorted.{IsStrictlySortedBy};
ghost use Rattle.agent_core.specs.Closures.{closure_cmp};
ghost use Rattle.agent_laws.specs.Laws.{AreClosures};
ghost use Rattle.instant_net.specs.Limits.{most_leaves, most_roots};
ghost use Rattle.instant_net.specs.Opened.{IsNetOf};
ghost use Rattle.instant_net.specs.Programs.{root_leaves};
ghost use Rattle.instant_net.specs.declared.opening.NetFault.TheVariants.{Memory as OutOfMemory};

use crate::collecting::net_cells;
use crate::counting::count_leaves;
use crate::locals::locals_of;
use crate::net::Net;
use crate::walking::net_parts;
use agent_core::{Closure, Levels, Program};
use std::alloc::Global;
use thiserror::Error;
use token_system::Memory;

/// How many leaves an instant has at most.
pub const MAX_LEAVES: u32 = 65_536;

/// How many roots an instant has at most.
pub const MAX_ROOTS: u32 = 131_072;

/// Why there is no net.
#[derive(Clone, Copy, Debug, PartialEq, Eq, Error)]
pub enum NetFault {
    /// There are more leaves than the limit: so many.
    #[error("{leaves} leaves")]
    NetFull { leaves: u64 },
    /// Out of memory.
    #[error("out of memory")]
    Memory,
}

impl From<Memory> for NetFault {
    ghost from_gives = { λ _ e. e ≡ OutOfMemory };

    fn from(_e: Memory) -> NetFault {
        NetFault::Memory
    }
}

/// The net of these roots, which have few enough leaves.
fn net_of(
    alloc: Global,
    program: &Program,
    levels: &Levels,
    roots: &[Closure],
    t: u32,
) -> Result<Net, Memory>
    requires levels { length levels.now ≡ length program.now.cells }
    requires closures { AreClosures program.now roots.now }
    requires few { length roots.now ≤ most_roots }
    requires few_leaves { length (root_leaves program.now roots.now t) ≤ most_leaves }
    ensures { IfOk result (IsNetOf program.now levels.now roots.now t) }
{
    let locals = locals_of(alloc, program)?;
    let cells = net_cells(alloc, program, &locals, levels, roots, t)?;
    let parts = net_parts(alloc, program, &locals, roots, t, &cells)?;
    Ok(Net::make(t, levels.strata(), cells, parts.guards, parts.leaves))
}

/// The net of these roots, all started at instant t: the limit is on the number of its leaves, which are counted before
/// any memory is taken. The roots are closures of the program, each once and in their order, and the levels are one for
/// each of its cells.
pub fn open_net(
    alloc: Global,
    program: &Program,
    levels: &Levels,
    roots: &[Closure],
    t: u32,
    limit: u32,
) -> Result<Net, NetFault>
    requires levels { length levels.now ≡ length program.now.cells }
    requires closures { AreClosures program.now roots.now }
    requires sorted { IsStrictlySortedBy closure_cmp roots.now }
    requires few { length roots.now ≤ most_roots }
    requires limit { limit ≤ most_leaves }
    ensures found { IfOk result (IsNetOf program.now levels.now roots.now t) }
    ensures full { limit < length (root_leaves program.now roots.now t) → result ≡ Err (NetFault.NetFull (length (root_leaves program.now roots.now t))) }
    ensures complete { length (root_leaves program.now roots.now t) ≤ limit → IfErr result (λ e. e ≡ NetFault.Memory) }
{
    let leaves = count_leaves(program, roots);
    if leaves > u64::from(limit) {
        return Err(NetFault::NetFull { leaves });
    }
    let net = net_of(alloc, program, levels, roots, t)?;
    Ok(net)
}
