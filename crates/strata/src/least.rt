//! The least strata of a program.
ghost use Rattle.std.specs.Prelude.{IfErr, IfOk};
ghost use Rattle.agent_core.specs.Strata.{Stratifies, IsLeastTable};
ghost use Rattle.strata.specs.Answers.{NamesFirstCase, SaysNoTable, HasNoFirstCase};

use crate::bounds::bounds_of;
use crate::fault::StrataFault;
use crate::search::first_case;
use agent_core::{Levels, Program};
use order_tables::{least_table, reaching};
use std::alloc::Global;

/// The least table that stratifies the program. Where there is none, it says so by the first case in
/// which a cell that is told below an else reaches one that the else asks for. One such case is
/// there exactly where no table is.
pub fn strata(alloc: Global, program: &Program) -> Result<Levels, StrataFault>
    ensures table { IfOk result (Stratifies program.now) }
    ensures least { IfOk result (IsLeastTable program.now) }
    ensures complete { IfOk result (λ _. HasNoFirstCase program.now) }
    ensures first { IfErr result (NamesFirstCase program.now) }
    ensures none { IfErr result (SaysNoTable program.now) }
{
    let cells = program.cells().len();
    let size = (cells + program.nodes().len()) as u32;
    let bounds = bounds_of(alloc, program)?;
    let rows = reaching(alloc, size, &bounds, cells as u32)?;
    if let Some((node, case)) = first_case(&rows, program) {
        return Err(StrataFault::NotStratified {
            guard: case.guard,
            told: case.told,
            node,
        });
    }
    let mut table = least_table(alloc, size, &bounds)?;
    table.truncate(cells);
    Ok(Levels::make(table))
}
