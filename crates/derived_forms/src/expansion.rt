//! The core program of a surface.
ghost use Rattle.std.specs.Prelude.{◌≡◌, ◌+◌, ◌≤◌, IfErr, IfOk, length, reverse};
ghost use Rattle.agent_core.specs.Limits.{most_cells, most_nodes};
ghost use Rattle.agent_core.specs.WellFormed.{IsWellFormed};
ghost use Rattle.core_text.specs.GoodNames.{HasGoodNames};
ghost use Rattle.tdcc_reader.specs.Texts.{IsSurface};
ghost use Rattle.expansion_laws.specs.Expansions.{IsExpansion, IsSymbolicOf, OnItsTree};
ghost use Rattle.expansion_laws.specs.Paths.{TellsAreClocked, TellsAreGuarded, TellsStem};
ghost use Rattle.expansion_laws.specs.Stops.{StopsForGood};
ghost use Rattle.expansion_laws.specs.SymbolicAgents.{SymbolicAgent, binders, symbolic_size};
ghost use Rattle.derived_forms.specs.FlatNodes.{flat_nodes};
ghost use Rattle.derived_forms.specs.Refusals.{RefusesExpansion};
ghost use Rattle.derived_forms.specs.declared.fault.ExpandFault as ExpandFault;

use crate::cells::number_cells;
use crate::emitting::emit;
use crate::fault::ExpandFault;
use crate::flat_node::FlatNode;
use crate::numbering::number_nodes;
use crate::placing::place_cells;
use agent_core::{MAX_CELLS, MAX_NODES, Program};
use expansion_laws::{expansion_law, paths_law, sizes_law, stops_law};
use std::alloc::{AllocError, Global};
use tdcc_reader::Surface;

/// The binders of the news, in preorder, of nodes that are given with the last one first.
fn binders_of(alloc: Global, emitted: &[FlatNode]) -> Result<Vec<u32>, AllocError>
    ensures binders { (d : SymbolicAgent) → reverse emitted.now ≡ flat_nodes d
        → IfOk result (λ found. found.items ≡ binders d) }
    ensures bounded { IfOk result (λ found. length found.items ≤ length emitted.now) }
{
    emitted
        .iter()
        .rev()
        .filter_map(|flat_node| flat_node.binder())
        .collect(alloc)
}

/// The core program of a surface.
fn core_program(alloc: Global, surface: &Surface) -> Result<Program, ExpandFault>
    ensures surface { IsSurface surface.now }
    ensures program { IfOk result IsWellFormed }
    ensures found { IfOk result (IsExpansion surface.now) }
    ensures fault { IfErr result (RefusesExpansion surface.now) }
    ensures complete { (d : SymbolicAgent) → IsSymbolicOf surface.now d → symbolic_size d ≤ most_nodes
        → surface.now.declared + length (binders d) ≤ most_cells
        → IfErr result (λ fault. fault ≡ ExpandFault.Memory) }
    ensures memory { IfErr result (λ fault. fault ≡ ExpandFault.Memory → length surface.now.forms ≤ most_nodes) }
{
    expansion_law();
    sizes_law();
    let forms = surface.forms();
    let cells = surface.cells();
    let declared = surface.declared();
    if forms.len() > MAX_NODES {
        return Err(ExpandFault::TooManyNodes);
    }
    let emitted = emit(alloc, forms, cells.len() as u32)?;
    let binders = binders_of(alloc, &emitted)?;
    if declared as usize + binders.len() > MAX_CELLS {
        return Err(ExpandFault::TooManyCells);
    }
    let nodes = number_nodes(alloc, place_cells(alloc, declared, emitted)?)?;
    let cells = number_cells(alloc, cells, declared, &binders)?;
    match Program::make(cells, declared, nodes) {
        Some(program) => Ok(program),
        None => unreachable!(),
    }
}

/// The core program of a surface, which stays as it is: names and constraints are copied.
///
/// A surface of more than 4,096 forms is refused at once. Otherwise nodes are made of the forms from the last one to
/// the first, and counted as they are made, so a body is not doubled past the limit; cells are counted when all nodes
/// are made, and named after that.
///
/// # Errors
///
/// `TooManyNodes` where it would have more than 4,096 nodes, otherwise `TooManyCells` where it would have more than
/// 1,024 cells, and `Memory` where an allocation fails.
pub fn expand(alloc: Global, surface: &Surface) -> Result<Program, ExpandFault>
    // What is made is the surface's program.
    ensures found { IfOk result (IsExpansion surface.now) }
    // A refusal is the one that the sizes give.
    ensures fault { IfErr result (RefusesExpansion surface.now) }
    // Where the sizes are within their limits, the program is made.
    ensures complete { (d : SymbolicAgent) → IsSymbolicOf surface.now d → symbolic_size d ≤ most_nodes
        → surface.now.declared + length (binders d) ≤ most_cells
        → IfErr result (λ fault. fault ≡ ExpandFault.Memory) }
    // The names of its cells can be written and read back.
    ensures names { IfOk result HasGoodNames }
    // Each of its tells copies one of the surface, or tells the hidden signal of a form.
    ensures stems { IfOk result (OnItsTree surface.now TellsStem) }
    // What is inside a watching waits for the absence of its hidden signal, and what is inside a time for the clock.
    ensures guarded { IfOk result (OnItsTree surface.now TellsAreGuarded) }
    ensures clocked { IfOk result (OnItsTree surface.now TellsAreClocked) }
    // A watching in no other and in no time stops for good.
    ensures stopped { IfOk result (OnItsTree surface.now StopsForGood) }
    // `Memory` comes only for a surface that has no more forms than a program may have nodes.
    ensures memory { IfErr result (λ fault. fault ≡ ExpandFault.Memory → length surface.now.forms ≤ most_nodes) }
{
    expansion_law();
    paths_law();
    stops_law();
    let program = core_program(alloc, surface)?;
    Ok(program)
}
