//! The numbers that a table gives to cells.
ghost use Rattle.std.specs.Prelude.{◌≡◌, ◌<◌, slice_index};
ghost use Rattle.agent_core.specs.WellFormed.{IsWellFormed};
ghost use Rattle.agent_core.specs.Limits.{most_cells};
ghost use Rattle.agent_laws.specs.Ways.{AreBelow};
ghost use Rattle.denotation_laws.specs.Dues as dues;

use agent_core::{Constraint, Levels, Program};

/// The number of the cell, or 0 where the table has none.
fn level_of(levels: &Levels, cell: u32) -> u32
    ensures number { result ≡ slice_index levels.now cell }
    ensures small { result < most_cells }
{
    match levels.list().get(cell as usize) {
        Some(level) => *level,
        None => 0,
    }
}

/// Whether the constraint has a cell of at most this stratum.
pub(crate) fn is_upto(levels: &Levels, stratum: u32, ask: &Constraint) -> bool
    ensures { result ≡ dues.is_upto levels.now stratum ask.now }
{
    ask.list()
        .iter()
        .any(|(cell, _)| level_of(levels, *cell) <= stratum)
}

/// A number above those of the program's cells.
pub(crate) fn strata_of(program: &Program, levels: &Levels) -> u32
    ensures below { AreBelow program.now levels.now result }
    ensures program { IsWellFormed program.now }
{
    let mut strata = 0;
    for cell in 0..program.cells().len() {
        strata = strata.max(level_of(levels, cell as u32) + 1);
    }
    strata
}
