//! Why a program has no strata.
ghost use Rattle.std.specs.Prelude.{◌≡◌};
ghost use Rattle.strata.specs.declared.fault.StrataFault.TheVariants.{Memory};

use std::alloc::AllocError;
use thiserror::Error;

/// Why a program gets no table.
#[derive(Clone, Copy, Debug, PartialEq, Eq, Error)]
pub enum StrataFault {
    /// No table stratifies the program: the cell `told` is told below the else of node `node`, which
    /// asks for the cell `guard`, and `told` reaches `guard`. It is the first such case, by the
    /// number of the else, then of the tell, and then by the places of the two cells in these.
    #[error("not stratified, cell {guard} guards cell {told} at node {node}")]
    NotStratified { guard: u32, told: u32, node: u32 },
    /// An allocation failed.
    #[error("out of memory")]
    Memory,
}

impl From<AllocError> for StrataFault {
    ghost from_gives = { λ _ e. e ≡ Memory };

    fn from(_error: AllocError) -> StrataFault {
        StrataFault::Memory
    }
}
