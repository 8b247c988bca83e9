//! Why a surface has no program.
ghost use Rattle.std.specs.Prelude.{◌≡◌};
ghost use Rattle.derived_forms.specs.declared.fault.ExpandFault.TheVariants.{Memory};

use std::alloc::AllocError;
use tdcc_reader::ReadFault;
use thiserror::Error;

/// Why no program was made of a surface.
#[derive(Clone, Copy, Debug, PartialEq, Eq, Error)]
pub enum ExpandFault {
    /// The program would have more than [`agent_core::MAX_NODES`] nodes.
    #[error("{}", ReadFault::TooManyNodes)]
    TooManyNodes,
    /// The program would have more than [`agent_core::MAX_CELLS`] cells, and no more nodes than it may.
    #[error("{}", ReadFault::TooManyCells)]
    TooManyCells,
    /// An allocation failed.
    #[error("out of memory")]
    Memory,
}

impl From<AllocError> for ExpandFault {
    ghost from_gives = { λ _ e. e ≡ Memory };

    fn from(_error: AllocError) -> ExpandFault {
        ExpandFault::Memory
    }
}
