//! Why a line is no part of an entry, and why an entry is not written.
ghost use Rattle.std.specs.Prelude.{◌≡◌};
ghost use Rattle.certificate_text.specs.declared.fault.EntryFault.TheVariants.{Memory as WriteMemory};
ghost use Rattle.certificate_text.specs.declared.fault.EntryLineFault.TheVariants.{Memory};

use std::alloc::AllocError;
use thiserror::Error;

/// Why a line is no part of an entry.
#[derive(Clone, Copy, Debug, PartialEq, Eq, Error)]
pub enum EntryLineFault {
    /// The field at this offset, the first that does not read, is bad. A line without a field is bad at 0, and one of more than
    /// `LONGEST_ENTRY_LINE` bytes at that number.
    #[error("bad at offset {offset}")]
    Bad { offset: u32 },
    /// An allocation failed.
    #[error("out of memory")]
    Memory,
}

impl From<AllocError> for EntryLineFault {
    ghost from_gives = { λ _ e. e ≡ Memory };

    fn from(_error: AllocError) -> EntryLineFault {
        EntryLineFault::Memory
    }
}

/// Why an entry is not written.
#[derive(Clone, Copy, Debug, PartialEq, Eq, Error)]
pub enum EntryFault {
    /// A line of it would have more than `LONGEST_ENTRY_LINE` bytes.
    #[error("line over 1048576 bytes")]
    LineLong,
    /// An allocation failed.
    #[error("out of memory")]
    Memory,
}

impl From<AllocError> for EntryFault {
    ghost from_gives = { λ _ e. e ≡ WriteMemory };

    fn from(_error: AllocError) -> EntryFault {
        EntryFault::Memory
    }
}
