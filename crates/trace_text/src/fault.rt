//! Why a trace line gives no input.
ghost use Rattle.std.specs.Prelude.{◌≡◌};
ghost use Rattle.trace_text.specs.declared.fault.LineFault.TheVariants.{Memory};

use crate::limits::LONGEST_TRACE_LINE;
use std::alloc::AllocError;
use std::fmt;
use thiserror::Error;

/// Why a trace line gives no input. The first field that is refused decides; its offset is the
/// number of bytes of the line before it.
#[derive(Clone, Copy, Debug, PartialEq, Eq, Error)]
pub enum LineFault {
    /// The field is no token's text.
    BadToken { offset: u32 },
    /// The field names no declared cell.
    UnknownName { offset: u32 },
    /// The field is a token that does not fit the cell that it names.
    WrongKind { offset: u32 },
    /// The line has more than `LONGEST_TRACE_LINE` bytes.
    LineTooLong,
    /// An allocation failed.
    Memory,
}

impl From<AllocError> for LineFault {
    ghost from_gives = { λ _ e. e ≡ Memory };

    fn from(_error: AllocError) -> LineFault {
        LineFault::Memory
    }
}

impl fmt::Display for LineFault {
    ghost use Rattle.std.specs.Prelude.{Some};
    ghost use Rattle.trace_text.specs.Messages.{line_fault_message};

    ghost output = { λ fault. Some (line_fault_message fault) };

    fn fmt<W: fmt::Write>(&self, f: &mut fmt::Formatter<W>) -> fmt::Result {
        match *self {
            LineFault::BadToken { offset } => write!(f, "bad token at offset {offset}"),
            LineFault::UnknownName { offset } => write!(f, "unknown name at offset {offset}"),
            LineFault::WrongKind { offset } => write!(f, "wrong kind at offset {offset}"),
            LineFault::LineTooLong => write!(f, "line over {LONGEST_TRACE_LINE} bytes"),
            LineFault::Memory => f.write_str("out of memory"),
        }
    }
}
