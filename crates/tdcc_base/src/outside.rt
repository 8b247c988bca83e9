//! Sources and sinks: where bytes come from and go to.
ghost use Rattle.std.specs.Prelude.{◌<◌, ◌≤◌, Bool, List, ℕ, Option, Result, IfOk, IsErr, length};
ghost use Rattle.std.specs.Io.{ReadsAtMost};
ghost use Rattle.std.specs.Io.KnownBytes.{ReadConsumes, WriteAppends};
ghost use Rattle.tdcc_base.specs.Causes.{HasCause};
ghost use Rattle.tdcc_base.specs.Promises.{StaysSteady, TakesWithin};
ghost use Rattle.tdcc_base.specs.declared.outside.Failed.{Failed};

use std::alloc::AllocError;
use thiserror::Error;

/// Out of memory.
pub type Memory = AllocError;

/// A device refused a call, and counted that.
#[derive(Clone, Copy, Debug, PartialEq, Eq, Error)]
#[error("the device failed")]
pub struct Failed;

/// Where bytes come from.
pub trait Source {
    /// The bytes that are not given yet, where the source tells them.
    ghost left: { Self → Option (List ℕ) };

    /// How often the source has failed. The count never falls, and stops at the greatest `u64`.
    ghost faults: { Self → ℕ };

    /// Whether the source is sure to refuse no call from now on. One that promises nothing says `false`:
    /// it may still refuse none.
    ghost steady: { Self → Bool };

    /// What one read may do: the source before it, the bytes that it was lent as they are after it, its answer, and the
    /// source after it. A reader of a source says by it which reads were made.
    ghost read_gives: { Self → List ℕ → Result ℕ Failed → Self → Type 0 };

    /// Reads some of the bytes that are left to the start of `into`, and answers how many.
    /// `Ok(0)` is the end of the bytes.
    ///
    /// # Errors
    /// `Failed` where the device refused the call: it has counted that, and has given nothing.
    fn read(&mut self, into: &mut [u8]) -> Result<usize, Failed>
        requires { 0 < length into.old }
        ensures bound { ReadsAtMost result into.new }
        ensures bytes { ReadConsumes (left self.old) (left self.new) result into.new }
        ensures cause { HasCause (faults self.old) (faults self.new) result }
        ensures steady { StaysSteady (steady self.old) (steady self.new) (IsErr result) }
        ensures own { read_gives self.old into.new result self.new };
}

/// Where bytes go.
pub trait Sink {
    /// The bytes that were taken, where the sink tells them.
    ghost written: { Self → Option (List ℕ) };

    /// How often the sink has failed. The count never falls, and stops at the greatest `u64`.
    ghost faults: { Self → ℕ };

    /// How many more bytes the sink is sure to take, or `None` where it promises nothing. With `Some 0`
    /// it promises nothing of the next write either.
    ghost room: { Self → Option ℕ };

    /// Takes a prefix of `from`, at least one, and answers how many.
    ///
    /// # Errors
    /// `Failed` where the device refused the call or took nothing: it has counted that.
    fn write(&mut self, from: &[u8]) -> Result<usize, Failed>
        requires { 0 < length from.now }
        ensures some { IfOk result (λ n. 0 < n) }
        ensures bound { IfOk result (λ n. n ≤ length from.now) }
        ensures bytes { WriteAppends (written self.old) (written self.new) result from.now }
        ensures cause { HasCause (faults self.old) (faults self.new) result }
        ensures promise { TakesWithin (room self.old) (room self.new) result };
}
