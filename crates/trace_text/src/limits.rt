//! How long a trace line may be.

/// The most bytes that a trace line may have, without a line feed at its end.
pub const LONGEST_TRACE_LINE: usize = 32_768;
