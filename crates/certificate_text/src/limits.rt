//! How long a line of an entry may be.

/// The most bytes that a line of an entry may have, without a line feed at its end.
pub const LONGEST_ENTRY_LINE: usize = 1_048_576;
