//! How long names and numbers may be.

/// The most bytes that a name may have.
pub const LONGEST_NAME: usize = 32;

/// The most digits that a number may have.
pub const MOST_DIGITS: usize = 9;
