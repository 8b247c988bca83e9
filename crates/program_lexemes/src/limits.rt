//! How long texts may be.

/// The most bytes that a program text may have.
pub const LONGEST_PROGRAM_TEXT: usize = 65_536;

/// The most bytes that a core text may have.
pub const LONGEST_CORE_TEXT: usize = 4_194_304;
