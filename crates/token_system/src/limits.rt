//! The numbers that bounds and domains may name.

/// The greatest number that a bound may name and a domain may have; the least is its negation.
pub const GREATEST_BOUND: i64 = 999_999_999;
