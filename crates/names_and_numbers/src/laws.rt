//! The laws of names and numbers, each proved as the contract of a function with no body.
ghost use Rattle.std.specs.Prelude.{◌≡◌};
ghost use Rattle.names_and_numbers.specs.Limits.{longest_name, most_digits};

use crate::limits::{LONGEST_NAME, MOST_DIGITS};

/// The constants of the code are the limits of the definitions.
pub fn limits_law()
    ensures name { LONGEST_NAME ≡ longest_name }
    ensures digits { MOST_DIGITS ≡ most_digits }
{}
