//! Names and numbers as they are written: which bytes may stand in them, how long they may be, and the value of a number.
//! Texts of tokens and texts of programs have the same ones.
#![tactic(auto)]

mod laws;
mod letters;
mod limits;
mod names;
mod numbers;
#[cfg(test)]
mod tests;

pub use laws::limits_law;
pub use letters::{digits_len, is_digit, is_letter, is_word_byte, word_len};
pub use limits::{LONGEST_NAME, MOST_DIGITS};
pub use names::is_name;
pub use numbers::{digits_of, number_value, read_natural, read_number};
