//! The lexemes of program texts: names, keywords, numbers and symbols, as the longest match at each place, the first
//! byte at which none begins, and what a lexeme says.
#![tactic(auto)]

mod bytes;
mod keywords;
mod laws;
mod lexer;
mod limits;
mod readers;
mod symbols;
#[cfg(test)]
mod tests;

pub use bytes::TextForm;
pub use keywords::{Keyword, keyword_of};
pub use laws::{
    joined_law, kinds_law, lexemes_law, limits_law, names_law, numerals_law, spellings_law,
};
pub use lexer::{LexFault, LexKind, Lexeme, lexemes};
pub use limits::{LONGEST_CORE_TEXT, LONGEST_PROGRAM_TEXT};
pub use readers::{is_long, lexeme_bytes};
pub use symbols::{Symbol, symbol_of};
