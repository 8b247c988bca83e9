//! What a lexeme says: its bytes, and whether it is too long.
ghost use Rattle.std.specs.Prelude.{◌≡◌, ◌≤◌, length};
ghost use Rattle.program_lexemes.specs.Lexemes.{bytes_of_lexeme};
ghost use Rattle.program_lexemes.specs.Numbers.{is_long};

use crate::lexer::{LexKind, Lexeme};
use names_and_numbers::{LONGEST_NAME, MOST_DIGITS, digits_of};

/// The bytes of a lexeme of this text.
pub fn lexeme_bytes<'a>(text: &'a [u8], lexeme: &Lexeme) -> &'a [u8]
    requires ordered { lexeme.now.start ≤ lexeme.now.end }
    requires within { lexeme.now.end ≤ length text.now }
    ensures { result.now ≡ bytes_of_lexeme text.now lexeme.now }
{
    &text[lexeme.start as usize..lexeme.end as usize]
}

/// Whether a lexeme of this kind with these bytes is too long for a program: a name of more than [`LONGEST_NAME`] bytes,
/// or a number of more than [`MOST_DIGITS`] digits. A minus is no digit, and leading zeros are.
pub fn is_long(kind: LexKind, bytes: &[u8]) -> bool
    ensures { result ≡ is_long kind bytes.now }
{
    match kind {
        LexKind::Name => bytes.len() > LONGEST_NAME,
        LexKind::Number => digits_of(bytes).len() > MOST_DIGITS,
        LexKind::Keyword | LexKind::Symbol => false,
    }
}
