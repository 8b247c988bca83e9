//! Why a text is not read.
ghost use Rattle.std.specs.Prelude.{◌≡◌};
ghost use Rattle.tdcc_reader.specs.declared.fault.ReadFault.TheVariants.{Memory};

use agent_core::{MAX_CELLS, MAX_DECLARED, MAX_NODES};
use program_lexemes::LONGEST_PROGRAM_TEXT;
use std::alloc::AllocError;
use std::fmt;
use thiserror::Error;

/// Why a text was not read. Lexemes are numbered from 0.
#[derive(Clone, Copy, Debug, PartialEq, Eq, Error)]
pub enum ReadFault {
    /// The text has more bytes than it may have: of a program text, more than
    /// [`program_lexemes::LONGEST_PROGRAM_TEXT`], which the message names; of a core text, more than
    /// [`program_lexemes::LONGEST_CORE_TEXT`].
    TextTooLong,
    /// At this byte begins neither white space nor a lexeme, and it is the first one.
    Lex { offset: u32 },
    /// This lexeme is a name of more than [`names_and_numbers::LONGEST_NAME`] bytes, and no lexeme before it is too long.
    LongName { lexeme: u32 },
    /// This lexeme is a number of more than [`names_and_numbers::MOST_DIGITS`] digits, and no lexeme before it is too
    /// long.
    LongNumber { lexeme: u32 },
    /// This lexeme is the first one that belongs to a form that is not built yet.
    Later { lexeme: u32 },
    /// The lexemes are no program, and so many of them begin one.
    Syntax { lexeme: u32 },
    /// With this lexeme begins the first unit that is inside [`crate::GREATEST_DEPTH`] others; in a core text,
    /// [`crate::GREATEST_CORE_DEPTH`].
    TooDeep { lexeme: u32 },
    /// With this lexeme begins the first token of a constraint that goes past [`crate::MOST_WRITTEN_TOKENS`]; in a core
    /// text past [`crate::MOST_CONSTRAINT_TOKENS`], where `x=n` is two.
    TooManyTokens { lexeme: u32 },
    /// This name is declared where a declaration of it is in scope.
    DoubleName { lexeme: u32 },
    /// This number is the least value of a domain whose greatest value is less.
    EmptyDomain { lexeme: u32 },
    /// This name stands in a token, and no declaration of it is in scope.
    UnknownName { lexeme: u32 },
    /// This name of a number stands alone or behind `!`, or this name of a signal has a bound.
    WrongKind { lexeme: u32 },
    /// More than [`agent_core::MAX_DECLARED`] cells are declared.
    TooManyDeclared,
    /// The program has more than [`agent_core::MAX_NODES`] nodes.
    TooManyNodes,
    /// The program has more than [`agent_core::MAX_CELLS`] cells.
    TooManyCells,
    /// An allocation failed.
    Memory,
}

impl From<AllocError> for ReadFault {
    ghost from_gives = { λ _ e. e ≡ Memory };

    fn from(_error: AllocError) -> ReadFault {
        ReadFault::Memory
    }
}

impl fmt::Display for ReadFault {
    ghost use Rattle.std.specs.Prelude.{Some};
    ghost use Rattle.tdcc_reader.specs.Messages.{fault_message};

    ghost output = { λ fault. Some (fault_message fault) };

    fn fmt<W: fmt::Write>(&self, f: &mut fmt::Formatter<W>) -> fmt::Result {
        match *self {
            ReadFault::TextTooLong => write!(f, "text over {LONGEST_PROGRAM_TEXT} bytes"),
            ReadFault::Lex { offset } => write!(f, "bad byte at offset {offset}"),
            ReadFault::LongName { lexeme } => write!(f, "long name at lexeme {lexeme}"),
            ReadFault::LongNumber { lexeme } => write!(f, "long number at lexeme {lexeme}"),
            ReadFault::Later { lexeme } => write!(f, "not built yet at lexeme {lexeme}"),
            ReadFault::Syntax { lexeme } => write!(f, "syntax at lexeme {lexeme}"),
            ReadFault::TooDeep { lexeme } => write!(f, "too deep at lexeme {lexeme}"),
            ReadFault::TooManyTokens { lexeme } => write!(f, "too many tokens at lexeme {lexeme}"),
            ReadFault::DoubleName { lexeme } => write!(f, "double name at lexeme {lexeme}"),
            ReadFault::EmptyDomain { lexeme } => write!(f, "empty domain at lexeme {lexeme}"),
            ReadFault::UnknownName { lexeme } => write!(f, "unknown name at lexeme {lexeme}"),
            ReadFault::WrongKind { lexeme } => write!(f, "wrong kind at lexeme {lexeme}"),
            ReadFault::TooManyDeclared => write!(f, "over {MAX_DECLARED} declared cells"),
            ReadFault::TooManyNodes => write!(f, "over {MAX_NODES} nodes"),
            ReadFault::TooManyCells => write!(f, "over {MAX_CELLS} cells"),
            ReadFault::Memory => f.write_str("out of memory"),
        }
    }
}
