//! The dialects of texts, and what each allows.
ghost use Rattle.std.specs.Prelude.{◌≡◌};
ghost use Rattle.tdcc_reader.specs.Dialects.{language, max_bytes, max_depth, max_tokens, text_form};

use program_grammar::Language;
use program_lexemes::{LONGEST_CORE_TEXT, LONGEST_PROGRAM_TEXT, TextForm};

/// The greatest depth of a unit of a program text.
pub const GREATEST_DEPTH: usize = 64;

/// The greatest depth of a unit of a core text.
pub const GREATEST_CORE_DEPTH: usize = 8_192;

/// The most tokens of a constraint as it is written in a program text.
pub const MOST_WRITTEN_TOKENS: usize = 8;

/// The most tokens of a constraint, where a written `x=n` is two.
pub const MOST_CONSTRAINT_TOKENS: usize = 16;

/// What a text is written in.
#[derive(Clone, Copy, Debug, PartialEq, Eq)]
pub enum Dialect {
    /// A program, as it is written.
    Program,
    /// A core program, as it is printed: it has no derived forms, a dollar and digits are a name as well, it may be
    /// longer and deeper, and its tokens are counted as those of its forms.
    Core,
}

impl Dialect {
    /// The most bytes that a text may have.
    pub(crate) fn max_bytes(self) -> usize
        ensures { result ≡ max_bytes self }
    {
        match self {
            Dialect::Program => LONGEST_PROGRAM_TEXT,
            Dialect::Core => LONGEST_CORE_TEXT,
        }
    }

    /// What is a lexeme.
    pub(crate) fn text_form(self) -> TextForm
        ensures { result ≡ text_form self }
    {
        match self {
            Dialect::Program => TextForm::Program,
            Dialect::Core => TextForm::Core,
        }
    }

    /// What is a program.
    pub(crate) fn language(self) -> Language
        ensures { result ≡ language self }
    {
        match self {
            Dialect::Program => Language::Whole,
            Dialect::Core => Language::Core,
        }
    }

    /// The greatest depth of a unit.
    pub(crate) fn max_depth(self) -> usize
        ensures { result ≡ max_depth self }
    {
        match self {
            Dialect::Program => GREATEST_DEPTH,
            Dialect::Core => GREATEST_CORE_DEPTH,
        }
    }

    /// The most tokens of a constraint.
    pub(crate) fn max_tokens(self) -> usize
        ensures { result ≡ max_tokens self }
    {
        match self {
            Dialect::Program => MOST_WRITTEN_TOKENS,
            Dialect::Core => MOST_CONSTRAINT_TOKENS,
        }
    }
}
