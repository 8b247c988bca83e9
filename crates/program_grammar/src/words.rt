//! The words that the grammar reads, and the languages that it reads them in.
ghost use Rattle.std.specs.Prelude.{◌≡◌};
ghost use Rattle.program_grammar.specs.Machine.{permits};

/// A lexeme as the grammar sees it: a keyword or a symbol, or that it is a name or a number.
///
/// `Set` and `Colon` are reserved: no program has them yet.
#[derive(Clone, Copy, Debug, PartialEq, Eq)]
pub enum Word {
    Name,
    Number,
    Signal,
    Int,
    Set,
    In,
    Skip,
    If,
    Then,
    Else,
    New,
    Hence,
    Next,
    Always,
    When,
    Do,
    Watching,
    Time,
    On,
    Semicolon,
    Comma,
    Range,
    Ampersand,
    Bars,
    OpenBrace,
    CloseBrace,
    Bang,
    Hash,
    GreaterEqual,
    LessEqual,
    Equal,
    Colon,
}

/// A language: the whole one of program texts, or the core one, without the derived forms `always`, `when`,
/// `do` .. `watching` and `time` .. `on`.
#[derive(Clone, Copy, Debug, PartialEq, Eq)]
pub enum Language {
    Whole,
    Core,
}

/// Whether a program of the language may have the word.
pub fn is_permitted(language: Language, word: Word) -> bool
    ensures { result ≡ permits language word }
{
    match language {
        Language::Whole => true,
        Language::Core => !matches!(word, Word::Always | Word::When | Word::Do | Word::Time),
    }
}
