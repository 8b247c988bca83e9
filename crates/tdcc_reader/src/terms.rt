//! The terms of a text: what its lexemes say.
ghost use Rattle.std.specs.Prelude.{◌≡◌, ◌<◌, ◌^◌, All, IfErr, IfOk, MatchResult, None, Some, false, get_or, length, map, position};
ghost use Rattle.program_grammar.specs.Terms.{Skip, class_of, classes};
ghost use Rattle.program_lexemes.specs.Forms.{kind_of};
ghost use Rattle.program_lexemes.specs.Lexemes.{IsIn, bytes_of_lexeme};
ghost use Rattle.program_lexemes.specs.Numbers.{is_long};
ghost use Rattle.program_lexemes.specs.declared.bytes.TextForm.{TextForm};
ghost use Rattle.tdcc_reader.specs.LexemeTerms.{keyword_term, term_of_lexeme, symbol_term, terms_of, too_long};
ghost use Rattle.tdcc_reader.specs.TermViews.{term_view};

use names_and_numbers::number_value;
use program_grammar::Word;
use program_lexemes::{
    Keyword, LexKind, Lexeme, Symbol, is_long, keyword_of, kinds_law, lexeme_bytes, symbol_of,
};
use std::alloc::{AllocError, Global};

/// What a lexeme says: a name with its bytes, a number with its value, a keyword or a symbol.
#[derive(Clone, Copy, Debug, PartialEq, Eq)]
pub(crate) enum Term<'a> {
    Name(&'a [u8]),
    Number(i64),
    Keyword(Keyword),
    Symbol(Symbol),
}

impl<'a> Term<'a> {
    /// The term as the grammar sees it.
    pub(crate) fn word(self) -> Word
        ensures { result ≡ class_of (term_view self.entry) }
    {
        match self {
            Term::Name(_) => Word::Name,
            Term::Number(_) => Word::Number,
            Term::Keyword(keyword) => keyword_word(keyword),
            Term::Symbol(symbol) => symbol_word(symbol),
        }
    }
}

/// The word of a keyword.
fn keyword_word(keyword: Keyword) -> Word
    ensures { result ≡ class_of (keyword_term keyword) }
{
    match keyword {
        Keyword::Signal => Word::Signal,
        Keyword::Int => Word::Int,
        Keyword::Set => Word::Set,
        Keyword::In => Word::In,
        Keyword::Skip => Word::Skip,
        Keyword::If => Word::If,
        Keyword::Then => Word::Then,
        Keyword::Else => Word::Else,
        Keyword::New => Word::New,
        Keyword::Hence => Word::Hence,
        Keyword::Next => Word::Next,
        Keyword::Always => Word::Always,
        Keyword::When => Word::When,
        Keyword::Do => Word::Do,
        Keyword::Watching => Word::Watching,
        Keyword::Time => Word::Time,
        Keyword::On => Word::On,
    }
}

/// The word of a symbol.
fn symbol_word(symbol: Symbol) -> Word
    ensures { result ≡ class_of (symbol_term symbol) }
{
    match symbol {
        Symbol::Semicolon => Word::Semicolon,
        Symbol::Comma => Word::Comma,
        Symbol::Range => Word::Range,
        Symbol::Ampersand => Word::Ampersand,
        Symbol::Bars => Word::Bars,
        Symbol::OpenBrace => Word::OpenBrace,
        Symbol::CloseBrace => Word::CloseBrace,
        Symbol::Bang => Word::Bang,
        Symbol::Hash => Word::Hash,
        Symbol::GreaterEqual => Word::GreaterEqual,
        Symbol::LessEqual => Word::LessEqual,
        Symbol::Equal => Word::Equal,
        Symbol::Colon => Word::Colon,
    }
}

/// What the bytes of a keyword say.
fn keyword_says<'a>(bytes: &'a [u8]) -> Term<'a>
    ensures { term_view result ≡ term_of_lexeme LexKind.Keyword bytes.now }
{
    match keyword_of(bytes) {
        Some(keyword) => Term::Keyword(keyword),
        None => Term::Keyword(Keyword::Skip),
    }
}

/// What the bytes of a symbol say.
fn symbol_says<'a>(bytes: &'a [u8]) -> Term<'a>
    ensures { term_view result ≡ term_of_lexeme LexKind.Symbol bytes.now }
{
    match symbol_of(bytes) {
        Some(symbol) => Term::Symbol(symbol),
        None => Term::Keyword(Keyword::Skip),
    }
}

/// What a lexeme of this kind with these bytes says.
fn says<'a>(kind: LexKind, bytes: &'a [u8]) -> Term<'a>
    requires is { (form : TextForm) × (kind_of form bytes.now ≡ Some kind) }
    requires short { is_long kind bytes.now ≡ false }
    ensures { term_view result ≡ term_of_lexeme kind bytes.now }
{
    kinds_law();
    match kind {
        LexKind::Name => Term::Name(bytes),
        LexKind::Keyword => keyword_says(bytes),
        LexKind::Number => Term::Number(number_value(bytes)),
        LexKind::Symbol => symbol_says(bytes),
    }
}

/// The terms of the lexemes, or the place of the first lexeme that is too long.
pub(crate) fn terms<'a>(
    alloc: Global,
    text: &'a [u8],
    lexemes: &[Lexeme],
) -> Result<Result<Vec<Term<'a>>, usize>, AllocError>
    requires { (form : TextForm) × All (IsIn form text.now) lexemes.now }
    ensures { IfOk result (λ read. MatchResult read
        (λ ts. (position (too_long text.now) lexemes.now ≡ None) × (map term_view ts.items ≡ terms_of text.now lexemes.now))
        (λ place. position (too_long text.now) lexemes.now ≡ Some place)) }
{
    let mut found = Vec::new(alloc);
    for (place, lexeme) in lexemes.iter().enumerate() {
        let bytes = lexeme_bytes(text, lexeme);
        if is_long(lexeme.kind, bytes) {
            return Ok(Err(place));
        }
        found.push(says(lexeme.kind, bytes))?;
    }
    Ok(Ok(found))
}

/// The words of the terms.
pub(crate) fn words(alloc: Global, terms: &[Term<'_>]) -> Result<Vec<Word>, AllocError>
    ensures { IfOk result (λ ws. classes (map term_view terms.now) ≡ ws.items) }
{
    let mut found = Vec::new(alloc);
    for term in terms {
        found.push(term.word())?;
    }
    Ok(found)
}

/// The term at this place, or `skip` past the end.
pub(crate) fn term_at<'a>(terms: &[Term<'a>], place: u32) -> Term<'a>
    ensures { term_view result ≡ get_or (map term_view terms.now) place Skip }
{
    match terms.get(place as usize) {
        Some(term) => *term,
        None => Term::Keyword(Keyword::Skip),
    }
}

/// The word at this place, or `skip` past the end.
pub(crate) fn word_at(terms: &[Term<'_>], place: u32) -> Word
    ensures { result ≡ class_of (get_or (map term_view terms.now) place Skip) }
{
    term_at(terms, place).word()
}
