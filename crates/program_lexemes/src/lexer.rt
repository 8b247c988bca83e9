//! The lexer: the longest lexeme at each place of a text.
ghost use Rattle.std.specs.Prelude.{◌≡◌, ◌≤◌, All, IfErr, IfOk, List, MatchBool, MatchOption, MatchResult, false, length, take, true, vec_len};
ghost use Rattle.program_lexemes.specs.Forms.{word_kind};
ghost use Rattle.program_lexemes.specs.Lexemes.{AreLexemes, IsBad, IsLexFault, IsIn, IsLongest, NoLexeme};
ghost use Rattle.program_lexemes.specs.Limits.{longest_core_text};
ghost use Rattle.program_lexemes.specs.Prefixes.{IsLongestPrefix, NoPrefix};
ghost use Rattle.program_lexemes.specs.Spellings.{is_symbol};
ghost use Rattle.program_lexemes.specs.declared.lexer.LexFault as LexFault;
ghost use Rattle.program_lexemes.specs.declared.lexer.Lexeme.{Lexeme};

use crate::bytes::{TextForm, is_dollar, is_white};
use crate::keywords::keyword_of;
use crate::symbols::symbol_of;
use names_and_numbers::{MOST_DIGITS, digits_len, is_digit, is_letter, word_len};
use std::alloc::{AllocError, Global};
use thiserror::Error;

/// What a lexeme is.
#[derive(Clone, Copy, Debug, PartialEq, Eq)]
pub enum LexKind {
    Name,
    Keyword,
    Number,
    Symbol,
}

/// A lexeme of a text: what it is, the place of its first byte, and the place behind its last one.
#[derive(Clone, Copy, Debug, PartialEq, Eq)]
pub struct Lexeme {
    pub kind: LexKind,
    pub start: u32,
    pub end: u32,
}

/// Why a text has no lexemes.
#[derive(Clone, Copy, Debug, PartialEq, Eq, Error)]
pub enum LexFault {
    /// At this byte begins neither white space nor a lexeme, and it is the first one.
    #[error("bad byte at offset {offset}")]
    Bad { offset: u32 },
    /// An allocation failed.
    #[error("out of memory")]
    Memory,
}

/// The kind of a word: a letter and then letters, digits and `_`.
fn word_kind(word: &[u8]) -> LexKind
    ensures { result ≡ word_kind word.now }
{
    if keyword_of(word).is_some() {
        LexKind::Keyword
    } else {
        LexKind::Name
    }
}

/// Whether so many first bytes are a symbol.
fn begins_with_symbol(bytes: &[u8], size: usize) -> bool
    ensures { MatchBool result
        ((size ≤ length bytes.now) × (is_symbol (take size bytes.now) ≡ true))
        (size ≤ length bytes.now → is_symbol (take size bytes.now) ≡ false) }
{
    size <= bytes.len() && symbol_of(&bytes[..size]).is_some()
}

/// How many bytes the longest symbol at the start has.
fn longest_symbol(bytes: &[u8]) -> Option<usize>
    ensures { MatchOption result (NoPrefix is_symbol bytes.now) (IsLongestPrefix is_symbol bytes.now) }
{
    if begins_with_symbol(bytes, 2) {
        Some(2)
    } else if begins_with_symbol(bytes, 1) {
        Some(1)
    } else {
        None
    }
}

/// The longest lexeme at the start: its kind, and how many bytes it has.
fn longest(form: TextForm, bytes: &[u8]) -> Option<(LexKind, usize)>
    ensures { MatchOption result (NoLexeme form bytes.now) (λ l. IsLongest form bytes.now l.1 l.0) }
{
    let (first, rest) = bytes.split_first()?;
    if is_letter(*first) {
        let size = word_len(rest) + 1;
        return Some((word_kind(&bytes[..size]), size));
    }
    if is_digit(*first) {
        return Some((LexKind::Number, digits_len(rest) + 1));
    }
    if *first == b'-' {
        let digits = digits_len(rest);
        return if digits == 0 {
            None
        } else {
            Some((LexKind::Number, digits + 1))
        };
    }
    if is_dollar(form, *first) {
        let digits = digits_len(rest).min(MOST_DIGITS);
        return if digits == 0 {
            None
        } else {
            Some((LexKind::Name, digits + 1))
        };
    }
    let size = longest_symbol(bytes)?;
    Some((LexKind::Symbol, size))
}

/// The lexemes of the text, or the place of the first byte at which none begins.
fn read_lexemes(
    alloc: Global,
    form: TextForm,
    text: &[u8],
) -> Result<Result<Vec<Lexeme>, u32>, AllocError>
    requires { length text.now ≤ longest_core_text }
    ensures { IfOk result (λ read.
        MatchResult read (λ ls. AreLexemes form text.now ls.items) (IsBad form text.now)) }
{
    let mut found = Vec::new(alloc);
    let mut at = 0;
    while at < text.len() {
        if is_white(text[at]) {
            at += 1;
        } else {
            let Some((kind, size)) = longest(form, &text[at..]) else {
                return Ok(Err(at as u32));
            };
            found.push(Lexeme {
                kind,
                start: at as u32,
                end: (at + size) as u32,
            })?;
            at += size;
        }
    }
    Ok(Ok(found))
}

/// The lexemes of a text of this form, in order. White space may stand between any two of them, and at each place the
/// longest lexeme is taken. A text of white space alone has none.
///
/// # Errors
///
/// `Bad` with the offset of the first byte at which neither white space nor a lexeme begins; `Memory` where an
/// allocation fails.
pub fn lexemes(alloc: Global, form: TextForm, text: &[u8]) -> Result<Vec<Lexeme>, LexFault>
    requires { length text.now ≤ longest_core_text }

    ensures found { IfOk result (λ ls. AreLexemes form text.now ls.items) }
    // What stands in the text under a lexeme is of its kind.
    ensures each { IfOk result (λ ls. All (IsIn form text.now) ls.items) }
    ensures bounded { IfOk result (λ ls. vec_len ls ≤ length text.now) }
    // A refusal is at the first bad byte.
    ensures fault { IfErr result (IsLexFault form text.now) }
    // A text that has lexemes is read as these, and it has no others.
    ensures complete { (ls : List Lexeme) → AreLexemes form text.now ls
        → MatchResult result (λ found. found.items ≡ ls) (λ fault. fault ≡ LexFault.Memory) }
{
    match read_lexemes(alloc, form, text) {
        Ok(Ok(found)) => Ok(found),
        Ok(Err(offset)) => Err(LexFault::Bad { offset }),
        Err(_) => Err(LexFault::Memory),
    }
}
