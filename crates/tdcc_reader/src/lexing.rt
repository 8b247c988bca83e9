//! The terms of a text, with the refusals that need no grammar.
ghost use Rattle.std.specs.Prelude.{◌≡◌, ◌≤◌, ◌<◌, ◌^◌, All, IfErr, IfOk, List, MatchResult, Some, length, map, position, vec_len};
ghost use Rattle.program_grammar.specs.Terms.{Term as GrammarTerm};
ghost use Rattle.program_lexemes.specs.Lexemes.{IsIn};
ghost use Rattle.program_lexemes.specs.Limits.{longest_core_text};
ghost use Rattle.program_lexemes.specs.declared.lexer.Lexeme.{Lexeme};
ghost use Rattle.tdcc_reader.specs.declared.fault.ReadFault as ReadFault;
ghost use Rattle.tdcc_reader.specs.Dialects.{text_form};
ghost use Rattle.tdcc_reader.specs.Refusals.{HasTerms, IsLexed, Refuses, RefusesLexemes};
ghost use Rattle.tdcc_reader.specs.LexemeTerms.{too_long};
ghost use Rattle.tdcc_reader.specs.TermViews.{term_view};

use crate::dialect::Dialect;
use crate::fault::ReadFault;
use crate::terms::{Term, terms};
use program_lexemes::{LexFault, LexKind, Lexeme, lexemes};
use std::alloc::Global;

/// The lexemes of the text.
fn read_lexemes(alloc: Global, dialect: Dialect, text: &[u8]) -> Result<Vec<Lexeme>, ReadFault>
    ensures found { IfOk result (λ ls. IsLexed dialect text.now ls.items) }
    ensures each { IfOk result (λ ls. All (IsIn (text_form dialect) text.now) ls.items) }
    ensures bounded { IfOk result (λ ls. length ls.items ≤ longest_core_text) }
    ensures fault { IfErr result (Refuses dialect text.now) }
    ensures complete { (ls : List Lexeme) → IsLexed dialect text.now ls
        → MatchResult result (λ found. found.items ≡ ls) (λ fault. fault ≡ ReadFault.Memory) }
{
    if text.len() > dialect.max_bytes() {
        return Err(ReadFault::TextTooLong);
    }
    match lexemes(alloc, dialect.text_form(), text) {
        Ok(found) => Ok(found),
        Err(LexFault::Bad { offset }) => Err(ReadFault::Lex { offset }),
        Err(LexFault::Memory) => Err(ReadFault::Memory),
    }
}

/// The fault of the first lexeme that is too long.
fn long_fault(text: &[u8], lexemes: &[Lexeme], place: usize) -> ReadFault
    requires first { position (too_long text.now) lexemes.now ≡ Some place }
    requires few { length lexemes.now ≤ longest_core_text }
    ensures { RefusesLexemes text.now lexemes.now result }
{
    let lexeme = place as u32;
    match lexemes[place].kind {
        LexKind::Name => ReadFault::LongName { lexeme },
        LexKind::Number => ReadFault::LongNumber { lexeme },
        LexKind::Keyword | LexKind::Symbol => unreachable!(),
    }
}

/// The terms of the text.
pub(crate) fn read_terms(
    alloc: Global,
    dialect: Dialect,
    text: &[u8],
) -> Result<Vec<Term<'_>>, ReadFault>
    ensures found { IfOk result (λ ts. HasTerms dialect text.now (map term_view ts.items)) }
    ensures bounded { IfOk result (λ ts. length ts.items ≤ longest_core_text) }
    ensures fault { IfErr result (Refuses dialect text.now) }
    ensures complete { (ts : List GrammarTerm) → HasTerms dialect text.now ts
        → MatchResult result (λ found. map term_view found.items ≡ ts) (λ fault. fault ≡ ReadFault.Memory) }
{
    let lexemes = read_lexemes(alloc, dialect, text)?;
    match terms(alloc, text, &lexemes) {
        Ok(Ok(terms)) => Ok(terms),
        Ok(Err(place)) => Err(long_fault(text, &lexemes, place)),
        Err(_) => Err(ReadFault::Memory),
    }
}
