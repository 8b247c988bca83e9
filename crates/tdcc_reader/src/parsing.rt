//! The steps of a program of a dialect, with the refusals of its grammar.
ghost use Rattle.std.specs.Prelude.{◌≡◌, ◌≤◌, ◌<◌, ◌^◌, IfErr, IfOk, MatchResult, length, map, position};
ghost use Rattle.program_grammar.specs.Phrases.{ProgramPhrase};
ghost use Rattle.program_grammar.specs.Reading.{AreSteps};
ghost use Rattle.program_lexemes.specs.Limits.{longest_core_text};
ghost use Rattle.tdcc_reader.specs.Refusals.{IsProgramOf, RefusesTerms};
ghost use Rattle.tdcc_reader.specs.declared.fault.ReadFault as ReadFault;
ghost use Rattle.tdcc_reader.specs.Stages.{is_later};
ghost use Rattle.tdcc_reader.specs.TermViews.{term_view};

use crate::dialect::Dialect;
use crate::fault::ReadFault;
use crate::terms::{Term, words};
use program_grammar::{ParseFault, Step, Word, parse};
use std::alloc::Global;

/// Whether the word belongs to a form that is not built yet.
fn is_later(word: Word) -> bool
    ensures { result ≡ is_later word }
{
    matches!(word, Word::Set | Word::Colon)
}

/// The first word of a form that is not built yet.
fn first_later(words: &[Word]) -> Option<usize>
    ensures { result ≡ position is_later words.now }
{
    words.iter().position(|word| is_later(*word))
}

/// The steps of the program that the terms are.
pub(crate) fn read_steps(
    alloc: Global,
    dialect: Dialect,
    terms: &[Term<'_>],
) -> Result<Vec<Step>, ReadFault>
    requires { length terms.now ≤ longest_core_text }
    ensures found { IfOk result (λ steps. (p : ProgramPhrase) ×
        IsProgramOf dialect (map term_view terms.now) p × AreSteps p steps.items) }
    ensures fault { IfErr result (RefusesTerms dialect (map term_view terms.now)) }
    ensures complete { (p : ProgramPhrase) → IsProgramOf dialect (map term_view terms.now) p
        → MatchResult result (λ steps. AreSteps p steps.items) (λ fault. fault ≡ ReadFault.Memory) }
{
    let words = words(alloc, terms)?;
    if let Some(place) = first_later(&words) {
        return Err(ReadFault::Later {
            lexeme: place as u32,
        });
    }
    match parse(alloc, dialect.language(), &words) {
        Ok(steps) => Ok(steps),
        Err(ParseFault::Syntax { place }) => Err(ReadFault::Syntax { lexeme: place }),
        Err(ParseFault::Memory) => Err(ReadFault::Memory),
    }
}
