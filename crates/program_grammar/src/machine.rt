//! The reading machine: a stack of the parts that are still to come, and a list of the steps that were taken.
ghost use Rattle.std.specs.Prelude.{◌≡◌, ◌++◌, ◌<◌, ◌^◌, IfErr, IfOk, IsTrue, Some, None, List, length, map, reverse, MatchBool, MatchResult, OnOk};
ghost use Rattle.program_grammar.specs.Machine.{Ends, StopsAt, ended, feed_in, start, trace, word_steps};
ghost use Rattle.program_grammar.specs.Phrases.{ProgramPhrase};
ghost use Rattle.program_grammar.specs.Programs.{Spells};
ghost use Rattle.program_grammar.specs.Reading.{AreSteps, IsSyntaxFault, IsReading};
ghost use Rattle.program_grammar.specs.Terms.{Term, classes};
ghost use Rattle.program_grammar.specs.declared.machine.ParseFault as ParseFault;
ghost use Rattle.program_grammar.specs.declared.machine.Step.TheVariants.{Skipped};

use crate::stack_symbols::{StackSymbol, may_be_absent};
use crate::table::parts_after;
use crate::words::{Language, Word, is_permitted};
use std::alloc::{AllocError, Global};
use thiserror::Error;

/// What happened to a part.
#[derive(Clone, Copy, Debug, PartialEq, Eq)]
pub enum Step {
    /// The part took the word at this place.
    Matched(StackSymbol, u32),
    /// The part was left without a word.
    Skipped(StackSymbol),
}

/// Why words were not read.
#[derive(Clone, Copy, Debug, PartialEq, Eq, Error)]
pub enum ParseFault {
    /// The words are no program. The place is the length of their longest prefix that begins one.
    #[error("syntax at lexeme {place}")]
    Syntax { place: u32 },
    /// An allocation failed.
    #[error("out of memory")]
    Memory,
}

/// Puts what is to come first on top.
fn expect(parts: &mut Vec<StackSymbol>, rest: &[StackSymbol]) -> Result<(), AllocError>
    ensures { OnOk result (reverse parts.new.items ≡ rest.now ++ reverse parts.old.items) }
{
    let mut left = rest.len();
    while left > 0 {
        left -= 1;
        parts.push(rest[left])?;
    }
    Ok(())
}

/// Matches the word at this place. Says whether it may come next.
fn match_word(
    language: Language,
    parts: &mut Vec<StackSymbol>,
    steps: &mut Vec<Step>,
    place: u32,
    word: Word,
) -> Result<bool, AllocError>
    ensures fed { IfOk result (λ taken. MatchBool taken
        (feed_in language (reverse parts.old.items) word ≡ Some (reverse parts.new.items))
        (feed_in language (reverse parts.old.items) word ≡ None)) }
    ensures steps { IfOk result (λ taken. IsTrue taken →
        steps.new.items ≡ steps.old.items ++ word_steps (reverse parts.old.items) place word) }
{
    if !is_permitted(language, word) {
        return Ok(false);
    }
    while let Some(part) = parts.pop() {
        if let Some(rest) = parts_after(part, word) {
            steps.push(Step::Matched(part, place))?;
            expect(parts, rest)?;
            return Ok(true);
        }
        if !may_be_absent(part) {
            return Ok(false);
        }
        steps.push(Step::Skipped(part))?;
    }
    Ok(false)
}

/// Skips the parts that are still to come.
fn skip_all(parts: &mut Vec<StackSymbol>, steps: &mut Vec<Step>) -> Result<(), AllocError>
    ensures { OnOk result (steps.new.items ≡ steps.old.items ++ map Skipped (reverse parts.old.items)) }
{
    while let Some(part) = parts.pop() {
        steps.push(Step::Skipped(part))?;
    }
    Ok(())
}

/// Whether nothing more need come.
fn is_ended(parts: &[StackSymbol]) -> bool
    ensures { result ≡ ended parts.now }
{
    parts.iter().all(|part| may_be_absent(*part))
}

/// Runs the machine over the words: its steps, or the place of the word that may not come.
fn run_machine(
    alloc: Global,
    language: Language,
    words: &[Word],
) -> Result<Result<Vec<Step>, u32>, AllocError>
    requires { length words.now < 2 ^ 32 }
    ensures { IfOk result (λ read. MatchResult read
        (λ steps. Ends language words.now × (steps.items ≡ trace start 0 words.now))
        (StopsAt language words.now)) }
{
    let mut parts = Vec::new(alloc);
    let mut steps = Vec::new(alloc);
    expect(
        &mut parts,
        &[
            StackSymbol::Declarations,
            StackSymbol::OneUnit,
            StackSymbol::MoreUnits,
        ],
    )?;
    for (place, word) in words.iter().enumerate() {
        let place = place as u32;
        if !match_word(language, &mut parts, &mut steps, place, *word)? {
            return Ok(Err(place));
        }
    }
    if !is_ended(&parts) {
        return Ok(Err(words.len() as u32));
    }
    skip_all(&mut parts, &mut steps)?;
    Ok(Ok(steps))
}

/// Reads the words as a program of the language. The steps of an `Ok` are those of the one program phrase that has
/// these words, in order.
///
/// # Errors
///
/// `Syntax` where the words are no program of the language, with the length of the longest prefix that begins one;
/// `Memory` where an allocation fails.
pub fn parse(alloc: Global, language: Language, words: &[Word]) -> Result<Vec<Step>, ParseFault>
    requires { length words.now < 2 ^ 32 }
    // What is read are the steps of a program with these words.
    ensures steps { (terms : List Term) → classes terms ≡ words.now
        → IfOk result (λ steps. IsReading language terms steps.items) }
    // A refusal says where the words stop to begin a program.
    ensures fault { (terms : List Term) → classes terms ≡ words.now
        → IfErr result (IsSyntaxFault language terms) }
    // A program is read, and no other program has its words.
    ensures complete { (terms : List Term) (p : ProgramPhrase) → classes terms ≡ words.now
        → Spells language p terms
        → MatchResult result (λ steps. AreSteps p steps.items) (λ fault. fault ≡ ParseFault.Memory) }
{
    match run_machine(alloc, language, words) {
        Ok(Ok(steps)) => Ok(steps),
        Ok(Err(place)) => Err(ParseFault::Syntax { place }),
        Err(_) => Err(ParseFault::Memory),
    }
}
