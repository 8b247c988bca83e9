//! The limits of a program of a dialect: the first unit that is too deep, or the first token that is one too many.
ghost use Rattle.std.specs.Prelude.{◌≡◌, ◌<◌, ◌^◌, IfErr, IfOk, IsOk, None, if◌then◌else◌, map};
ghost use Rattle.program_grammar.specs.Phrases.{ProgramPhrase};
ghost use Rattle.program_grammar.specs.Programs.{Spells};
ghost use Rattle.program_grammar.specs.Reading.{AreSteps};
ghost use Rattle.program_grammar.specs.declared.words.Language.{Language};
ghost use Rattle.tdcc_reader.specs.LimitPass.{deeper, higher, counts_skipped, limit_pass, limits, no_tokens, counts_bound, counts_equation, counts_matched, counts_unit, token_begins, unit_begins};
ghost use Rattle.tdcc_reader.specs.LimitFaults.{first, program_limit};
ghost use Rattle.tdcc_reader.specs.Passes.{over_steps};
ghost use Rattle.tdcc_reader.specs.Refusals.{RefusesLimits};
ghost use Rattle.tdcc_reader.specs.TermViews.{term_view};

use crate::dialect::Dialect;
use crate::fault::ReadFault;
use crate::terms::{Term, word_at};
use program_grammar::{StackSymbol, Step, Word, places_law};

/// What went past a limit.
#[derive(Clone, Copy, Debug, PartialEq, Eq)]
pub(crate) enum Limit {
    /// With this lexeme begins a unit that is too deep.
    TooDeep(u32),
    /// With this lexeme begins a token that is one too many.
    TooManyTokens(u32),
}

/// How far the limits are looked at.
#[derive(Clone, Copy, Debug, PartialEq, Eq)]
struct Limits {
    /// How many units are around.
    depth: usize,
    /// How many tokens the constraint at hand has so far.
    tokens: usize,
    /// What went past a limit first.
    found: Option<Limit>,
}

impl Limits {
    /// What was found before, or else this.
    fn or_found(self, past: bool, limit: Limit) -> Option<Limit>
        ensures { result ≡ first self.found (if past then Some limit else None) }
    {
        if self.found.is_none() && past {
            Some(limit)
        } else {
            self.found
        }
    }

    fn unit_begins(self, dialect: Dialect, lexeme: u32) -> Limits
        requires { self.depth < 2 ^ 63 }
        ensures { result ≡ unit_begins dialect lexeme self }
    {
        let past = dialect.max_depth() < self.depth + 1;
        Limits {
            found: self.or_found(past, Limit::TooDeep(lexeme)),
            ..self
        }
    }

    fn token_begins(self, dialect: Dialect, lexeme: u32) -> Limits
        requires { self.tokens < 2 ^ 63 }
        ensures { result ≡ token_begins dialect lexeme self }
    {
        let past = dialect.max_tokens() < self.tokens + 1;
        Limits {
            tokens: self.tokens + 1,
            found: self.or_found(past, Limit::TooManyTokens(lexeme)),
            ..self
        }
    }

    fn deeper(self) -> Limits
        requires { self.depth < 2 ^ 63 }
        ensures { result ≡ deeper self }
    {
        Limits {
            depth: self.depth + 1,
            ..self
        }
    }

    fn higher(self) -> Limits
        ensures { result ≡ higher self }
    {
        Limits {
            depth: self.depth.saturating_sub(1),
            ..self
        }
    }

    fn no_tokens(self) -> Limits
        ensures { result ≡ no_tokens self }
    {
        Limits { tokens: 0, ..self }
    }

    fn match_unit(self, dialect: Dialect, lexeme: u32, word: Word) -> Limits
        requires depth { self.depth < 2 ^ 63 }
        requires tokens { self.tokens < 2 ^ 63 }
        ensures { result ≡ counts_unit dialect lexeme word self }
    {
        let begun = self.unit_begins(dialect, lexeme);
        match word {
            Word::Skip => begun,
            Word::Name | Word::Bang | Word::Hash => begun.token_begins(dialect, lexeme),
            _ => begun.deeper(),
        }
    }

    /// An equation, which in a core text is a second token. It begins with the name in front.
    fn match_equation(self, dialect: Dialect, lexeme: u32) -> Limits
        requires { self.tokens < 2 ^ 63 }
        ensures { result ≡ counts_equation dialect lexeme self }
    {
        match dialect {
            Dialect::Program => self,
            Dialect::Core => self.token_begins(dialect, lexeme.saturating_sub(1)),
        }
    }

    fn match_bound(self, dialect: Dialect, lexeme: u32, word: Word) -> Limits
        requires { self.tokens < 2 ^ 63 }
        ensures { result ≡ counts_bound dialect lexeme word self }
    {
        match word {
            Word::Equal => self.match_equation(dialect, lexeme),
            _ => self,
        }
    }

    fn take(self, dialect: Dialect, lexeme: u32, part: StackSymbol, word: Word) -> Limits
        requires depth { self.depth < 2 ^ 63 }
        requires tokens { self.tokens < 2 ^ 63 }
        ensures { result ≡ counts_matched dialect lexeme part word self }
    {
        match part {
            StackSymbol::OneUnit => self.match_unit(dialect, lexeme, word),
            StackSymbol::OneToken => self.token_begins(dialect, lexeme),
            StackSymbol::Bound => self.match_bound(dialect, lexeme, word),
            StackSymbol::TheClose | StackSymbol::TheWatching | StackSymbol::TheOn => self.higher(),
            _ => self,
        }
    }

    fn leave(self, part: StackSymbol) -> Limits
        ensures { result ≡ counts_skipped part self }
    {
        match part {
            StackSymbol::MoreTokens => self.no_tokens(),
            StackSymbol::EndBody | StackSymbol::EndLocal => self.higher(),
            _ => self,
        }
    }
}

/// What the steps go past first.
fn first_limit(dialect: Dialect, terms: &[Term<'_>], steps: &[Step]) -> Option<Limit>
    ensures { result ≡ (over_steps (limit_pass dialect) (map term_view terms.now) steps.now (limits 0 0 None)).found }
{
    let mut limits = Limits {
        depth: 0,
        tokens: 0,
        found: None,
    };
    for step in steps {
        limits = match *step {
            Step::Matched(part, place) => limits.take(dialect, place, part, word_at(terms, place)),
            Step::Skipped(part) => limits.leave(part),
        };
    }
    limits.found
}

/// What the program of these terms and steps goes past first.
fn past_limit(dialect: Dialect, terms: &[Term<'_>], steps: &[Step]) -> Option<Limit>
    ensures { (language : Language) (p : ProgramPhrase) → Spells language p (map term_view terms.now) → AreSteps p steps.now
        → result ≡ program_limit dialect p }
{
    places_law();
    first_limit(dialect, terms, steps)
}

/// Looks whether the program of these terms and steps keeps the limits.
pub(crate) fn check_limits(
    dialect: Dialect,
    terms: &[Term<'_>],
    steps: &[Step],
) -> Result<(), ReadFault>
    ensures kept { (language : Language) (p : ProgramPhrase) → Spells language p (map term_view terms.now) → AreSteps p steps.now
        → IfOk result (λ _. program_limit dialect p ≡ None) }
    ensures fault { (language : Language) (p : ProgramPhrase) → Spells language p (map term_view terms.now) → AreSteps p steps.now
        → IfErr result (RefusesLimits dialect p) }
    ensures complete { (language : Language) (p : ProgramPhrase) → Spells language p (map term_view terms.now) → AreSteps p steps.now
        → program_limit dialect p ≡ None → IsOk result }
{
    match past_limit(dialect, terms, steps) {
        None => Ok(()),
        Some(Limit::TooDeep(lexeme)) => Err(ReadFault::TooDeep { lexeme }),
        Some(Limit::TooManyTokens(lexeme)) => Err(ReadFault::TooManyTokens { lexeme }),
    }
}
