//! The names of a program: the first one that is declared twice, not at all or as something else, or the first empty
//! domain.
ghost use Rattle.std.specs.Prelude.{◌≡◌, IfErr, IfOk, None, OnOk, [], map};
ghost use Rattle.program_grammar.specs.Phrases.{ProgramPhrase};
ghost use Rattle.program_grammar.specs.Programs.{Spells};
ghost use Rattle.program_grammar.specs.Reading.{AreSteps};
ghost use Rattle.program_grammar.specs.declared.words.Language.{Language};
ghost use Rattle.tdcc_reader.specs.declared.fault.ReadFault as ReadFault;
ghost use Rattle.tdcc_reader.specs.NamingPass.{resolves_declaration, known_view, resolves_skipped, resolves_scope_end, naming_state, names_view, naming_pass, note, resolves_fixed, resolves_high, resolves_low, resolves_name, resolves_matched, resolves_number, uses_name, with_bound, without_bound};
ghost use Rattle.tdcc_reader.specs.Passes.{over_steps};
ghost use Rattle.tdcc_reader.specs.Refusals.{RefusesNames};
ghost use Rattle.tdcc_reader.specs.Scope.{any_use, double_fault, kind_in_scope, number_fault, program_fault, signal_fault, unknown_fault};
ghost use Rattle.tdcc_reader.specs.TermViews.{term_view};

use crate::fault::ReadFault;
use crate::scope::Scope;
use crate::terms::{Term, term_at};
use program_grammar::{StackSymbol, Step, places_law};
use std::alloc::{AllocError, Global};
use token_system::Kind;

/// What is wrong with a name, at its lexeme, or with a domain, at its least number.
#[derive(Clone, Copy, Debug, PartialEq, Eq)]
pub(crate) enum NameFault {
    DoubleName(u32),
    EmptyDomain(u32),
    UnknownName(u32),
    WrongKind(u32),
}

/// What a later lexeme decides.
#[derive(Clone, Copy, Debug, PartialEq, Eq)]
enum Waiting {
    Nothing,
    /// A name that stands as a token, at its lexeme, with the kind of its cell where it is in scope.
    Name(Option<Kind>, u32),
    /// The least number of a domain, at its lexeme.
    Low(i64, u32),
}

/// How far the names are looked at.
#[derive(Debug, Drop)]
struct Naming<'a> {
    scope: Scope<'a, Kind>,
    waiting: Waiting,
    found: Option<NameFault>,
}

/// The kind of a name's cell, where it is in scope.
fn kind_of<'a>(scope: &Scope<'a, Kind>, name: &'a [u8]) -> Option<Kind>
    ensures { result ≡ kind_in_scope (map known_view scope.now) name.now }
{
    scope.meaning(name)
}

/// A use of a name that is not in scope.
fn unknown(kind: Option<Kind>, lexeme: u32) -> Option<NameFault>
    ensures { result ≡ unknown_fault kind lexeme }
{
    match kind {
        Some(_) => None,
        None => Some(NameFault::UnknownName(lexeme)),
    }
}

/// A use of a number's name as that of a signal.
fn no_signal(kind: Option<Kind>, lexeme: u32) -> Option<NameFault>
    ensures { result ≡ signal_fault kind lexeme }
{
    match kind {
        Some(Kind::Number) => Some(NameFault::WrongKind(lexeme)),
        _ => None,
    }
}

/// A use of a signal's name as that of a number.
fn no_number(kind: Option<Kind>, lexeme: u32) -> Option<NameFault>
    ensures { result ≡ number_fault kind lexeme }
{
    match kind {
        Some(Kind::Signal) => Some(NameFault::WrongKind(lexeme)),
        _ => None,
    }
}

impl<'a> Naming<'a> {
    /// Keeps the fault, where none was found before.
    fn note(&mut self, fault: Option<NameFault>)
        ensures { names_view self.new ≡ note fault (names_view self.old) }
    {
        if self.found.is_none() {
            self.found = fault;
        }
    }

    fn use_name(&mut self, lexeme: u32, name: &'a [u8])
        ensures { names_view self.new ≡ uses_name lexeme name.now (names_view self.old) }
    {
        let kind = kind_of(&self.scope, name);
        self.note(unknown(kind, lexeme));
        self.waiting = Waiting::Name(kind, lexeme);
    }

    fn deny_name(&mut self, lexeme: u32, name: &'a [u8])
        ensures { names_view self.new ≡ resolves_name lexeme StackSymbol.DeniedName name.now (names_view self.old) }
    {
        let kind = kind_of(&self.scope, name);
        self.note(unknown(kind, lexeme).or(no_signal(kind, lexeme)));
    }

    fn clash_name(&mut self, lexeme: u32, name: &'a [u8])
        ensures { names_view self.new ≡ resolves_name lexeme StackSymbol.ClashingName name.now (names_view self.old) }
    {
        let kind = kind_of(&self.scope, name);
        self.note(unknown(kind, lexeme));
    }

    fn without_bound(&mut self)
        ensures { names_view self.new ≡ without_bound self.old.waiting (names_view self.old) }
    {
        if let Waiting::Name(kind, lexeme) = self.waiting {
            self.note(no_signal(kind, lexeme));
            self.waiting = Waiting::Nothing;
        }
    }

    fn with_bound(&mut self)
        ensures { names_view self.new ≡ with_bound self.old.waiting (names_view self.old) }
    {
        if let Waiting::Name(kind, lexeme) = self.waiting {
            self.note(no_number(kind, lexeme));
            self.waiting = Waiting::Nothing;
        }
    }

    fn declare(&mut self, kind: Kind, lexeme: u32, name: &'a [u8]) -> Result<(), AllocError>
        ensures { OnOk result (names_view self.new ≡ resolves_declaration kind lexeme name.now (names_view self.old)) }
    {
        if kind_of(&self.scope, name).is_some() {
            self.note(Some(NameFault::DoubleName(lexeme)));
        }
        self.scope.enter(name, kind)?;
        Ok(())
    }

    fn match_low(&mut self, lexeme: u32, value: i64)
        ensures { names_view self.new ≡ resolves_low lexeme value (names_view self.old) }
    {
        self.waiting = Waiting::Low(value, lexeme);
    }

    fn match_high(&mut self, high: i64)
        ensures { names_view self.new ≡ resolves_high self.old.waiting high (names_view self.old) }
    {
        if let Waiting::Low(low, lexeme) = self.waiting {
            if high < low {
                self.note(Some(NameFault::EmptyDomain(lexeme)));
            }
            self.waiting = Waiting::Nothing;
        }
    }

    fn skip_scope(&mut self)
        ensures { names_view self.new ≡ resolves_scope_end (names_view self.old) }
    {
        self.scope.leave();
    }

    fn match_name(
        &mut self,
        lexeme: u32,
        part: StackSymbol,
        name: &'a [u8],
    ) -> Result<(), AllocError>
        ensures { OnOk result (names_view self.new ≡ resolves_name lexeme part name.now (names_view self.old)) }
    {
        match part {
            StackSymbol::OneUnit | StackSymbol::OneToken => self.use_name(lexeme, name),
            StackSymbol::DeniedName => self.deny_name(lexeme, name),
            StackSymbol::ClashingName => self.clash_name(lexeme, name),
            StackSymbol::DeclaredName | StackSymbol::LocalName => self.declare(
                Kind::Signal,
                lexeme,
                name,
            )?,
            StackSymbol::DeclaredIntName | StackSymbol::LocalIntName => {
                self.declare(Kind::Number, lexeme, name)?;
            }
            _ => {}
        }
        Ok(())
    }

    fn match_number(&mut self, lexeme: u32, part: StackSymbol, value: i64)
        ensures { names_view self.new ≡ resolves_number lexeme part value (names_view self.old) }
    {
        match part {
            StackSymbol::LowNumber => self.match_low(lexeme, value),
            StackSymbol::HighNumber => self.match_high(value),
            _ => {}
        }
    }

    fn match_fixed(&mut self, part: StackSymbol)
        ensures { names_view self.new ≡ resolves_fixed part (names_view self.old) }
    {
        if let StackSymbol::Bound = part {
            self.with_bound();
        }
    }

    fn take(&mut self, lexeme: u32, part: StackSymbol, term: Term<'a>) -> Result<(), AllocError>
        ensures { OnOk result (names_view self.new ≡ resolves_matched lexeme part (term_view term.entry) (names_view self.old)) }
    {
        match term {
            Term::Name(name) => self.match_name(lexeme, part, name)?,
            Term::Number(value) => self.match_number(lexeme, part, value),
            Term::Keyword(_) => self.match_fixed(part),
            Term::Symbol(_) => self.match_fixed(part),
        }
        Ok(())
    }

    fn leave(&mut self, part: StackSymbol)
        ensures { names_view self.new ≡ resolves_skipped part (names_view self.old) }
    {
        match part {
            StackSymbol::Bound => self.without_bound(),
            StackSymbol::EndLocal => self.skip_scope(),
            _ => {}
        }
    }
}

/// The first fault of the names.
fn first_fault(
    alloc: Global,
    terms: &[Term<'_>],
    steps: &[Step],
) -> Result<Option<NameFault>, AllocError>
    ensures { IfOk result (λ found. found ≡ (over_steps naming_pass (map term_view terms.now) steps.now (naming_state [] Waiting.Nothing None)).found) }
{
    let mut naming = Naming {
        scope: Scope::new(alloc),
        waiting: Waiting::Nothing,
        found: None,
    };
    for step in steps {
        match *step {
            Step::Matched(part, place) => naming.take(place, part, term_at(terms, place))?,
            Step::Skipped(part) => naming.leave(part),
        }
    }
    Ok(naming.found)
}

/// The first fault of the names of the program of these terms and steps.
fn name_fault(
    alloc: Global,
    terms: &[Term<'_>],
    steps: &[Step],
) -> Result<Option<NameFault>, AllocError>
    ensures { (language : Language) (p : ProgramPhrase) → Spells language p (map term_view terms.now) → AreSteps p steps.now
        → IfOk result (λ found. found ≡ program_fault p) }
{
    places_law();
    first_fault(alloc, terms, steps)
}

/// Looks whether the names of the program of these terms and steps have no fault.
pub(crate) fn check_names(
    alloc: Global,
    terms: &[Term<'_>],
    steps: &[Step],
) -> Result<(), ReadFault>
    ensures kept { (language : Language) (p : ProgramPhrase) → Spells language p (map term_view terms.now) → AreSteps p steps.now
        → IfOk result (λ _. program_fault p ≡ None) }
    ensures fault { (language : Language) (p : ProgramPhrase) → Spells language p (map term_view terms.now) → AreSteps p steps.now
        → IfErr result (RefusesNames p) }
    ensures complete { (language : Language) (p : ProgramPhrase) → Spells language p (map term_view terms.now) → AreSteps p steps.now
        → program_fault p ≡ None → IfErr result (λ fault. fault ≡ ReadFault.Memory) }
{
    match name_fault(alloc, terms, steps) {
        Ok(None) => Ok(()),
        Ok(Some(NameFault::DoubleName(lexeme))) => Err(ReadFault::DoubleName { lexeme }),
        Ok(Some(NameFault::EmptyDomain(lexeme))) => Err(ReadFault::EmptyDomain { lexeme }),
        Ok(Some(NameFault::UnknownName(lexeme))) => Err(ReadFault::UnknownName { lexeme }),
        Ok(Some(NameFault::WrongKind(lexeme))) => Err(ReadFault::WrongKind { lexeme }),
        Err(_) => Err(ReadFault::Memory),
    }
}
