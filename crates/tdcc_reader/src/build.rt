//! The flat forms of a program, from its steps.
ghost use Rattle.std.specs.Prelude.{◌≡◌, ◌∷◌, ◌≤◌, [], IfOk, OnOk, length, map};
ghost use Rattle.program_grammar.specs.Phrases.{ProgramPhrase};
ghost use Rattle.program_grammar.specs.Programs.{Spells};
ghost use Rattle.program_grammar.specs.Reading.{AreSteps};
ghost use Rattle.program_grammar.specs.declared.words.Language.{Language};
ghost use Rattle.token_system.specs.declared.cell.Token.TheVariants as Token;
ghost use Rattle.tdcc_reader.specs.BuildPass.{Subject, asks, asks_waiting, begins, build_pass, built_view, counts_declared, builds_declaration, declares_number, declares_signal, ends, builds_skipped, builds_scope_end, next_cell, next_unit, nothing_built, puts, puts_asked, scoped_view, builds_branch, builds_matched, builds_low, builds_name, builds_number, builds_unit, builds_word, waits_for, waits_view, wraps};
ghost use Rattle.tdcc_reader.specs.Builds.{IsBuilt};
ghost use Rattle.tdcc_reader.specs.Passes.{over_steps};
ghost use Rattle.tdcc_reader.specs.Surfaces.{cell_in_scope, cell_view, declared_as, declared_number, program_cells};
ghost use Rattle.tdcc_reader.specs.TermViews.{term_view};
ghost use Rattle.tdcc_reader.specs.declared.flat_form.FlatFormKind as FlatFormKind;

use crate::cells::{number_cell, signal_cell};
use crate::flat_form::{FlatForm, FlatFormKind};
use crate::insertions::Insertions;
use crate::scope::Scope;
use crate::terms::{Term, term_at};
use agent_core::{CellDecl, Name};
use program_grammar::{StackSymbol, Step, Word, places_law};
use std::alloc::{AllocError, Global};
use std::mem;
use token_system::{Cell, Token};

/// What a later lexeme completes.
#[derive(Clone, Copy, Debug, PartialEq, Eq)]
enum Held<'a> {
    Nothing,
    /// The cell of a token.
    Subject(u32),
    /// The name of a number.
    Item(&'a [u8]),
    /// The name of a number, and its least value.
    Low(&'a [u8], i64),
}

/// A program in the making.
#[derive(Debug, Drop)]
pub(crate) struct Builder<'a> {
    pub(crate) insertions: Insertions,
    /// The tokens of the constraint at hand.
    ask: Vec<(u32, Token)>,
    scope: Scope<'a, u32>,
    pub(crate) cells: Vec<CellDecl>,
    held: Held<'a>,
    pub(crate) declared: usize,
}

/// The cell of a name in scope.
fn cell_of<'a>(scope: &Scope<'a, u32>, name: &'a [u8]) -> u32
    ensures { result ≡ cell_in_scope (map scoped_view scope.now) name.now }
{
    scope.meaning(name).unwrap_or(0)
}

impl<'a> Builder<'a> {
    fn put(&mut self, alloc: Global, kind: FlatFormKind) -> Result<(), AllocError>
        ensures { OnOk result (built_view self.new ≡ puts kind (built_view self.old)) }
    {
        self.insertions.put(FlatForm {
            kind,
            ask: Vec::new(alloc),
        })
    }

    fn put_asked(&mut self, alloc: Global, kind: FlatFormKind) -> Result<(), AllocError>
        ensures { OnOk result (built_view self.new ≡ puts_asked kind (built_view self.old)) }
    {
        let ask = mem::replace(&mut self.ask, Vec::new(alloc));
        self.insertions.put(FlatForm { kind, ask })
    }

    fn ask(&mut self, cell: u32, token: Token) -> Result<(), AllocError>
        ensures { OnOk result (built_view self.new ≡ asks cell token (built_view self.old)) }
    {
        self.ask.push((cell, token))?;
        Ok(())
    }

    /// Asks the token of the cell that waits.
    fn ask_held(&mut self, token: Token) -> Result<(), AllocError>
        ensures { OnOk result (built_view self.new ≡ asks_waiting (waits_view self.old.held) (token ∷ []) (built_view self.old)) }
    {
        if let Held::Subject(cell) = self.held {
            self.ask.push((cell, token))?;
            self.held = Held::Nothing;
        }
        Ok(())
    }

    /// Asks both tokens of the cell that waits.
    fn ask_exactly(&mut self, number: i64) -> Result<(), AllocError>
        ensures { OnOk result (built_view self.new ≡ asks_waiting (waits_view self.old.held)
            (Token.AtLeast number ∷ Token.AtMost number ∷ []) (built_view self.old)) }
    {
        if let Held::Subject(cell) = self.held {
            self.ask.push((cell, Token::AtLeast(number)))?;
            self.ask.push((cell, Token::AtMost(number)))?;
            self.held = Held::Nothing;
        }
        Ok(())
    }

    fn begin(&mut self) -> Result<(), AllocError>
        ensures { OnOk result (built_view self.new ≡ begins (built_view self.old)) }
    {
        self.insertions.begin()
    }

    fn end(&mut self)
        ensures { built_view self.new ≡ ends (built_view self.old) }
    {
        self.insertions.end();
    }

    fn next_unit(&mut self, alloc: Global) -> Result<(), AllocError>
        ensures { OnOk result (built_view self.new ≡ next_unit (built_view self.old)) }
    {
        self.insertions.next_unit(alloc)
    }

    fn wrap(&mut self, alloc: Global, kind: FlatFormKind) -> Result<(), AllocError>
        ensures { OnOk result (built_view self.new ≡ wraps kind (built_view self.old)) }
    {
        let ask = mem::replace(&mut self.ask, Vec::new(alloc));
        self.insertions.wrap(FlatForm { kind, ask })
    }

    /// The number of the next cell.
    fn next_cell(&self) -> u32
        ensures { result ≡ next_cell (map cell_view self.now.cells.items) }
    {
        u32::try_from(self.cells.len()).unwrap_or(u32::MAX)
    }

    fn declare(&mut self, alloc: Global, name: &'a [u8], cell: Cell) -> Result<(), AllocError>
        ensures { OnOk result (built_view self.new ≡ builds_declaration name.now (declared_as name.now cell) (built_view self.old)) }
    {
        let number = self.next_cell();
        self.scope.enter(name, number)?;
        self.cells.push(CellDecl {
            name: Name::make(name.to_vec(alloc)?),
            cell,
        })?;
        Ok(())
    }

    fn declare_signal(&mut self, alloc: Global, name: &'a [u8]) -> Result<(), AllocError>
        ensures { OnOk result (built_view self.new ≡ declares_signal name.now (built_view self.old)) }
    {
        self.declare(alloc, name, signal_cell())?;
        Ok(())
    }

    fn declare_number(
        &mut self,
        alloc: Global,
        name: &'a [u8],
        low: i64,
        high: i64,
    ) -> Result<(), AllocError>
        ensures { OnOk result (built_view self.new ≡ builds_declaration name.now (declared_number name.now low high) (built_view self.old)) }
    {
        self.declare(alloc, name, number_cell(low, high))?;
        Ok(())
    }

    fn match_low(&mut self, low: i64)
        ensures { built_view self.new ≡ builds_low (waits_view self.old.held) low (built_view self.old) }
    {
        if let Held::Item(name) = self.held {
            self.held = Held::Low(name, low);
        }
    }

    fn match_high(&mut self, alloc: Global, high: i64) -> Result<(), AllocError>
        ensures { OnOk result (built_view self.new ≡ declares_number (waits_view self.old.held) high (built_view self.old)) }
    {
        if let Held::Low(name, low) = self.held {
            self.declare_number(alloc, name, low, high)?;
            self.held = Held::Nothing;
        }
        Ok(())
    }

    fn skip_scope(&mut self)
        ensures { built_view self.new ≡ builds_scope_end (built_view self.old) }
    {
        self.scope.leave();
    }

    fn hold(&mut self, held: Held<'a>)
        ensures { built_view self.new ≡ waits_for (waits_view held.entry) (built_view self.old) }
    {
        self.held = held;
    }

    fn hold_subject(&mut self, name: &'a [u8])
        ensures { built_view self.new ≡ builds_name StackSymbol.OneToken name.now (built_view self.old) }
    {
        let cell = cell_of(&self.scope, name);
        self.hold(Held::Subject(cell));
    }

    fn open_local(&mut self, alloc: Global) -> Result<(), AllocError>
        ensures { OnOk result (built_view self.new ≡ puts (FlatFormKind.New (next_cell (map cell_view self.old.cells.items))) (built_view self.old)) }
    {
        let cell = self.next_cell();
        self.put(alloc, FlatFormKind::New(cell))
    }

    fn match_name(
        &mut self,
        alloc: Global,
        part: StackSymbol,
        name: &'a [u8],
    ) -> Result<(), AllocError>
        ensures { OnOk result (built_view self.new ≡ builds_name part name.now (built_view self.old)) }
    {
        match part {
            StackSymbol::OneUnit | StackSymbol::OneToken => self.hold_subject(name),
            StackSymbol::DeniedName => {
                let cell = cell_of(&self.scope, name);
                self.ask(cell, Token::Off)?;
            }
            StackSymbol::ClashingName => {
                let cell = cell_of(&self.scope, name);
                self.ask(cell, Token::Clash)?;
            }
            StackSymbol::DeclaredName => self.declare_signal(alloc, name)?,
            StackSymbol::LocalName => {
                self.open_local(alloc)?;
                self.declare_signal(alloc, name)?;
            }
            StackSymbol::DeclaredIntName => self.hold(Held::Item(name)),
            StackSymbol::LocalIntName => {
                self.open_local(alloc)?;
                self.hold(Held::Item(name));
            }
            _ => {}
        }
        Ok(())
    }

    fn match_number(
        &mut self,
        alloc: Global,
        part: StackSymbol,
        number: i64,
    ) -> Result<(), AllocError>
        ensures { OnOk result (built_view self.new ≡ builds_number part number (built_view self.old)) }
    {
        match part {
            StackSymbol::LowNumber => {
                self.match_low(number);
                Ok(())
            }
            StackSymbol::HighNumber => self.match_high(alloc, number),
            StackSymbol::LeastNumber => self.ask_held(Token::AtLeast(number)),
            StackSymbol::MostNumber => self.ask_held(Token::AtMost(number)),
            StackSymbol::ExactNumber => self.ask_exactly(number),
            _ => Ok(()),
        }
    }

    fn match_unit(&mut self, alloc: Global, word: Word) -> Result<(), AllocError>
        ensures { OnOk result (built_view self.new ≡ builds_unit word (built_view self.old)) }
    {
        match word {
            Word::Skip => self.put(alloc, FlatFormKind::Skip),
            Word::OpenBrace => self.begin(),
            Word::Hence => self.put(alloc, FlatFormKind::Hence),
            Word::Next => self.put(alloc, FlatFormKind::Next),
            Word::Always => self.put(alloc, FlatFormKind::Always),
            Word::Do | Word::Time => {
                self.begin()?;
                self.begin()
            }
            _ => Ok(()),
        }
    }

    fn match_branch(&mut self, alloc: Global, word: Word) -> Result<(), AllocError>
        ensures { OnOk result (built_view self.new ≡ builds_branch word (built_view self.old)) }
    {
        match word {
            Word::Then => self.put_asked(alloc, FlatFormKind::Then),
            Word::Else => self.put_asked(alloc, FlatFormKind::Else),
            _ => Ok(()),
        }
    }

    fn match_word(&mut self, alloc: Global, part: StackSymbol, word: Word) -> Result<(), AllocError>
        ensures { OnOk result (built_view self.new ≡ builds_word part word (built_view self.old)) }
    {
        match part {
            StackSymbol::OneUnit => self.match_unit(alloc, word),
            StackSymbol::MoreUnits => self.next_unit(alloc),
            StackSymbol::Branch => self.match_branch(alloc, word),
            StackSymbol::TheDo => self.put_asked(alloc, FlatFormKind::When),
            _ => Ok(()),
        }
    }

    fn take(&mut self, alloc: Global, part: StackSymbol, term: Term<'a>) -> Result<(), AllocError>
        ensures { OnOk result (built_view self.new ≡ builds_matched part (term_view term.entry) (built_view self.old)) }
    {
        match term {
            Term::Name(name) => self.match_name(alloc, part, name),
            Term::Number(number) => self.match_number(alloc, part, number),
            Term::Keyword(_) => self.match_word(alloc, part, term.word()),
            Term::Symbol(_) => self.match_word(alloc, part, term.word()),
        }
    }

    fn leave(&mut self, alloc: Global, part: StackSymbol) -> Result<(), AllocError>
        ensures { OnOk result (built_view self.new ≡ builds_skipped part (built_view self.old)) }
    {
        match part {
            StackSymbol::Declarations => self.declared = self.cells.len(),
            StackSymbol::MoreUnits => self.end(),
            StackSymbol::Bound => self.ask_held(Token::On)?,
            StackSymbol::EndTell => self.put_asked(alloc, FlatFormKind::Tell)?,
            StackSymbol::EndLocal => self.skip_scope(),
            StackSymbol::EndWatch => self.wrap(alloc, FlatFormKind::Watch)?,
            StackSymbol::EndTimed => self.wrap(alloc, FlatFormKind::Time)?,
            _ => {}
        }
        Ok(())
    }
}

/// What is built from the steps.
fn build_steps<'a>(
    alloc: Global,
    terms: &[Term<'a>],
    steps: &[Step],
) -> Result<Builder<'a>, AllocError>
    ensures { IfOk result (λ b. built_view b ≡ over_steps build_pass (map term_view terms.now) steps.now nothing_built) }
{
    let mut builder = Builder {
        insertions: Insertions::new(alloc)?,
        ask: Vec::new(alloc),
        scope: Scope::new(alloc),
        cells: Vec::new(alloc),
        held: Held::Nothing,
        declared: 0,
    };
    for step in steps {
        match *step {
            Step::Matched(part, place) => builder.take(alloc, part, term_at(terms, place))?,
            Step::Skipped(part) => builder.leave(alloc, part)?,
        }
    }
    Ok(builder)
}

/// What is built from the program of these terms and steps.
pub(crate) fn build<'a>(
    alloc: Global,
    terms: &[Term<'a>],
    steps: &[Step],
) -> Result<Builder<'a>, AllocError>
    ensures { (language : Language) (p : ProgramPhrase) → Spells language p (map term_view terms.now) → AreSteps p steps.now
        → length (program_cells p) ≤ 4294967295
        → IfOk result (λ b. IsBuilt p (built_view b)) }
{
    places_law();
    build_steps(alloc, terms, steps)
}
