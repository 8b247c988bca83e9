//! What is kept of a run from instant to instant.
ghost use Rattle.std.specs.Prelude.{◌≡◌, ◌∷◌, ◌++◌, ◌<◌, [], List, length, if◌then◌else◌, is_ok, IfOk, OnErr, OnOk};
ghost use Rattle.token_system.specs.Stores.{StoreMap};
ghost use Rattle.agent_core.specs.Closures.{closure};
ghost use Rattle.agent_core.specs.Limits.{most_instants};
ghost use Rattle.agent_core.specs.Stores.{IsInput};
ghost use Rattle.agent_core.specs.Strata.{Stratifies};
ghost use Rattle.instant_net.specs.Opened.{IsNetOf};
ghost use Rattle.instant_net.specs.Outputs.{IsNetOutput};
ghost use Rattle.instant_net.specs.Words.{store_in, AreWords};
ghost use Rattle.residuals.specs.RootLists.{listed_roots};
ghost use Rattle.run_book.specs.Books.{IsBook, HasClosedInstant, KeepsRun};

use agent_core::{Levels, Program};
use instant_net::{Net, Words, declared_store, net_outputs_law};
use residuals::{Roots, first_roots, next_roots};
use std::alloc::Global;
use std::marker::Model;
use token_system::{Memory, Store};

/// The book of a program's run so far.
#[derive(Debug, Drop)]
pub struct Book {
    program: Program,
    levels: Levels,
    entries: Entries,
}

/// What each closed instant adds to, and the roots of the next.
#[derive(Debug, Drop)]
struct Entries {
    ins: Vec<Store>,
    outs: Vec<Store>,
    roots: Roots,
}

impl Model for Book {
    ghost use Rattle.run_book.specs.Books.{BookView, IsBook};
    ghost use Rattle.run_book.specs.Codes.{book_code};

    ghost Value = { BookView };

    ghost coded = { book_code };

    ghost view = { λ b. record { program = b.program; levels = b.levels; ins = b.entries.ins.items; outs = b.entries.outs.items; roots = b.entries.roots } };

    ghost invariant = { λ b. IsBook (record { program = b.program; levels = b.levels; ins = b.entries.ins.items; outs = b.entries.outs.items; roots = b.entries.roots }) };
}

impl Book {
    /// The book of a run of which no instant is closed yet. The levels stratify the program.
    pub fn open(alloc: Global, program: Program, levels: Levels) -> Result<Book, Memory>
        requires stratified { Stratifies program levels }
        ensures opened { IfOk result (λ b. b ≡ record { program = program; levels = levels; ins = []; outs = []; roots = record { once = closure 0 [] ∷ []; stay = [] } }) }
        ensures keeps { IfOk result (λ b. KeepsRun b []) }
    {
        // For what this call says of the program: it is well formed.
        let _ = program.declared();
        let entries = Entries {
            ins: Vec::new(alloc),
            outs: Vec::new(alloc),
            roots: first_roots(alloc)?,
        };
        Ok(Book {
            program,
            levels,
            entries,
        })
    }

    /// The program that runs.
    pub fn program(&self) -> &Program
        ensures program { result.now ≡ self.now.program }
        ensures book { IsBook self.now }
    {
        &self.program
    }

    /// The table that stratifies it.
    pub fn levels(&self) -> &Levels
        ensures levels { result.now ≡ self.now.levels }
        ensures book { IsBook self.now }
    {
        &self.levels
    }

    /// The roots of the instant after those that are closed.
    pub fn roots(&self) -> &Roots
        ensures { result.now ≡ self.now.roots }
    {
        &self.entries.roots
    }

    /// How many instants are closed.
    pub fn instants(&self) -> u32
        ensures { result ≡ length self.now.ins }
    {
        self.entries.ins.len() as u32
    }

    /// What the outputs of the closed instants say of declared cells, instant by instant.
    pub fn outs(&self) -> &[Store]
        ensures outs { result.now ≡ self.now.outs }
        ensures book { IsBook self.now }
    {
        self.entries.outs.as_slice()
    }

    /// Closes one more instant: that of the net of the book's roots, with this input and the words of its output. A book
    /// for which memory was short stays as it was.
    pub fn close(
        &mut self,
        alloc: Global,
        net: &Net,
        input: Store,
        words: &Words,
    ) -> Result<(), Memory>
        requires room { length self.old.ins < most_instants }
        requires net { IsNetOf self.old.program self.old.levels (listed_roots self.old.roots) (length self.old.ins) net.now }
        requires input { IsInput self.old.program input }
        requires words { AreWords net.now.cells words.now }
        requires output { IsNetOutput net.now input (store_in net.now.cells words.now) }
        ensures closed { OnOk result (HasClosedInstant self.old self.new input (store_in net.now.cells words.now)) }
        ensures keeps { OnOk result ((full : List StoreMap) → KeepsRun self.old full → KeepsRun self.new (full ++ store_in net.now.cells words.now ∷ [])) }
        ensures unchanged { OnErr result (self.new ≡ self.old) }
    {
        net_outputs_law();
        let next = next_roots(alloc, net, &self.entries.roots, words)?;
        let declared = self.program.declared();
        let out = declared_store(alloc, net, words, declared)?;
        self.entries.push(input, out, next)?;
        Ok(())
    }
}

impl Entries {
    /// Adds an instant, and replaces the roots. Where memory is short, all stays as it was.
    fn push(&mut self, input: Store, out: Store, next: Roots) -> Result<(), Memory>
        ensures ins { self.new.ins.items ≡ (if is_ok result then self.old.ins.items ++ input ∷ [] else self.old.ins.items) }
        ensures outs { self.new.outs.items ≡ (if is_ok result then self.old.outs.items ++ out ∷ [] else self.old.outs.items) }
        ensures roots { self.new.roots ≡ (if is_ok result then next else self.old.roots) }
    {
        self.ins.reserve(1)?;
        self.outs.reserve(1)?;
        self.ins.push(input)?;
        self.outs.push(out)?;
        self.roots = next;
        Ok(())
    }
}
