//! Evaluating asks one by one, and counting how often it is done.
ghost use Rattle.std.specs.Prelude.{◌≡◌, ◌+◌, ◌<◌, length, slice_get};
ghost use Rattle.instant_net.specs.NamedLeaves.{named_entails};
ghost use Rattle.instant_net.specs.Nets.{named_atoms};
ghost use Rattle.instant_net.specs.Readers.{guard_ask_of};
ghost use Rattle.instant_net.specs.Words.{store_in, AreWords};

use crate::net::Net;
use crate::words::{Words, holds};
use std::marker::Model;
use std::sync::ledger::{Blank, Book, Ledger, Share};

/// How many asks were evaluated. It takes no bytes, and only `ask_holds` changes it.
#[derive(Drop)]
pub struct Steps<L: Ledger> {
    book: Book<L>,
    share: Share<L>,
}

impl<L: Ledger> Model for Steps<L> {
    ghost use Rattle.std.specs.Prelude.{ℕ, ◌<◌};

    ghost Value = { ℕ };

    ghost view = { λ s. s.book.total };

    ghost invariant = { λ s. 0 < s.share.parts };
}

impl<L: Ledger> Steps<L> {
    /// No steps yet.
    pub fn none(blank: Blank) -> Steps<L>
        requires name { blank.name ≡ L.name }
        requires parts { blank.parts ≡ L.parts }
        requires some { 0 < blank.parts }
        ensures { result ≡ 0 }
    {
        let (book, share) = blank.open::<L>();
        Steps { book, share }
    }

    /// One step more.
    fn tick(&mut self)
        ensures { self.new ≡ self.old + 1 }
    {
        self.book.add(&mut self.share, 1);
    }
}

/// Whether the words entail each token that the guard asks for. This is one step.
pub fn ask_holds<L: Ledger>(net: &Net, words: &Words, guard: u32, steps: &mut Steps<L>) -> bool
    requires guard { guard < length net.now.guards }
    requires words { AreWords net.now.cells words.now }
    ensures held { result ≡ named_entails (store_in net.now.cells words.now) (named_atoms net.now.cells (guard_ask_of (slice_get net.now.guards guard))) }
    ensures step { steps.new ≡ steps.old + 1 }
{
    steps.tick();
    holds(net, words, guard)
}
