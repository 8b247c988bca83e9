//! The words in which what is told is kept.
ghost use Rattle.std.specs.Prelude.{◌≡◌, ◌<◌, IfOk, length, set, slice_get, slice_index, slice_index_or};
ghost use Rattle.instant_net.specs.Words.{empty_words, hows, lub as lub_of, tell_atoms, tell_word, AreWords, Lies, store_in};
ghost use Rattle.instant_net.specs.declared.words.How.TheVariants.{Or};
ghost use Rattle.instant_net.specs.Nets.{named_atoms};
ghost use Rattle.instant_net.specs.NamedLeaves.{tell_named};
ghost use Rattle.instant_net.specs.Readers.{leaf_tells_of};
ghost use Rattle.instant_net.specs.Seen.{join_words};

mod reading;
mod stores;

use crate::net::Net;
pub use reading::{has, holds, reaches, runs, value};
use std::alloc::Global;
use std::marker::Model;
pub(crate) use stores::untold;
pub use stores::{declared_store, open_words, words_store};
use token_system::Memory;

/// How what is told to a word changes it.
#[derive(Clone, Copy, Debug, PartialEq, Eq)]
pub enum How {
    /// Its bits are set.
    Or,
    /// It becomes the greater of itself and what is told.
    Max,
    /// It becomes the lesser of both.
    Min,
}

impl How {
    /// What the word becomes where the bits are told to it.
    pub fn lub(self, word: u64, bits: u64) -> u64
        ensures { result ≡ lub_of self word bits }
    {
        match self {
            How::Or => word | bits,
            How::Max => word.max(bits),
            How::Min => word.min(bits),
        }
    }
}

/// Where and how a token is told: the place of the word, how the word changes, and the bits that are told to it.
#[derive(Clone, Copy, Debug, PartialEq, Eq)]
pub struct Told {
    pub word: u32,
    pub how: How,
    pub bits: u64,
}

/// The words of a net's cells.
#[derive(Debug, Drop)]
pub struct Words {
    list: Vec<u64>,
}

impl Model for Words {
    ghost use Rattle.std.specs.Prelude.{List, ℕ};

    ghost Value = { List ℕ };

    ghost view = { λ w. w.list.items };
}

impl Words {
    /// The words: those of signals, and then those of the other cells, in the order of the net's cells.
    pub fn list(&self) -> &[u64]
        ensures { result.now ≡ self.now }
    {
        self.list.as_slice()
    }

    /// The content of a word.
    fn at(&self, word: u32) -> u64
        requires { word < length self.now }
        ensures { result ≡ slice_index self.now word }
    {
        self.list[word as usize]
    }

    /// Tells the bits to the word.
    pub(crate) fn take(&mut self, told: Told)
        requires { told.word < length self.old }
        ensures { self.new ≡ tell_word self.old told }
    {
        let word = self.at(told.word);
        self.list[told.word as usize] = told.how.lub(word, told.bits);
    }

    /// The same words again.
    pub fn copy(&self, alloc: Global) -> Result<Words, Memory>
        ensures { IfOk result (λ words. words ≡ self.now) }
    {
        Ok(Words {
            list: self.list().to_vec(alloc)?,
        })
    }

    /// Tells each word of the others to the one of its place.
    pub(crate) fn join(&mut self, net: &Net, others: &Words)
        requires words { AreWords net.now.cells self.old }
        requires others { AreWords net.now.cells others.now }
        ensures joined { self.new ≡ join_words (hows net.now.cells) self.old others.now }
        ensures words { AreWords net.now.cells self.new }
    {
        for word in 0..net.words() {
            self.take(Told {
                word,
                how: net.how(word),
                bits: others.at(word),
            });
        }
    }
}

/// Gives the word this content, at or above the word of which nothing is told. All others stay.
pub fn put(net: &Net, words: &mut Words, word: u32, content: u64)
    requires word { word < length words.old }
    requires words { AreWords net.now.cells words.old }
    requires above { Lies (slice_index_or (hows net.now.cells) word Or) (slice_index (empty_words net.now.cells) word) content }
    ensures put { words.new ≡ set words.old word content }
    ensures words { AreWords net.now.cells words.new }
{
    words.list[word as usize] = content;
}

/// Tells every token of the leaf. Nothing else changes.
pub fn tell(net: &Net, words: &mut Words, leaf: u32)
    requires leaf { leaf < length net.now.leaves }
    requires words { AreWords net.now.cells words.old }
    ensures told { words.new ≡ tell_atoms net.now.cells (leaf_tells_of (slice_get net.now.leaves leaf)) words.old }
    ensures words { AreWords net.now.cells words.new }
    ensures store { store_in net.now.cells words.new
        ≡ tell_named (named_atoms net.now.cells (leaf_tells_of (slice_get net.now.leaves leaf))) (store_in net.now.cells words.old) }
{
    for atom in net.tells(leaf) {
        words.take(net.told(*atom));
    }
}
