//! What is read off the words of a net and their parts.
ghost use Rattle.std.specs.Prelude.{◌≡◌, ◌<◌, ◌≤◌, ◌+◌, ◌&&◌, ℕ, Some, length, nat_le, nat_lt, slice_get, slice_index_or};
ghost use Rattle.instant_net.specs.declared.parts.NetCell.{NetCell};
ghost use Rattle.instant_net.specs.declared.words.How.TheVariants.{Or};
ghost use Rattle.instant_net.specs.PartLists.{part_stratum as part_stratum_of, parts as parts_of_cells};
ghost use Rattle.instant_net.specs.Words.{hows, kind_hows};
ghost use Rattle.instant_net.specs.Seen.{is_in_word};

use crate::layout::{SIGNALS_IN_A_WORD, count_signals, signal_words};
use crate::net::Net;
use crate::parts::NetCell;
use crate::words::How;
use token_system::Kind;

impl Net {
    /// How many parts the cells have.
    pub(crate) fn parts(&self) -> usize
        ensures { result ≡ parts_of_cells self.now.cells }
    {
        let signals = count_signals(self.cells.as_slice()) as usize;
        signals + 2 * (self.cells.len() - signals)
    }

    /// How the word is told.
    pub fn how(&self, word: u32) -> How
        ensures { result ≡ slice_index_or (hows self.now.cells) word Or }
    {
        let first = self.signal_words();
        if word < first || word >= self.words() {
            How::Or
        } else if (word - first) % 2 == 0 {
            How::Max
        } else {
            How::Min
        }
    }

    /// The first part of the cell, and the number past its last one.
    pub(crate) fn parts_of(&self, cell: u32) -> (usize, usize)
        requires { cell < length self.now.cells }
        ensures first { (c : NetCell) → slice_get self.now.cells cell ≡ Some c → result.0 ≡ c.first }
        ensures past { (c : NetCell) → slice_get self.now.cells cell ≡ Some c → result.1 ≡ c.first + length (kind_hows c.cell.kind) }
        ensures order { result.0 ≤ result.1 }
        ensures there { result.1 ≤ parts_of_cells self.now.cells }
    {
        let cell = &self.cells[cell as usize];
        (cell.first as usize, cell.first as usize + width(cell))
    }

    /// The first part of the word, and the number past its last one.
    pub(crate) fn parts_in(&self, word: u32) -> (usize, usize)
        requires { word < length (hows self.now.cells) }
        ensures order { result.0 ≤ result.1 }
        ensures there { result.1 ≤ parts_of_cells self.now.cells }
        ensures in_word { (q : ℕ) → q < parts_of_cells self.now.cells → is_in_word self.now.cells word q ≡ (nat_le result.0 q && nat_lt q result.1) }
    {
        let signals = count_signals(self.cells.as_slice());
        let words = signal_words(signals);
        let (word, signals) = (word as usize, signals as usize);
        if word < words as usize {
            let first = word * SIGNALS_IN_A_WORD as usize;
            (first, signals.min(first + SIGNALS_IN_A_WORD as usize))
        } else {
            let part = signals + (word - words as usize);
            (part, part + 1)
        }
    }

    /// The stratum of the cell that has the part.
    pub(crate) fn part_stratum(&self, part: usize) -> u32
        requires { part < parts_of_cells self.now.cells }
        ensures { result ≡ part_stratum_of self.now.cells part }
    {
        for cell in self.cells.as_slice() {
            let first = cell.first as usize;
            if first <= part && part < first + width(cell) {
                return cell.stratum;
            }
        }
        0
    }
}

/// How many parts the cell has.
fn width(cell: &NetCell) -> usize
    ensures { result ≡ length (kind_hows cell.now.cell.kind) }
{
    match cell.cell.kind {
        Kind::Signal => 1,
        Kind::Number => 2,
    }
}
