//! Where cells stand in words: the signals first, 32 to a word, and then the words of the other cells.
ghost use Rattle.std.specs.Prelude.{◌≡◌, ◌<◌, length, map};
ghost use Rattle.instant_net.specs.Collecting.{unplaced};
ghost use Rattle.instant_net.specs.WordParts.{signal_words as signal_words_of};
ghost use Rattle.instant_net.specs.Words.{hows, signals, AreLaidOut};

use crate::parts::NetCell;
use token_system::Kind;

/// How many signals share a word.
pub(crate) const SIGNALS_IN_A_WORD: u32 = 32;

/// How many of the cells are signals.
pub(crate) fn count_signals(cells: &[NetCell]) -> u32
    requires { length cells.now < 4294967296 }
    ensures { result ≡ signals cells.now }
{
    let mut count = 0;
    for cell in cells {
        count += match cell.cell.kind {
            Kind::Signal => 1,
            Kind::Number => 0,
        };
    }
    count
}

/// How many words hold so many signals.
pub(crate) fn signal_words(signals: u32) -> u32
    ensures { result ≡ signal_words_of signals }
{
    signals / SIGNALS_IN_A_WORD + (signals % SIGNALS_IN_A_WORD).min(1)
}

/// How many words the cells have.
pub(crate) fn count_words(cells: &[NetCell]) -> u32
    requires few { length cells.now < 4294967296 }
    requires words { length (hows cells.now) < 4294967296 }
    ensures { result ≡ length (hows cells.now) }
{
    let signals = count_signals(cells);
    let numbers = cells.len() as u32 - signals;
    signal_words(signals) + 2 * numbers
}

/// Gives each cell its first part, and the word of this part. Nothing else of the cells changes.
pub(crate) fn lay_out(cells: &mut Vec<NetCell>)
    requires few { length cells.old.items < 2147483648 }
    ensures laid_out { AreLaidOut cells.new.items }
    ensures same { map unplaced cells.new.items ≡ map unplaced cells.old.items }
{
    let signals = count_signals(cells.as_slice());
    let words = signal_words(signals);
    let mut signal = 0;
    let mut others = 0;
    for place in 0..cells.len() {
        let cell = &mut cells[place];
        match cell.cell.kind {
            Kind::Signal => {
                cell.first = signal;
                cell.word = signal / SIGNALS_IN_A_WORD;
                signal += 1;
            }
            Kind::Number => {
                cell.first = signals + others;
                cell.word = words + others;
                others += 2;
            }
        }
    }
}
