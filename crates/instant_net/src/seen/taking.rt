//! How the content of a word is taken in, and what of it is settled.
ghost use Rattle.std.specs.Prelude.{◌≡◌, ◌<◌, length};
ghost use Rattle.instant_net.specs.PartLists.{parts};
ghost use Rattle.instant_net.specs.Words.{hows};
ghost use Rattle.instant_net.specs.Seen.{settle as settle_of, taken, IsSeenOf};

use super::Seen;
use crate::net::Net;
use crate::words::Told;

impl Seen {
    /// Takes in this content of the word. Where it was loaded, each part of the word is settled whose stratum is known
    /// to be at rest.
    pub fn take(&mut self, net: &Net, word: u32, content: u64, loaded: bool)
        requires word { word < length (hows net.now.cells) }
        requires seen { IsSeenOf net.now self.old }
        ensures taken { self.new ≡ taken net.now word content loaded self.old }
        ensures seen { IsSeenOf net.now self.new }
    {
        self.words.take(Told {
            word,
            how: net.how(word),
            bits: content,
        });
        if loaded {
            settle(&mut self.settled, net, word, self.known);
        }
    }
}

/// Sets the flag of each part of the word whose stratum is below the phase.
fn settle(settled: &mut Vec<bool>, net: &Net, word: u32, phase: u32)
    requires word { word < length (hows net.now.cells) }
    requires settled { length settled.old.items ≡ parts net.now.cells }
    ensures { settled.new.items ≡ settle_of net.now.cells phase word settled.old.items }
{
    let (first, past) = net.parts_in(word);
    for part in first..past {
        if net.part_stratum(part) < phase {
            settled[part] = true;
        }
    }
}
