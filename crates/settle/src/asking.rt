//! Evaluating asks, and noting which of them hold.
ghost use Rattle.std.specs.Prelude.{◌≡◌, ◌+◌, ◌≤◌, ◌<◌, ℕ, [], length, All, Contains, IsTrue, slice_get};
ghost use Rattle.instant_net.specs.declared.parts.Atom.{Atom};
ghost use Rattle.instant_net.specs.Readers.{leaf_tells_of};
ghost use Rattle.instant_net.specs.Words.{AreWords};
ghost use Rattle.parked_asks.specs.Held.{is_noted};
ghost use Rattle.parked_asks.specs.Watches.{watchers, IsWatchOf};
ghost use Rattle.settle.specs.Asking.{is_held, AreNoted, NotesMore};
ghost use Rattle.settle.specs.Evaluations.{watch_count};

use instant_net::{Net, Steps, Words, ask_holds};
use parked_asks::{HeldAsks, Watch};
use std::sync::ledger::Ledger;

/// Evaluates each ask once, and notes whether it holds. No guard is due then.
pub(crate) fn note_asks<L: Ledger>(
    net: &Net,
    words: &Words,
    asks: &mut HeldAsks,
    steps: &mut Steps<L>,
)
    requires words { AreWords net.now.cells words.now }
    requires asks { length asks.old.held ≡ length net.now.guards }
    ensures noted { AreNoted net.now words.now asks.new }
    ensures due { asks.new.due ≡ [] }
    ensures steps { steps.new ≤ steps.old + length net.now.guards }
{
    asks.forget_due();
    for guard in 0..net.guards() {
        let holds = ask_holds(net, words, guard, steps);
        asks.note(guard, holds);
    }
}

/// Evaluates again, of the asks that are not noted to hold, each that names a cell that the leaf tells.
pub(crate) fn ask_again<L: Ledger>(
    net: &Net,
    words: &Words,
    leaf: u32,
    watch: &mut Watch,
    steps: &mut Steps<L>,
)
    requires leaf { leaf < length net.now.leaves }
    requires words { AreWords net.now.cells words.now }
    requires watch { IsWatchOf net.now watch.old }
    ensures watch { IsWatchOf net.now watch.new }
    ensures notes { NotesMore net.now words.now watch.old.asks watch.new.asks }
    ensures held { (a : Atom) (g : ℕ) → Contains (leaf_tells_of (slice_get net.now.leaves leaf)) a → Contains (watchers net.now a.cell) g
        → IsTrue (is_held net.now words.now g) → IsTrue (is_noted watch.new.asks.held g) }
    ensures steps { steps.new ≤ steps.old + watch_count net.now (leaf_tells_of (slice_get net.now.leaves leaf)) }
{
    for atom in net.tells(leaf) {
        ask_watchers(net, words, atom.cell, watch, steps);
    }
}

/// Evaluates again, of the asks that are not noted to hold, each that names the cell.
fn ask_watchers<L: Ledger>(
    net: &Net,
    words: &Words,
    cell: u32,
    watch: &mut Watch,
    steps: &mut Steps<L>,
)
    requires cell { cell < length net.now.cells }
    requires words { AreWords net.now.cells words.now }
    requires watch { IsWatchOf net.now watch.old }
    ensures watch { IsWatchOf net.now watch.new }
    ensures notes { NotesMore net.now words.now watch.old.asks watch.new.asks }
    ensures held { (g : ℕ) → Contains (watchers net.now cell) g → IsTrue (is_held net.now words.now g) → IsTrue (is_noted watch.new.asks.held g) }
    ensures steps { steps.new ≤ steps.old + length (watchers net.now cell) }
{
    // (by places, since the watch changes meanwhile; its lists do not)
    for place in 0..watch.of(cell).len() {
        let guard = watch.of(cell)[place];
        ask(net, words, guard, &mut watch.asks, steps);
    }
}

/// Evaluates the guard's ask, unless it is noted to hold. Where it holds, that is noted, and the guard is due.
fn ask<L: Ledger>(net: &Net, words: &Words, guard: u32, asks: &mut HeldAsks, steps: &mut Steps<L>)
    requires guard { guard < length net.now.guards }
    requires words { AreWords net.now.cells words.now }
    requires asks { length asks.old.held ≡ length net.now.guards }
    ensures notes { NotesMore net.now words.now asks.old asks.new }
    ensures held { IsTrue (is_held net.now words.now guard) → IsTrue (is_noted asks.new.held guard) }
    ensures steps { steps.new ≤ steps.old + 1 }
{
    if !asks.is_held(guard) && ask_holds(net, words, guard, steps) {
        asks.wake(guard);
    }
}
