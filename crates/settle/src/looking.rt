//! Looking at leaves whose asks are noted: each that is to tell does so, and the asks are evaluated again that it may have
//! made hold.
ghost use Rattle.std.specs.Prelude.{◌≡◌, ◌≤◌, ◌<◌, ℕ, List, IsTrue, Some, length, slice_get};
ghost use Rattle.instant_net.specs.declared.parts.NetLeaf.{NetLeaf};
ghost use Rattle.instant_net.specs.NamedLeaves.{allowed, runs_named};
ghost use Rattle.instant_net.specs.Nets.{named_leaf};
ghost use Rattle.instant_net.specs.Opened.{IsNet};
ghost use Rattle.instant_net.specs.Readers.{first_of_guard, is_else_of, past_of_guard};
ghost use Rattle.instant_net.specs.Words.{store_in, AreWords};
ghost use Rattle.parked_asks.specs.Held.{is_noted};
ghost use Rattle.parked_asks.specs.Watches.{has_level, IsWatchOf};
ghost use Rattle.settle.specs.Asking.{AreNoted};
ghost use Rattle.settle.specs.Evaluations.{Evaluates};
ghost use Rattle.settle.specs.Looking.{IsSeenTo, Looks};

use crate::asking::ask_again;
use crate::leaves::{has_told, is_upto};
use instant_net::{Net, Steps, Words, tell};
use parked_asks::{HeldAsks, Watch};
use std::sync::ledger::Ledger;

/// Looks at each leaf of this level.
pub(crate) fn look_at_level<L: Ledger>(
    net: &Net,
    words: &mut Words,
    level: u32,
    stratum: u32,
    watch: &mut Watch,
    steps: &mut Steps<L>,
)
    requires net { IsNet net.now }
    requires level { level < net.now.strata }
    requires words { AreWords net.now.cells words.old }
    requires watch { IsWatchOf net.now watch.old }
    requires noted { AreNoted net.now words.old watch.old.asks }
    ensures watch { IsWatchOf net.now watch.new }
    ensures looks { Looks net.now stratum words.old words.new watch.old.asks watch.new.asks }
    ensures seen { (n : ℕ) (l : NetLeaf) → slice_get net.now.leaves n ≡ Some l → IsTrue (has_level net.now.cells level l)
        → IsSeenTo net.now stratum words.new watch.new.asks.due n }
    ensures steps { Evaluates net.now stratum words.old words.new steps.old steps.new }
{
    // (by places, since the watch changes meanwhile; its lists do not)
    for place in 0..watch.leaves.of(level).len() {
        let leaf = watch.leaves.of(level)[place];
        look_at(net, words, leaf, stratum, watch, steps);
    }
}

/// Looks at each leaf below the guard.
pub(crate) fn look_below<L: Ledger>(
    net: &Net,
    words: &mut Words,
    guard: u32,
    stratum: u32,
    watch: &mut Watch,
    steps: &mut Steps<L>,
)
    requires net { IsNet net.now }
    requires guard { guard < length net.now.guards }
    requires words { AreWords net.now.cells words.old }
    requires watch { IsWatchOf net.now watch.old }
    requires noted { AreNoted net.now words.old watch.old.asks }
    ensures watch { IsWatchOf net.now watch.new }
    ensures looks { Looks net.now stratum words.old words.new watch.old.asks watch.new.asks }
    ensures seen { (n : ℕ) → first_of_guard (slice_get net.now.guards guard) ≤ n → n < past_of_guard (slice_get net.now.guards guard)
        → IsSeenTo net.now stratum words.new watch.new.asks.due n }
    ensures steps { Evaluates net.now stratum words.old words.new steps.old steps.new }
{
    for leaf in net.first_under(guard)..net.past_under(guard).min(net.leaves()) {
        look_at(net, words, leaf, stratum, watch, steps);
    }
}

/// Tells the leaf where its level is at most the stratum, what is noted allows each guard above it, and the words do not
/// entail all that it tells.
fn look_at<L: Ledger>(
    net: &Net,
    words: &mut Words,
    leaf: u32,
    stratum: u32,
    watch: &mut Watch,
    steps: &mut Steps<L>,
)
    requires net { IsNet net.now }
    requires leaf { leaf < length net.now.leaves }
    requires words { AreWords net.now.cells words.old }
    requires watch { IsWatchOf net.now watch.old }
    requires noted { AreNoted net.now words.old watch.old.asks }
    ensures watch { IsWatchOf net.now watch.new }
    ensures looks { Looks net.now stratum words.old words.new watch.old.asks watch.new.asks }
    ensures seen { IsSeenTo net.now stratum words.new watch.new.asks.due leaf }
    ensures steps { Evaluates net.now stratum words.old words.new steps.old steps.new }
{
    if is_upto(net.level(leaf), stratum)
        && is_free(net, &watch.asks, leaf)
        && !has_told(net, words, leaf)
    {
        tell(net, words, leaf);
        ask_again(net, words, leaf, watch, steps);
    }
}

/// Whether what is noted allows each guard above the leaf.
fn is_free(net: &Net, asks: &HeldAsks, leaf: u32) -> bool
    requires leaf { leaf < length net.now.leaves }
    requires asks { length asks.now.held ≡ length net.now.guards }
    ensures { (words : List ℕ) (l : NetLeaf) → AreNoted net.now words asks.now → slice_get net.now.leaves leaf ≡ Some l
        → result ≡ runs_named (store_in net.now.cells words) (named_leaf net.now l) }
{
    let mut next = net.last_guard(leaf);
    while let Some(guard) = next {
        if !is_allowed(net, asks, guard) {
            return false;
        }
        next = net.above(guard);
    }
    true
}

/// Whether what is noted allows the guard: its ask holds where it is a then's, and does not where it is an else's.
fn is_allowed(net: &Net, asks: &HeldAsks, guard: u32) -> bool
    requires guard { guard < length net.now.guards }
    requires asks { length asks.now.held ≡ length net.now.guards }
    ensures { result ≡ allowed (is_else_of (slice_get net.now.guards guard)) (is_noted asks.now.held guard) }
{
    let held = asks.is_held(guard);
    if net.is_else(guard) { !held } else { held }
}
