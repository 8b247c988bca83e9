//! Completing an instant with a watch of its net: only leaves that come up are looked at.
ghost use Rattle.std.specs.Prelude.{◌≡◌, ◌+◌, ◌≤◌, ◌<◌, OnErr, OnOk, [], length};
ghost use Rattle.token_system.specs.Stores.{StoreMap};
ghost use Rattle.instant_net.specs.Opened.{IsNet};
ghost use Rattle.instant_net.specs.Outputs.{IsNetOutput, IsStratified};
ghost use Rattle.instant_net.specs.Words.{store_in, AreWords};
ghost use Rattle.parked_asks.specs.Watches.{IsWatchOf};
ghost use Rattle.settle.specs.Asking.{AreNoted};
ghost use Rattle.settle.specs.Evaluations.{watching_told, Evaluates};
ghost use Rattle.settle.specs.Looking.{AreSeenTo};
ghost use Rattle.net_laws.specs.Ways.{IsOnNetWay};
ghost use Rattle.settle.specs.Ways.{Advances};

use crate::asking::note_asks;
use crate::looking::{look_at_level, look_below};
use crate::passes::settle;
use instant_net::{Net, Steps, Words};
use parked_asks::Watch;
use std::alloc::Global;
use std::marker::Brand;
use std::sync::ledger::{Blank, Ledger};
use token_system::Memory;

/// How many leaves a net has at most for which passes over all of them cost less than the opening of a watch.
const FEW_LEAVES: u32 = 64;

/// Completes the instant as `settle` does, and evaluates asks through `ask_holds` alone: each once, and each again where a
/// leaf tells a token of a cell that it names. It takes no memory. What the watch notes afterwards is of use to it alone.
pub fn settle_watched<L: Ledger>(
    net: &Net,
    words: &mut Words,
    from: u32,
    watch: &mut Watch,
    steps: &mut Steps<L>,
)
    requires words { AreWords net.now.cells words.old }
    requires watch { IsWatchOf net.now watch.old }
    ensures words { AreWords net.now.cells words.new }
    ensures watch { IsWatchOf net.now watch.new }
    ensures settled { (input output : StoreMap) → IsStratified net.now → IsNetOutput net.now input output
        → IsOnNetWay net.now input output from (store_in net.now.cells words.old)
        → store_in net.now.cells words.new ≡ output }
    ensures steps { (input output : StoreMap) → IsStratified net.now → IsNetOutput net.now input output
        → IsOnNetWay net.now input output from (store_in net.now.cells words.old)
        → steps.new ≤ steps.old + length net.now.guards + watching_told net.now output net.now.leaves }
{
    note_asks(net, words, &mut watch.asks, steps);
    for level in 0..net.strata() {
        let stratum = level.max(from);
        look_at_level(net, words, level, stratum, watch, steps);
        look_below_due(net, words, level, stratum, watch, steps);
    }
}

/// Completes the instant, whose words are those of its input: by passes where the net has few leaves, else by
/// `settle_watched` with a watch of its own. Without memory for the watch the words stay as they are.
pub fn settle_instant(alloc: Global, net: &Net, words: &mut Words) -> Result<(), Memory>
    requires words { AreWords net.now.cells words.old }
    ensures words { AreWords net.now.cells words.new }
    ensures settled { OnOk result ((input output : StoreMap) → IsStratified net.now → IsNetOutput net.now input output
        → IsOnNetWay net.now input output 0 (store_in net.now.cells words.old)
        → store_in net.now.cells words.new ≡ output) }
    ensures memory { OnErr result (words.new ≡ words.old) }
{
    if net.leaves() <= FEW_LEAVES {
        settle(net, words, 0);
        return Ok(());
    }
    let mut watch = Watch::open(alloc, net)?;
    settle_uncounted::<Brand>(net, words, &mut watch, Blank::new(1));
    Ok(())
}

/// Completes the instant, and drops the count of evaluations, which takes no bytes.
fn settle_uncounted<L: Ledger>(net: &Net, words: &mut Words, watch: &mut Watch, blank: Blank)
    requires words { AreWords net.now.cells words.old }
    requires watch { IsWatchOf net.now watch.old }
    requires name { blank.name ≡ L.name }
    requires parts { blank.parts ≡ L.parts }
    requires some { 0 < blank.parts }
    ensures words { AreWords net.now.cells words.new }
    ensures settled { (input output : StoreMap) → IsStratified net.now → IsNetOutput net.now input output
        → IsOnNetWay net.now input output 0 (store_in net.now.cells words.old)
        → store_in net.now.cells words.new ≡ output }
{
    let mut steps = Steps::<L>::none(blank);
    settle_watched(net, words, 0, watch, &mut steps);
}

/// Looks below each guard that is due, until none is. Where each leaf of a level up to this one has told or waits below
/// such a guard, it has told then.
fn look_below_due<L: Ledger>(
    net: &Net,
    words: &mut Words,
    level: u32,
    stratum: u32,
    watch: &mut Watch,
    steps: &mut Steps<L>,
)
    requires net { IsNet net.now }
    requires level { level ≤ stratum }
    requires words { AreWords net.now.cells words.old }
    requires watch { IsWatchOf net.now watch.old }
    requires noted { AreNoted net.now words.old watch.old.asks }
    requires seen { AreSeenTo net.now (level + 1) words.old watch.old.asks.due }
    ensures words { AreWords net.now.cells words.new }
    ensures watch { IsWatchOf net.now watch.new }
    ensures noted { AreNoted net.now words.new watch.new.asks }
    ensures due { watch.new.asks.due ≡ [] }
    ensures way { Advances net.now stratum stratum words.old words.new }
    ensures seen { AreSeenTo net.now (level + 1) words.new [] }
    ensures steps { Evaluates net.now stratum words.old words.new steps.old steps.new }
{
    while let Some(guard) = watch.asks.next_due() {
        look_below(net, words, guard, stratum, watch, steps);
    }
}
