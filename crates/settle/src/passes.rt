//! Passes over the leaves of a net, and strata.
ghost use Rattle.std.specs.Prelude.{◌≡◌, ◌+◌, ◌≤◌, false, cond, All};
ghost use Rattle.token_system.specs.Stores.{StoreMap};
ghost use Rattle.instant_net.specs.Opened.{IsNet};
ghost use Rattle.instant_net.specs.Outputs.{IsNetOutput, IsStratified};
ghost use Rattle.instant_net.specs.Words.{store_in, AreWords};
ghost use Rattle.net_laws.specs.Ways.{IsOnNetWay};
ghost use Rattle.settle.specs.Ways.{untold, Advances};
ghost use Rattle.settle.specs.Ways as ways;

use crate::leaves::is_due;
use instant_net::{Net, Words, tell};

/// Completes one stratum: passes over the leaves until a pass tells nothing. Which input the words began with need not be
/// known; what is reached serves each input and output that they lie between.
pub fn settle_stratum(net: &Net, words: &mut Words, stratum: u32)
    requires words { AreWords net.now.cells words.old }
    ensures words { AreWords net.now.cells words.new }
    ensures settled { (input output : StoreMap) → IsStratified net.now → IsNetOutput net.now input output
        → IsOnNetWay net.now input output stratum (store_in net.now.cells words.old)
        → IsOnNetWay net.now input output (stratum + 1) (store_in net.now.cells words.new) }
{
    let mut told = true;
    while told {
        told = tell_due(net, words, stratum);
    }
}

/// Completes the instant, stratum by stratum from `from` up. That is 0 where the words are those of the input, and greater
/// where they are known to have the lower strata whole.
pub fn settle(net: &Net, words: &mut Words, from: u32)
    requires words { AreWords net.now.cells words.old }
    ensures words { AreWords net.now.cells words.new }
    ensures settled { (input output : StoreMap) → IsStratified net.now → IsNetOutput net.now input output
        → IsOnNetWay net.now input output from (store_in net.now.cells words.old)
        → store_in net.now.cells words.new ≡ output }
{
    for stratum in from..net.strata() {
        settle_stratum(net, words, stratum);
    }
}

/// Tells, one after the other, each leaf that is due when its turn comes, and says whether there was one. Where there was,
/// fewer leaves tell something that the words do not entail.
fn tell_due(net: &Net, words: &mut Words, stratum: u32) -> bool
    requires words { AreWords net.now.cells words.old }
    ensures words { AreWords net.now.cells words.new }
    ensures net { IsNet net.now }
    ensures way { Advances net.now stratum stratum words.old words.new }
    ensures fewer { untold net.now (store_in net.now.cells words.new) net.now.leaves + cond result 1 0
        ≤ untold net.now (store_in net.now.cells words.old) net.now.leaves }
    ensures at_rest { result ≡ false → All (λ l. ways.is_leaf_due net.now stratum (store_in net.now.cells words.new) l ≡ false) net.now.leaves }
{
    let mut told = false;
    for leaf in 0..net.leaves() {
        if is_due(net, words, leaf, stratum) {
            tell(net, words, leaf);
            told = true;
        }
    }
    told
}
