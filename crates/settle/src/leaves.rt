//! Which leaves of a net are to tell.
ghost use Rattle.std.specs.Prelude.{◌≡◌, ◌<◌, length, slice_get};
ghost use Rattle.instant_net.specs.declared.parts.NetLeaf.{NetLeaf};
ghost use Rattle.instant_net.specs.NamedLeaves.{named_entails as entails_of};
ghost use Rattle.instant_net.specs.Nets.{named_atoms};
ghost use Rattle.instant_net.specs.Opened.{IsNet};
ghost use Rattle.instant_net.specs.Readers.{leaf_tells_of};
ghost use Rattle.instant_net.specs.Words.{store_in, AreWords};
ghost use Rattle.settle.specs.Ways as ways;

use instant_net::{Net, Words, has, runs};

/// Whether the leaf is to be told: some cell that it tells has at most this stratum, the words run the leaf, and they
/// do not yet entail all that it tells.
pub(crate) fn is_due(net: &Net, words: &Words, leaf: u32, stratum: u32) -> bool
    requires leaf { leaf < length net.now.leaves }
    requires words { AreWords net.now.cells words.now }
    ensures { (l : NetLeaf) → slice_get net.now.leaves leaf ≡ Some l
        → result ≡ ways.is_leaf_due net.now stratum (store_in net.now.cells words.now) l }
{
    is_upto(net.level(leaf), stratum) && runs(net, words, leaf) && !has_told(net, words, leaf)
}

/// Whether there is a level, and it is at most the stratum.
pub(crate) fn is_upto(level: Option<u32>, stratum: u32) -> bool
    ensures { result ≡ ways.is_level_upto stratum level }
{
    match level {
        Some(level) => level <= stratum,
        None => false,
    }
}

/// Whether the words entail each token that the leaf tells.
pub(crate) fn has_told(net: &Net, words: &Words, leaf: u32) -> bool
    requires leaf { leaf < length net.now.leaves }
    requires words { AreWords net.now.cells words.now }
    ensures { result ≡ entails_of (store_in net.now.cells words.now) (named_atoms net.now.cells (leaf_tells_of (slice_get net.now.leaves leaf))) }
{
    for atom in net.tells(leaf) {
        if !has(net, words, *atom) {
            return false;
        }
    }
    true
}
