//! Laws of nets and of words. Each is a function that computes nothing, and its contract is the law.
ghost use Rattle.std.specs.Prelude.{◌≡◌, ◌≢◌, ◌<◌, ℕ, List, Some, length, slice_get};
ghost use Rattle.instant_net.specs.declared.parts.NetCell.{NetCell};
ghost use Rattle.instant_net.specs.declared.words.How.{How};
ghost use Rattle.instant_net.specs.Nets.{Flat};
ghost use Rattle.instant_net.specs.Opened.{IsNet};
ghost use Rattle.instant_net.specs.WordParts.{part_at, part_of, word_of};
ghost use Rattle.instant_net.specs.Words.{lub, signals, tell_part, value_by, value_in, FitsPart, JoinsParts};
ghost use Rattle.instant_net.specs.Limits.{most_leaves, most_roots};
ghost use Rattle.instant_net.specs.Laws.{LeavesTellFew, NetsAreStratified, NetsHaveRootOutputs, NetsRestByLeaves, NetsRestByRoots, RootsHaveOneNet};

use crate::opening::{MAX_LEAVES, MAX_ROOTS};

/// The limits of the code are those of the definitions.
pub fn net_limits_law()
    ensures leaves { MAX_LEAVES ≡ most_leaves }
    ensures roots { MAX_ROOTS ≡ most_roots }
{}

/// The net of any roots is stratified where the table stratifies the program: each told cell has at least the stratum
/// of each cell that is asked for above it, and a greater one where an else asks.
pub fn stratified_net_law()
    ensures { NetsAreStratified }
{}

/// Of two stores, one below the other, the leaves of a net rest under them exactly where each of its roots does. The
/// leaves of the net and those of its roots rest under the same stores, whether one is below the other or not.
pub fn net_rests_law()
    ensures roots { NetsRestByRoots }
    ensures leaves { NetsRestByLeaves }
{}

/// The outputs of a net on an input over the declared cells are those of its roots, whether the program is stratified
/// or not.
pub fn net_outputs_law()
    ensures { NetsHaveRootOutputs }
{}

/// Roots have one net at an instant: nothing of a net is left open by what is said of it, the links between its guards
/// and leaves included.
pub fn one_net_law()
    ensures { RootsHaveOneNet }
{}

/// A leaf tells 16 tokens at most: as many as a constraint of a program has.
pub fn few_tokens_law()
    ensures { LeavesTellFew }
{}

/// What is told to a part of a word is told to that part alone, where two bits of a signal are set; and the join of two
/// words has in each part the join of theirs. The value of a cell of a net is that of its parts.
pub fn parts_law()
    ensures same { (s q bits : ℕ) (how : How) (words : List ℕ) → FitsPart s q how bits → word_of s q < length words
        → part_at s (tell_part s how words q bits) q ≡ lub how (part_at s words q) bits }
    ensures others { (s q r bits : ℕ) (how : How) (words : List ℕ) → FitsPart s q how bits → word_of s q < length words → r ≢ q
        → part_at s (tell_part s how words q bits) r ≡ part_at s words r }
    ensures lubs { (s q u w : ℕ) (how : How) → JoinsParts s q how → part_of s q (lub how u w) ≡ lub how (part_of s q u) (part_of s q w) }
    ensures values { (net : Flat) (words : List ℕ) (k : ℕ) (c : NetCell) → IsNet net → slice_get net.cells k ≡ Some c
        → value_in words c ≡ value_by (part_at (signals net.cells) words) c }
{}
