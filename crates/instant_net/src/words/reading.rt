//! What words say: the values of cells, the guards that they entail or reach, and the leaves that they run.
ghost use Rattle.std.specs.Prelude.{◌≡◌, ◌<◌, [], ◌∷◌, length, slice_get};
ghost use Rattle.std.specs.List.{list_all};
ghost use Rattle.token_system.specs.Values.{IsValueOf};
ghost use Rattle.token_system.specs.Stores.{value_at};
ghost use Rattle.instant_net.specs.declared.parts.NetCell.{NetCell};
ghost use Rattle.instant_net.specs.declared.parts.NetGuard.{NetGuard};
ghost use Rattle.instant_net.specs.declared.parts.NetLeaf.{NetLeaf};
ghost use Rattle.instant_net.specs.NamedLeaves as named_leaves;
ghost use Rattle.instant_net.specs.Nets.{named_atoms, named_leaf, named_occurrence, path_to, paths_from, AtomFits, IsLinkBelow};
ghost use Rattle.instant_net.specs.Opened.{IsNet};
ghost use Rattle.instant_net.specs.Readers.{guard_ask_of, is_else_of};
ghost use Rattle.instant_net.specs.WordParts.{pair_of as pair_of_word};
ghost use Rattle.instant_net.specs.Words.{bits_value, number_value, store_in, value_in, AreWords};

use crate::net::{Net, place_in};
use crate::parts::Atom;
use crate::words::Words;
use token_system::{Kind, Value, entails};

/// What is taken off the content of a number's word, for its bound.
const OFFSET: i64 = 2_147_483_648;

/// The value of the cell.
pub fn value(net: &Net, words: &Words, cell: u32) -> Value
    requires cell { cell < length net.now.cells }
    requires words { AreWords net.now.cells words.now }
    ensures value { (c : NetCell) → slice_get net.now.cells cell ≡ Some c → result ≡ value_in words.now c }
    ensures of_cell { (c : NetCell) → slice_get net.now.cells cell ≡ Some c → IsValueOf c.cell result }
    ensures in_store { (c : NetCell) → slice_get net.now.cells cell ≡ Some c → result ≡ value_at (store_in net.now.cells words.now) c.name c.cell }
{
    let place = net.whole_cell(cell);
    let word = words.at(place.word);
    match place.cell.kind {
        Kind::Signal => signal(pair_of(place.first, word)),
        Kind::Number => number(word, words.at(place.word + 1)),
    }
}

/// The two bits that this signal has of its word.
fn pair_of(signal: u32, word: u64) -> u64
    ensures { result ≡ pair_of_word signal word }
{
    (word >> place_in(signal)) % 4
}

/// The value of a signal with these two bits.
fn signal(bits: u64) -> Value
    requires { bits < 4 }
    ensures { result ≡ bits_value bits }
{
    match bits {
        0 => Value::Signal {
            on: false,
            off: false,
        },
        1 => Value::Signal {
            on: true,
            off: false,
        },
        2 => Value::Signal {
            on: false,
            off: true,
        },
        _ => Value::Clash,
    }
}

/// The value of a number with these words.
fn number(lo: u64, hi: u64) -> Value
    requires { hi < 4294967296 }
    ensures { result ≡ number_value lo hi }
{
    if hi < lo {
        return Value::Clash;
    }
    Value::Number {
        lo: lo as i64 - OFFSET,
        hi: hi as i64 - OFFSET,
    }
}

/// Whether the words entail each token that the guard asks for.
pub fn holds(net: &Net, words: &Words, guard: u32) -> bool
    requires guard { guard < length net.now.guards }
    requires words { AreWords net.now.cells words.now }
    ensures { result ≡ named_leaves.named_entails (store_in net.now.cells words.now) (named_atoms net.now.cells (guard_ask_of (slice_get net.now.guards guard))) }
{
    for atom in net.ask(guard) {
        if !has(net, words, *atom) {
            return false;
        }
    }
    true
}

/// Whether the words entail the token.
pub fn has(net: &Net, words: &Words, atom: Atom) -> bool
    requires fits { AtomFits net.now.cells atom }
    requires words { AreWords net.now.cells words.now }
    ensures { result ≡ named_leaves.named_entails (store_in net.now.cells words.now) (named_atoms net.now.cells (atom ∷ [])) }
{
    entails(value(net, words, atom.cell), atom.token)
}

/// Whether the words allow the guard: they entail its ask where it is a then's, and do not where it is an else's.
fn allows(net: &Net, words: &Words, guard: u32) -> bool
    requires guard { guard < length net.now.guards }
    requires words { AreWords net.now.cells words.now }
    ensures { result ≡ named_leaves.allowed (is_else_of (slice_get net.now.guards guard)) (named_leaves.named_entails (store_in net.now.cells words.now) (named_atoms net.now.cells (guard_ask_of (slice_get net.now.guards guard)))) }
{
    let held = holds(net, words, guard);
    if net.is_else(guard) { !held } else { held }
}

/// Whether the words allow this guard, where there is one, and each guard above it.
fn allow_path(net: &Net, words: &Words, last: Option<u32>) -> bool
    requires net { IsNet net.now }
    requires there { IsLinkBelow (length net.now.guards) last }
    requires words { AreWords net.now.cells words.now }
    ensures { result ≡ list_all (named_leaves.allows_named (store_in net.now.cells words.now)) (path_to (paths_from net.now.cells [] net.now.guards) last) }
{
    let mut next = last;
    while let Some(guard) = next {
        if !allows(net, words, guard) {
            return false;
        }
        next = net.above(guard);
    }
    true
}

/// Whether the words run the leaf: they entail each ask above it that is a then's, and none that is an else's.
pub fn runs(net: &Net, words: &Words, leaf: u32) -> bool
    requires leaf { leaf < length net.now.leaves }
    requires words { AreWords net.now.cells words.now }
    ensures { (l : NetLeaf) → slice_get net.now.leaves leaf ≡ Some l → result ≡ named_leaves.runs_named (store_in net.now.cells words.now) (named_leaf net.now l) }
{
    allow_path(net, words, net.last_guard(leaf))
}

/// Whether the words reach the guard: they entail each ask above it that is a then's, and none that is an else's.
pub fn reaches(net: &Net, words: &Words, guard: u32) -> bool
    requires guard { guard < length net.now.guards }
    requires words { AreWords net.now.cells words.now }
    ensures { (g : NetGuard) → slice_get net.now.guards guard ≡ Some g → result ≡ named_leaves.reaches_named (store_in net.now.cells words.now) (named_occurrence net.now g) }
{
    allow_path(net, words, net.above(guard))
}
