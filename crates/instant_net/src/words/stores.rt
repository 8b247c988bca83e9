//! Words of stores, and stores of words.
ghost use Rattle.std.specs.Prelude.{◌≡◌, ◌≤◌, ◌++◌, IfOk, OnOk, Some, length, replicate, slice_get, take};
ghost use Rattle.token_system.specs.declared.cell.Value.TheVariants.{Number};
ghost use Rattle.token_system.specs.Stores.{value_at};
ghost use Rattle.token_system.specs.Tokens.{Fits};
ghost use Rattle.token_system.specs.Values.{value_tokens, IsValueOf};
ghost use Rattle.instant_net.specs.declared.parts.NetCell.{NetCell};
ghost use Rattle.instant_net.specs.Opened.{IsNet};
ghost use Rattle.instant_net.specs.Outputs.{IsStoreOf};
ghost use Rattle.instant_net.specs.Words.{empty_words, own_unknown, store_in, store_words, tell_tokens, tell_word, told_as, AreWords};

use crate::net::{Net, shifted};
use crate::parts::Atom;
use crate::words::{Words, value};
use std::alloc::Global;
use token_system::{Cell, CellName, Kind, Memory, Store, Token, Value, bottom};

/// The words of which the input is told, and nothing else.
pub fn open_words(alloc: Global, net: &Net, input: &Store) -> Result<Words, Memory>
    requires { IsStoreOf net.now.cells input.now }
    ensures told { IfOk result (λ words. words ≡ store_words net.now.cells input.now) }
    ensures words { IfOk result (AreWords net.now.cells) }
    ensures store { IfOk result (λ words. store_in net.now.cells words ≡ input.now) }
{
    let mut words = untold(alloc, net)?;
    for place in 0..net.cells() {
        let value = value_of(input, net.cell_name(place), net.cell(place));
        tell_value(net, &mut words, place, value);
    }
    Ok(words)
}

/// The words of which nothing is told.
pub(crate) fn untold(alloc: Global, net: &Net) -> Result<Words, Memory>
    ensures told { IfOk result (λ words. words ≡ empty_words net.now.cells) }
    ensures words { IfOk result (AreWords net.now.cells) }
{
    let mut list = zeros(alloc, net.signal_words(), net.words())?;
    for place in 0..net.cells() {
        push_own(&mut list, net.cell(place))?;
    }
    Ok(Words { list })
}

/// So many zeros, with room for so many words.
fn zeros(alloc: Global, count: u32, room: u32) -> Result<Vec<u64>, Memory>
    ensures { IfOk result (λ list. list.items ≡ replicate count 0) }
{
    let mut list = Vec::with_capacity(alloc, room as usize)?;
    for _zero in 0..count {
        list.push(0)?;
    }
    Ok(list)
}

/// Appends the words that the cell has for itself, where nothing is told of it.
fn push_own(list: &mut Vec<u64>, cell: Cell) -> Result<(), Memory>
    ensures { OnOk result (list.new.items ≡ list.old.items ++ own_unknown cell.kind cell.lo cell.hi) }
{
    if cell.kind == Kind::Number {
        list.push(shifted(cell.lo))?;
        list.push(shifted(cell.hi))?;
    }
    Ok(())
}

/// The value that the store has for the named cell.
fn value_of(store: &Store, name: &CellName, cell: Cell) -> Value
    ensures { result ≡ value_at store.now name.now cell }
{
    match store.get(name) {
        Some(value) => value,
        None => bottom(cell),
    }
}

/// Tells the cell's value.
fn tell_value(net: &Net, words: &mut Words, cell: u32, value: Value)
    requires net { IsNet net.now }
    requires value { (c : NetCell) × (slice_get net.now.cells cell ≡ Some c) × IsValueOf c.cell value }
    requires words { AreWords net.now.cells words.old }
    ensures told { (c : NetCell) → slice_get net.now.cells cell ≡ Some c → words.new ≡ tell_tokens c (value_tokens value) words.old }
    ensures words { AreWords net.now.cells words.new }
{
    match value {
        Value::Signal { on, off } => {
            if on {
                tell_token(net, words, cell, Token::On);
            }
            if off {
                tell_token(net, words, cell, Token::Off);
            }
        }
        Value::Number { lo, hi } => tell_bounds(net, words, cell, lo, hi),
        Value::Clash => tell_token(net, words, cell, Token::Clash),
    }
}

/// Tells the number's bounds.
fn tell_bounds(net: &Net, words: &mut Words, cell: u32, lo: i64, hi: i64)
    requires net { IsNet net.now }
    requires value { (c : NetCell) × (slice_get net.now.cells cell ≡ Some c) × IsValueOf c.cell (Number lo hi) }
    requires words { AreWords net.now.cells words.old }
    ensures told { (c : NetCell) → slice_get net.now.cells cell ≡ Some c → words.new ≡ tell_tokens c (value_tokens (Number lo hi)) words.old }
    ensures words { AreWords net.now.cells words.new }
{
    tell_token(net, words, cell, Token::AtLeast(lo));
    tell_token(net, words, cell, Token::AtMost(hi));
}

/// Tells the token of the cell.
fn tell_token(net: &Net, words: &mut Words, cell: u32, token: Token)
    requires net { IsNet net.now }
    requires fits { (c : NetCell) × (slice_get net.now.cells cell ≡ Some c) × Fits c.cell token }
    requires words { AreWords net.now.cells words.old }
    ensures told { (c : NetCell) → slice_get net.now.cells cell ≡ Some c → words.new ≡ tell_word words.old (told_as c token) }
    ensures words { AreWords net.now.cells words.new }
{
    words.take(net.told(Atom { cell, token }));
}

/// The store that the words are.
pub fn words_store(alloc: Global, net: &Net, words: &Words) -> Result<Store, Memory>
    requires { AreWords net.now.cells words.now }
    ensures { IfOk result (λ store. store ≡ store_in net.now.cells words.now) }
{
    declared_store(alloc, net, words, net.cells())
}

/// The store that the words of the first so many cells are. Where these are the declared ones, no local cell is in it.
pub fn declared_store(alloc: Global, net: &Net, words: &Words, cells: u32) -> Result<Store, Memory>
    requires cells { cells ≤ length net.now.cells }
    requires words { AreWords net.now.cells words.now }
    ensures { IfOk result (λ store. store ≡ store_in (take cells net.now.cells) words.now) }
{
    let mut store = Store::new(alloc);
    for place in 0..cells {
        let name = net.cell_name(place).copy()?;
        store.keep(name, net.cell(place), value(net, words, place))?;
    }
    Ok(store)
}
