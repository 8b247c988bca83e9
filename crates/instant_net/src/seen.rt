//! What one worker knows of the words of an instant: all that it saw of each, what of it is settled, and how many
//! strata are at rest.
ghost use Rattle.std.specs.Prelude.{◌≡◌, ◌<◌, IfOk, false, length, replicate, slice_get};
ghost use Rattle.std.specs.List.{list_all};
ghost use Rattle.instant_net.specs.declared.parts.NetCell.{NetCell};
ghost use Rattle.instant_net.specs.Nets.{Flat};
ghost use Rattle.instant_net.specs.Words.{value_in};
ghost use Rattle.instant_net.specs.Seen.{is_settled_there, join_flags, knowing, merged, opened, IsSeenOf};

mod taking;

use crate::net::Net;
use crate::words::{Words, untold, value};
use std::alloc::Global;
use std::marker::Model;
use token_system::{Memory, Value};

/// What one worker knows of a net's words: the join of all that it saw of each, a flag for each part that says whether
/// it is settled, and how many strata it knows to be at rest.
#[derive(Debug, Drop)]
pub struct Seen {
    words: Words,
    settled: Vec<bool>,
    known: u32,
}

impl Model for Seen {
    ghost use Rattle.instant_net.specs.Seen.{SeenView};

    ghost Value = { SeenView };

    ghost view = { λ s. record { words = s.words; settled = s.settled.items; known = s.known } };
}

impl Seen {
    /// Nothing is told, settled or known.
    pub fn open(alloc: Global, net: &Net) -> Result<Seen, Memory>
        ensures opened { IfOk result (λ seen. seen ≡ opened net.now) }
        ensures seen { IfOk result (IsSeenOf net.now) }
    {
        Ok(Seen {
            words: untold(alloc, net)?,
            settled: unset(alloc, net.parts())?,
            known: 0,
        })
    }

    /// The value of the cell, as far as it was seen.
    pub fn value(&self, net: &Net, cell: u32) -> Value
        requires cell { cell < length net.now.cells }
        requires seen { IsSeenOf net.now self.now }
        ensures { (c : NetCell) → slice_get net.now.cells cell ≡ Some c → result ≡ value_in self.now.words c }
    {
        value(net, &self.words, cell)
    }

    /// The join of all that was seen of each word.
    pub fn words(&self) -> &Words
        ensures { result.now ≡ self.now.words }
    {
        &self.words
    }

    /// Whether each part of the cell is settled.
    pub fn is_settled(&self, net: &Net, cell: u32) -> bool
        requires cell { cell < length net.now.cells }
        requires seen { IsSeenOf net.now self.now }
        ensures { result ≡ is_settled_there self.now (slice_get net.now.cells cell) }
    {
        let (first, past) = net.parts_of(cell);
        are_set(&self.settled[first..past])
    }

    /// So many strata are at rest.
    pub fn know(&mut self, phase: u32)
        ensures known { self.new ≡ knowing phase self.old }
        ensures seen { (net : Flat) → IsSeenOf net self.old → IsSeenOf net self.new }
    {
        self.known = self.known.max(phase);
    }

    /// How many strata are known to be at rest.
    pub fn known(&self) -> u32
        ensures { result ≡ self.now.known }
    {
        self.known
    }

    /// Learns all that the other one knows.
    pub fn merge(&mut self, net: &Net, other: &Seen)
        requires seen { IsSeenOf net.now self.old }
        requires other { IsSeenOf net.now other.now }
        ensures merged { self.new ≡ merged net.now self.old other.now }
        ensures seen { IsSeenOf net.now self.new }
    {
        self.words.join(net, &other.words);
        join(&mut self.settled, other.settled.as_slice());
        self.known = self.known.max(other.known);
    }
}

/// Whether each of the flags is set.
fn are_set(flags: &[bool]) -> bool
    ensures { result ≡ list_all (λ flag. flag) flags.now }
{
    flags.iter().all(|flag| *flag)
}

/// So many flags, none of them set.
fn unset(alloc: Global, count: usize) -> Result<Vec<bool>, Memory>
    ensures { IfOk result (λ flags. flags.items ≡ replicate count false) }
{
    let mut flags = Vec::with_capacity(alloc, count)?;
    for _flag in 0..count {
        flags.push(false)?;
    }
    Ok(flags)
}

/// Sets each flag that is set in the others.
fn join(flags: &mut Vec<bool>, others: &[bool])
    requires { length others.now ≡ length flags.old.items }
    ensures { flags.new.items ≡ join_flags flags.old.items others.now }
{
    for (place, other) in others.iter().enumerate() {
        if *other {
            flags[place] = true;
        }
    }
}
