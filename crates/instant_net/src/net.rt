//! The net of an instant, and what can be read off it.
ghost use Rattle.std.specs.Prelude.{◌≡◌, length};
ghost use Rattle.instant_net.specs.WordParts.{signal_words as signal_words_of};
ghost use Rattle.instant_net.specs.Words.{hows, signals};
ghost use Rattle.instant_net.specs.Opened.{IsNet};

mod cells;
mod deciding;
mod guards;
mod leaves;
mod parts;

use crate::layout::{count_signals, count_words, signal_words};
use crate::parts::{NetCell, NetGuard, NetLeaf};
pub(crate) use cells::{place_in, shifted};
use std::marker::Model;

/// One instant of a program, made flat. Its cells, guards and leaves are numbered from 0.
#[derive(Debug, Drop)]
pub struct Net {
    instant: u32,
    strata: u32,
    cells: Vec<NetCell>,
    guards: Vec<NetGuard>,
    leaves: Vec<NetLeaf>,
}

impl Model for Net {
    ghost use Rattle.instant_net.specs.Nets.{Flat};
    ghost use Rattle.instant_net.specs.Opened.{IsNet};

    ghost Value = { Flat };

    ghost view = { λ n. record { instant = n.instant; strata = n.strata; cells = n.cells.items; guards = n.guards.items; leaves = n.leaves.items } };

    ghost invariant = { λ n. IsNet (record { instant = n.instant; strata = n.strata; cells = n.cells.items; guards = n.guards.items; leaves = n.leaves.items }) };
}

impl Net {
    /// The net of these parts.
    pub(crate) fn make(
        instant: u32,
        strata: u32,
        cells: Vec<NetCell>,
        guards: Vec<NetGuard>,
        leaves: Vec<NetLeaf>,
    ) -> Net
        requires { IsNet (record { instant = instant; strata = strata; cells = cells.items; guards = guards.items; leaves = leaves.items }) }
        ensures { result ≡ record { instant = instant; strata = strata; cells = cells.items; guards = guards.items; leaves = leaves.items } }
    {
        Net {
            instant,
            strata,
            cells,
            guards,
            leaves,
        }
    }

    /// How many leaves there are.
    pub fn leaves(&self) -> u32
        ensures count { result ≡ length self.now.leaves }
        ensures net { IsNet self.now }
    {
        self.leaves.len() as u32
    }

    /// How many guards there are.
    pub fn guards(&self) -> u32
        ensures { result ≡ length self.now.guards }
    {
        self.guards.len() as u32
    }

    /// How many cells there are.
    pub fn cells(&self) -> u32
        ensures count { result ≡ length self.now.cells }
        ensures net { IsNet self.now }
    {
        self.cells.len() as u32
    }

    /// How many words the cells have.
    pub fn words(&self) -> u32
        ensures { result ≡ length (hows self.now.cells) }
    {
        count_words(self.cells.as_slice())
    }

    /// How many of them hold signals.
    pub(crate) fn signal_words(&self) -> u32
        ensures { result ≡ signal_words_of (signals self.now.cells) }
    {
        signal_words(count_signals(self.cells.as_slice()))
    }

    /// How many strata there are.
    pub fn strata(&self) -> u32
        ensures count { result ≡ self.now.strata }
        ensures net { IsNet self.now }
    {
        self.strata
    }

    /// The instant.
    pub fn instant(&self) -> u32
        ensures { result ≡ self.now.instant }
    {
        self.instant
    }
}
