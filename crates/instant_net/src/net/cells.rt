//! What is read off the cells of a net.
ghost use Rattle.std.specs.Prelude.{◌≡◌, ◌+◌, ◌<◌, IsTrue, Some, length, option_map, slice_get};
ghost use Rattle.token_system.specs.declared.cell.Kind.TheVariants.{Number};
ghost use Rattle.token_system.specs.Domain.{is_bound};
ghost use Rattle.token_system.specs.Tokens.{fits_kind};
ghost use Rattle.instant_net.specs.Nets.{AtomFits};
ghost use Rattle.instant_net.specs.Opened.{IsNet};
ghost use Rattle.instant_net.specs.WordParts.{pair_at as pair_at_of, place_in as place_in_of};
ghost use Rattle.instant_net.specs.Readers.{stratum_of};
ghost use Rattle.instant_net.specs.Words.{shifted as shifted_of, told_as as told_as_of, told_of};

use crate::layout::SIGNALS_IN_A_WORD;
use crate::net::Net;
use crate::parts::{Atom, NetCell};
use crate::words::{How, Told};
use token_system::{Cell, CellName, Kind, Token};

/// What is added to a bound of a number, so that it is above 0.
const OFFSET: i64 = 2_147_483_648;

/// What is told to the lower bound of a number that clashes: it is above each upper bound.
const CLASH: u64 = 4_294_967_296;

impl Net {
    /// The name of the cell.
    pub fn cell_name(&self, cell: u32) -> &CellName
        requires { cell < length self.now.cells }
        ensures { option_map (λ c. c.name) (slice_get self.now.cells cell) ≡ Some result.now }
    {
        &self.cells[cell as usize].name
    }

    /// The kind and the domain of the cell.
    pub fn cell(&self, cell: u32) -> Cell
        requires { cell < length self.now.cells }
        ensures cell { option_map (λ c. c.cell) (slice_get self.now.cells cell) ≡ Some result }
        ensures net { IsNet self.now }
    {
        self.cells[cell as usize].cell
    }

    /// The stratum of the cell.
    pub fn stratum(&self, cell: u32) -> u32
        requires { cell < length self.now.cells }
        ensures { result ≡ stratum_of (slice_get self.now.cells cell) }
    {
        self.cells[cell as usize].stratum
    }

    /// All that the net has of the cell.
    pub(crate) fn whole_cell(&self, cell: u32) -> &NetCell
        requires { cell < length self.now.cells }
        ensures cell { slice_get self.now.cells cell ≡ Some result.now }
        ensures net { IsNet self.now }
    {
        &self.cells[cell as usize]
    }

    /// Where and how the token is told.
    pub fn told(&self, atom: Atom) -> Told
        requires { AtomFits self.now.cells atom }
        ensures { result ≡ told_of self.now.cells atom }
    {
        told_as(&self.cells[atom.cell as usize], atom.token)
    }
}

/// Where and how a token is told of the cell.
fn told_as(cell: &NetCell, token: Token) -> Told
    requires fits { IsTrue (fits_kind cell.now.cell.kind token) }
    requires small { cell.now.cell.kind ≡ Number → cell.now.word + 1 < 4294967296 }
    ensures { result ≡ told_as_of cell.now token }
{
    let (word, how, bits) = match (cell.cell.kind, token) {
        (Kind::Signal, Token::On) => (cell.word, How::Or, pair_at(cell.first, 1)),
        (Kind::Signal, Token::Off) => (cell.word, How::Or, pair_at(cell.first, 2)),
        (Kind::Signal, Token::Clash) => (cell.word, How::Or, pair_at(cell.first, 3)),
        (Kind::Number, Token::AtLeast(k)) => (cell.word, How::Max, shifted(k)),
        (Kind::Number, Token::AtMost(k)) => (cell.word + 1, How::Min, shifted(k)),
        (Kind::Number, Token::Clash) => (cell.word, How::Max, CLASH),
        _ => (cell.word, How::Or, 0),
    };
    Told { word, how, bits }
}

/// Two bits, where this signal has them in its word.
fn pair_at(signal: u32, bits: u64) -> u64
    requires { bits < 4 }
    ensures { result ≡ pair_at_of signal bits }
{
    bits << place_in(signal)
}

/// The lower of the signal's two bits in its word.
pub(crate) fn place_in(signal: u32) -> u32
    ensures { result ≡ place_in_of signal }
{
    2 * (signal % SIGNALS_IN_A_WORD)
}

/// A bound as the content of a word.
pub(crate) fn shifted(k: i64) -> u64
    requires { IsTrue (is_bound k) }
    ensures { result ≡ shifted_of k }
{
    (k + OFFSET) as u64
}
