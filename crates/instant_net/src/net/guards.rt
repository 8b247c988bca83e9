//! What is read off the guards of a net.
ghost use Rattle.std.specs.Prelude.{◌≡◌, ◌<◌, length, slice_get};
ghost use Rattle.instant_net.specs.Opened.{IsNet};
ghost use Rattle.instant_net.specs.Readers.{above_of, guard_ask_of, first_of_guard, greatest_stratum, is_else_of, past_of_guard};

use crate::net::Net;
use crate::parts::Atom;

impl Net {
    /// Whether the guard is the ask of an else.
    pub fn is_else(&self, guard: u32) -> bool
        requires { guard < length self.now.guards }
        ensures { result ≡ is_else_of (slice_get self.now.guards guard) }
    {
        self.guards[guard as usize].negative
    }

    /// The tokens that the guard asks for, in order.
    pub fn ask(&self, guard: u32) -> &[Atom]
        requires { guard < length self.now.guards }
        ensures ask { result.now ≡ guard_ask_of (slice_get self.now.guards guard) }
        ensures net { IsNet self.now }
    {
        self.guards[guard as usize].ask.list()
    }

    /// The greatest stratum of the cells that the guard asks for, or 0 where it asks for none.
    pub fn guard_stratum(&self, guard: u32) -> u32
        requires { guard < length self.now.guards }
        ensures { result ≡ greatest_stratum self.now.cells (guard_ask_of (slice_get self.now.guards guard)) }
    {
        let mut greatest = 0;
        for atom in self.ask(guard) {
            greatest = self.stratum(atom.cell).max(greatest);
        }
        greatest
    }

    /// The nearest guard above, where there is one.
    pub fn above(&self, guard: u32) -> Option<u32>
        requires { guard < length self.now.guards }
        ensures above { result ≡ above_of (slice_get self.now.guards guard) }
        ensures net { IsNet self.now }
    {
        self.guards[guard as usize].above
    }

    /// The first leaf below the guard.
    pub fn first_under(&self, guard: u32) -> u32
        requires { guard < length self.now.guards }
        ensures { result ≡ first_of_guard (slice_get self.now.guards guard) }
    {
        self.guards[guard as usize].first
    }

    /// The number past the last leaf below the guard.
    pub fn past_under(&self, guard: u32) -> u32
        requires { guard < length self.now.guards }
        ensures { result ≡ past_of_guard (slice_get self.now.guards guard) }
    {
        self.guards[guard as usize].past
    }
}
