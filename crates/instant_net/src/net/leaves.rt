//! What is read off the leaves of a net.
ghost use Rattle.std.specs.Prelude.{◌≡◌, ◌<◌, MatchOption, None, Some, length, slice_get};
ghost use Rattle.instant_net.specs.Opened.{IsNet};
ghost use Rattle.instant_net.specs.Readers.{is_hence_of, is_tell_of, last_of, least_stratum, lesser as lesser_of, starts_of, leaf_tells_of};

use crate::net::Net;
use crate::parts::{Atom, LeafKind};
use agent_core::Closure;

impl Net {
    /// Whether the leaf tells.
    pub fn is_tell(&self, leaf: u32) -> bool
        requires { leaf < length self.now.leaves }
        ensures { result ≡ is_tell_of (slice_get self.now.leaves leaf) }
    {
        match &self.leaves[leaf as usize].kind {
            LeafKind::Tells(_) => true,
            _ => false,
        }
    }

    /// The least stratum of the cells that the leaf tells, where it tells any.
    pub fn level(&self, leaf: u32) -> Option<u32>
        requires { leaf < length self.now.leaves }
        ensures { result ≡ least_stratum self.now.cells (leaf_tells_of (slice_get self.now.leaves leaf)) }
    {
        let mut least = None;
        for atom in self.tells(leaf) {
            least = Some(lesser(self.stratum(atom.cell), least));
        }
        least
    }

    /// The tokens that the leaf tells, in order; none where it is no tell.
    pub fn tells(&self, leaf: u32) -> &[Atom]
        requires { leaf < length self.now.leaves }
        ensures tells { result.now ≡ leaf_tells_of (slice_get self.now.leaves leaf) }
        ensures net { IsNet self.now }
    {
        match &self.leaves[leaf as usize].kind {
            LeafKind::Tells(atoms) => atoms.list(),
            _ => &[],
        }
    }

    /// The closure that a hence or a next starts; none for another leaf.
    pub fn starts(&self, leaf: u32) -> Option<&Closure>
        requires { leaf < length self.now.leaves }
        ensures { MatchOption result (starts_of (slice_get self.now.leaves leaf) ≡ None) (λ closure. starts_of (slice_get self.now.leaves leaf) ≡ Some closure.now) }
    {
        match &self.leaves[leaf as usize].kind {
            LeafKind::StartsHence(closure) => Some(closure),
            LeafKind::StartsNext(closure) => Some(closure),
            _ => None,
        }
    }

    /// Whether the leaf is a hence.
    pub fn is_hence(&self, leaf: u32) -> bool
        requires { leaf < length self.now.leaves }
        ensures { result ≡ is_hence_of (slice_get self.now.leaves leaf) }
    {
        match &self.leaves[leaf as usize].kind {
            LeafKind::StartsHence(_) => true,
            _ => false,
        }
    }

    /// The last guard above the leaf, where there is one.
    pub fn last_guard(&self, leaf: u32) -> Option<u32>
        requires { leaf < length self.now.leaves }
        ensures last { result ≡ last_of (slice_get self.now.leaves leaf) }
        ensures net { IsNet self.now }
    {
        self.leaves[leaf as usize].last
    }
}

/// The lesser of the number and the other one, where there is one.
fn lesser(n: u32, other: Option<u32>) -> u32
    ensures { result ≡ lesser_of n other }
{
    match other {
        Some(m) => n.min(m),
        None => n,
    }
}
