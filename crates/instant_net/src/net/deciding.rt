//! Which leaves are decided, and which guards are reached, by what was seen of the words.
ghost use Rattle.std.specs.Prelude.{◌≡◌, ◌<◌, ◌&&◌, length, nat_lt, slice_get};
ghost use Rattle.instant_net.specs.Nets.{IsLinkBelow};
ghost use Rattle.instant_net.specs.Opened.{IsNet};
ghost use Rattle.instant_net.specs.Readers.{greatest_stratum, guard_ask_of};
ghost use Rattle.std.specs.List.{list_all};
ghost use Rattle.instant_net.specs.Seen.{is_settled, IsSeenOf};
ghost use Rattle.instant_net.specs.Deciding.{is_decided, is_open, is_passed, is_reached};

use crate::net::Net;
use crate::seen::Seen;
use crate::words::holds;

impl Net {
    /// Whether the leaf is a tell, and each guard above it is passed: the instant runs it, whatever else is told.
    pub fn decided(&self, seen: &Seen, leaf: u32) -> bool
        requires leaf { leaf < length self.now.leaves }
        requires seen { IsSeenOf self.now seen.now }
        ensures { result ≡ is_decided self.now seen.now leaf }
    {
        self.is_tell(leaf) && opens_path(self, seen, self.last_guard(leaf))
    }

    /// Whether each guard above this one is passed: the instant reaches it, whatever else is told.
    pub fn reached(&self, seen: &Seen, guard: u32) -> bool
        requires guard { guard < length self.now.guards }
        requires seen { IsSeenOf self.now seen.now }
        ensures { result ≡ is_reached self.now seen.now guard }
    {
        opens_path(self, seen, self.above(guard))
    }
}

/// Whether this guard, where there is one, and each guard above it is passed.
fn opens_path(net: &Net, seen: &Seen, last: Option<u32>) -> bool
    requires net { IsNet net.now }
    requires there { IsLinkBelow (length net.now.guards) last }
    requires seen { IsSeenOf net.now seen.now }
    ensures { result ≡ is_open net.now seen.now last }
{
    let mut next = last;
    while let Some(guard) = next {
        if !passes(net, seen, guard) {
            return false;
        }
        next = net.above(guard);
    }
    true
}

/// Whether what is seen allows the guard, and whatever else is told will.
fn passes(net: &Net, seen: &Seen, guard: u32) -> bool
    requires guard { guard < length net.now.guards }
    requires seen { IsSeenOf net.now seen.now }
    ensures { result ≡ is_passed net.now seen.now (slice_get net.now.guards guard) }
{
    let held = holds(net, seen.words(), guard);
    if net.is_else(guard) {
        !held && is_at_rest(net, seen, guard)
    } else {
        held
    }
}

/// Whether all that the guard asks for is settled, and its stratum known to be at rest.
fn is_at_rest(net: &Net, seen: &Seen, guard: u32) -> bool
    requires guard { guard < length net.now.guards }
    requires seen { IsSeenOf net.now seen.now }
    ensures { result ≡ (nat_lt (greatest_stratum net.now.cells (guard_ask_of (slice_get net.now.guards guard))) seen.now.known
        && list_all (is_settled net.now.cells seen.now) (guard_ask_of (slice_get net.now.guards guard))) }
{
    net.guard_stratum(guard) < seen.known() && is_ask_settled(net, seen, guard)
}

/// Whether each cell that the guard asks for is settled.
fn is_ask_settled(net: &Net, seen: &Seen, guard: u32) -> bool
    requires guard { guard < length net.now.guards }
    requires seen { IsSeenOf net.now seen.now }
    ensures { result ≡ list_all (is_settled net.now.cells seen.now) (guard_ask_of (slice_get net.now.guards guard)) }
{
    for atom in net.ask(guard) {
        if !seen.is_settled(net, atom.cell) {
            return false;
        }
    }
    true
}
