//! From the roots of an instant to those of the next.
ghost use Rattle.std.specs.Prelude.{◌≡◌, IfOk};
ghost use Rattle.instant_net.specs.Words.{store_in, AreWords};
ghost use Rattle.residuals.specs.NextRoots.{next_lists, FollowRoots, IsNetOfRoots};

use crate::closures::{add_copies, copy, sort};
use crate::roots::Roots;
use instant_net::{Net, Words, runs};
use std::alloc::Global;
use token_system::Memory;

/// The roots of the next instant, where the net is that of these roots: those that stay, with the bodies of the hence
/// leaves that the words run, and the bodies of the next leaves that they run. No closure is the body of both a hence and
/// a next.
pub fn next_roots(alloc: Global, net: &Net, roots: &Roots, words: &Words) -> Result<Roots, Memory>
    requires net { IsNetOfRoots net.now roots.now }
    requires words { AreWords net.now.cells words.now }
    ensures lists { IfOk result (λ next. next ≡ next_lists net.now (store_in net.now.cells words.now) roots.now) }
    ensures follow { IfOk result (λ next. FollowRoots net.now (store_in net.now.cells words.now) roots.now next) }
{
    let mut once = Vec::new(alloc);
    let mut stay = Vec::new(alloc);
    add_copies(&mut stay, roots.stay())?;
    for leaf in 0..net.leaves() {
        let Some(body) = net.starts(leaf) else {
            continue;
        };
        if runs(net, words, leaf) {
            let started = copy(body)?;
            if net.is_hence(leaf) {
                stay.push(started)?;
            } else {
                once.push(started)?;
            }
        }
    }
    sort(&mut once)?;
    sort(&mut stay)?;
    Ok(Roots::make(once, stay))
}
