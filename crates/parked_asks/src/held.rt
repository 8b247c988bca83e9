//! Which asks hold, and which of them were found to hold but not yet looked below.
ghost use Rattle.std.specs.Prelude.{◌≡◌, ◌<◌, ◌++◌, ◌∷◌, [], false, true, IfNone, IfOk, length, option_to_list, replicate, set, slice_index_or};

use std::alloc::Global;
use std::marker::Model;
use token_system::Memory;

/// For each guard whether its ask was found to hold, and the guards below which leaves are still to be looked at. Noting
/// one more takes no memory, since a guard is noted once.
#[derive(Debug, Drop)]
pub struct HeldAsks {
    held: Vec<bool>,
    due: Vec<u32>,
}

impl Model for HeldAsks {
    ghost use Rattle.std.specs.Prelude.{◌+◌, ◌≤◌, length, vec_capacity};
    ghost use Rattle.parked_asks.specs.Held.{Held, unheld};

    ghost Value = { Held };

    ghost view = { λ h. record { held = h.held.items; due = h.due.items } };

    ghost invariant = { λ h. (length h.due.items + unheld h.held.items ≤ length h.held.items) × (length h.held.items ≤ vec_capacity h.due) };
}

impl HeldAsks {
    /// Of so many guards, none.
    pub(crate) fn none(alloc: Global, guards: u32) -> Result<HeldAsks, Memory>
        ensures held { IfOk result (λ asks. asks.held ≡ replicate guards false) }
        ensures due { IfOk result (λ asks. asks.due ≡ []) }
    {
        let due = Vec::with_capacity(alloc, guards as usize)?;
        let held = vec![in alloc; false; guards as usize]?;
        Ok(HeldAsks { held, due })
    }

    /// Forgets below which guards leaves are still to be looked at.
    pub fn forget_due(&mut self)
        ensures held { self.new.held ≡ self.old.held }
        ensures due { self.new.due ≡ [] }
    {
        self.due.clear();
    }

    /// Whether the guard's ask was found to hold.
    pub fn is_held(&self, guard: u32) -> bool
        requires { guard < length self.now.held }
        ensures { result ≡ slice_index_or self.now.held guard false }
    {
        self.held[guard as usize]
    }

    /// Notes whether the guard's ask holds, where no leaf is to be looked at for it.
    pub fn note(&mut self, guard: u32, holds: bool)
        requires there { guard < length self.old.held }
        requires none_due { self.old.due ≡ [] }
        ensures held { self.new.held ≡ set self.old.held guard holds }
        ensures due { self.new.due ≡ [] }
    {
        self.held[guard as usize] = holds;
    }

    /// Notes that the guard's ask holds from now on, and that the leaves below it are to be looked at.
    pub fn wake(&mut self, guard: u32)
        requires there { guard < length self.old.held }
        requires parked { slice_index_or self.old.held guard false ≡ false }
        ensures held { self.new.held ≡ set self.old.held guard true }
        ensures due { self.new.due ≡ self.old.due ++ guard ∷ [] }
    {
        self.held[guard as usize] = true;
        match self.due.push(guard) {
            Ok(()) => {}
            Err(_) => unreachable!(),
        }
    }

    /// Takes the last guard that was noted so, where there is one.
    pub fn next_due(&mut self) -> Option<u32>
        ensures held { self.new.held ≡ self.old.held }
        ensures due { self.old.due ≡ self.new.due ++ option_to_list result }
        ensures none { IfNone result (self.old.due ≡ []) }
    {
        self.due.pop()
    }
}
