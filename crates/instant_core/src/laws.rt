//! Laws of an instant's steps. Each is a function that computes nothing, and its contract is the law.
ghost use Rattle.instant_core.specs.Laws.{OpeningHolds, StepsKeep};

/// The invariant holds at the opening.
pub fn opening_law()
    ensures { OpeningHolds }
{}

/// Each lawful step keeps it.
pub fn steps_law()
    ensures { StepsKeep }
{}
