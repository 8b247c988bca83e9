//! The laws of outputs and runs, each proved as the contract of a function with no body.
ghost use Rattle.agent_laws.specs.Laws.{NextRootsFollow, OutputsAreTold, ProgramHasOneOutput, ProgramHasOneRun, RestsByLeaves, RestsByRoots, RootsAreClosures, RootsHaveOneOutput, SortedIsInOrder, StartsAtRoot};
ghost use Rattle.agent_laws.specs.Worked.{StandsOnItself, StartsEverMore, StartsLaterTwice, TellsByDefault};

/// Closures of a program that a table stratifies have exactly one output on each input, at whatever
/// instant they are started.
pub fn one_output_law()
    ensures { RootsHaveOneOutput }
{}

/// Closures rest under a store and a guess above it exactly where each of their leaves does: where
/// the guess entails no else ask above the leaf, what the leaf tells is in the store and in the guess
/// if the then asks above it are.
pub fn by_leaves_law()
    ensures { RestsByLeaves }
{}

/// After closed stores a program rests exactly where the roots of the instant do, stratified or not.
/// The roots are closures of the program, and at the first instant the root alone.
pub fn by_roots_law()
    ensures rests { RestsByRoots }
    ensures closures { RootsAreClosures }
    ensures first { StartsAtRoot }
{}

/// A list of closures in order: it has those of the list that is sorted, each once, and is the only
/// such list.
pub fn sorted_law()
    ensures { SortedIsInOrder }
{}

/// A program that a table stratifies has exactly one output on each input, after whatever closed
/// stores, and exactly one run on each list of inputs.
pub fn one_run_law()
    ensures output { ProgramHasOneOutput }
    ensures run { ProgramHasOneRun }
{}

/// The roots after one more closed store are those that stay, since a hence started them, and those
/// that the leaves start which the store runs.
pub fn next_roots_law()
    ensures { NextRootsFollow }
{}

/// The output of closures is the input with what the leaves that it runs tell, and no more.
pub fn told_law()
    ensures { OutputsAreTold }
{}

/// What the definitions of strata, roots, leaves and outputs say of four small programs.
pub fn worked_law()
    ensures default { TellsByDefault }
    ensures itself { StandsOnItself }
    ensures later { StartsLaterTwice }
    ensures more { StartsEverMore }
{}
