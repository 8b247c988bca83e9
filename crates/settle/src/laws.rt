//! A worked example of how often asks are evaluated: a function that computes nothing, and its contract is the law.
ghost use Rattle.std.specs.Prelude.{◌≡◌, ◌+◌, length};
ghost use Rattle.settle.specs.Evaluations.{watching_told};
ghost use Rattle.settle.specs.WorkedChain.{chain, chain_output};

/// A chain of three asks over four signals settles in at most six evaluations: there are three asks, and each of the first
/// three signals is watched by one.
pub fn chain_law()
    ensures { length chain.guards + watching_told chain chain_output chain.leaves ≡ 6 }
{}
