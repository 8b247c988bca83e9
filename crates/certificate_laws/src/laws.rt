//! The laws of certificates, each proved as the contract of a function with no body.
ghost use Rattle.std.specs.Prelude.{ℕ, List};
ghost use Rattle.token_system.specs.Stores.{StoreMap};
ghost use Rattle.agent_core.specs.Programs.{CoreProgram};
ghost use Rattle.agent_core.specs.Leaves.{Leaf};
ghost use Rattle.certificate_laws.specs.Reasons.{HasExactReasons};
ghost use Rattle.certificate_laws.specs.Laws.{CertifiedAreOutputs, CertifiedRunsAreRuns, OutputsAreCertified};
ghost use Rattle.certificate_laws.specs.Worked.{HasTwoOutputs, SupportsItself};

/// What a certificate shows is an output of the closures on the input, stratified or not.
pub fn certified_law()
    ensures { CertifiedAreOutputs }
{}

/// Each output of closures has a certificate, stratified or not. With `certified_law`: the outputs are
/// exactly what has one.
pub fn outputs_law()
    ensures { OutputsAreCertified }
{}

/// Stores of which each instant has a certificate, at the roots that the outputs before it leave, are
/// a run of the program, stratified or not.
pub fn runs_law()
    ensures { CertifiedRunsAreRuns }
{}

/// Where the walk along the numbers ends with the output and no number is left out, they are a certificate; of a certificate
/// nothing is wrong; and of no numbers two things are the first that is wrong.
pub fn reasons_law()
    ensures { (p : CoreProgram) (ls : List Leaf) (i v : StoreMap) (numbers : List ℕ) → HasExactReasons p ls i v numbers }
{}

/// What the definitions say of two small programs: one has two outputs on one input, with a
/// certificate of each; in the other two leaves support one another, and no order is a certificate.
pub fn worked_law()
    ensures two { HasTwoOutputs }
    ensures circle { SupportsItself }
{}
