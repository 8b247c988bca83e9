//! The law of core texts, proved as the contract of a function with no body.
ghost use Rattle.std.specs.Prelude.{◌≡◌, ◌≢◌, ℕ, List};
ghost use Rattle.agent_core.specs.WellFormed.{IsWellFormed};
ghost use Rattle.agent_core.specs.Programs.{CoreProgram};
ghost use Rattle.tdcc_reader.specs.declared.fault.ReadFault.{ReadFault as Fault};
ghost use Rattle.tdcc_reader.specs.declared.fault.ReadFault.TheVariants.{Memory};
ghost use Rattle.core_reader.specs.Readings.{HasCoreVerdict, IsCoreText, RefusesCore};

/// Out of memory aside, each text is one core program, which has all that holds of programs, or it is refused for one
/// reason, and never both.
pub fn core_law()
    ensures some { (text : List ℕ) → HasCoreVerdict text }
    ensures program { (text : List ℕ) (p : CoreProgram) → IsCoreText text p → IsWellFormed p }
    ensures one { (text : List ℕ) (p q : CoreProgram) → IsCoreText text p → IsCoreText text q → p ≡ q }
    ensures one_refusal { (text : List ℕ) (f g : Fault) → f ≢ Memory → g ≢ Memory
        → RefusesCore text f → RefusesCore text g → f ≡ g }
    ensures not_both { (text : List ℕ) (p : CoreProgram) (f : Fault) → f ≢ Memory
        → IsCoreText text p → RefusesCore text f → ⊥ }
{}
