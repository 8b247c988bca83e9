//! The law of what `core` writes, proved as the contract of a function.
ghost use Rattle.std.specs.Prelude.{◌≡◌, ◌⊎◌, ℕ, List, Result};
ghost use Rattle.agent_core.specs.Programs.{CoreProgram};
ghost use Rattle.core_text.specs.CoreTexts.{core_text};
ghost use Rattle.tdcc_reader.specs.declared.fault.ReadFault.{ReadFault};
ghost use Rattle.tdcc_reader.specs.declared.fault.ReadFault.TheVariants.{Memory};
ghost use Rattle.core_reader.specs.Readings.{IsCoreText, MayAnswer};
ghost use Rattle.tdcc_tool.specs.Accepted.{IsTextOf};

/// What `tdcc core` writes of a text reads as exactly the program that the text is: the core text of
/// that program is that program and no other, so a reader of core texts answers it, or that its
/// memory ran out.
pub fn core_law()
    ensures read_back { (text : List ℕ) (p : CoreProgram) → IsTextOf text p → IsCoreText (core_text p) p }
    ensures complete { (text : List ℕ) (p q : CoreProgram) → IsTextOf text p → IsCoreText (core_text p) q → q ≡ p }
    ensures answer { (text : List ℕ) (p : CoreProgram) → IsTextOf text p
        → (answer : Result CoreProgram ReadFault) → MayAnswer (core_text p) answer
        → (answer ≡ Ok p) ⊎ (answer ≡ Err Memory) }
{}
