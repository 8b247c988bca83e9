//! The laws of core texts, each proved as the contract of a function with no body.
ghost use Rattle.std.specs.Prelude.{◌≡◌, ◌⊎◌, ℕ, List, Result};
ghost use Rattle.agent_core.specs.WellFormed.{IsWellFormed};
ghost use Rattle.agent_core.specs.Programs.{CoreProgram};
ghost use Rattle.core_text.specs.CoreTexts.{core_text};
ghost use Rattle.core_text.specs.GoodNames.{HasGoodNames};
ghost use Rattle.tdcc_reader.specs.declared.fault.ReadFault.{ReadFault};
ghost use Rattle.tdcc_reader.specs.declared.fault.ReadFault.TheVariants.{Memory};
ghost use Rattle.core_reader.specs.Readings.{IsCoreText, MayAnswer};
ghost use Rattle.core_text_laws.specs.Spelled.{IsSpelled};

/// The core text of a program with good names is that program in the core language.
pub fn spelling_law()
    ensures { (p : CoreProgram) → IsWellFormed p → HasGoodNames p → IsSpelled (core_text p) p }
{}

/// A text is at most one program of the core language, so programs with good names and one core text are one.
pub fn reading_law()
    ensures text { (text : List ℕ) (p q : CoreProgram) → IsWellFormed p → IsWellFormed q
        → IsSpelled text p → IsSpelled text q → p ≡ q }
    ensures printed { (p q : CoreProgram) → IsWellFormed p → IsWellFormed q → HasGoodNames p → HasGoodNames q
        → core_text p ≡ core_text q → p ≡ q }
{}

/// What is written of a program is read back: the core text of a program with good names is that core program, within
/// all limits, so whatever `read_core` may answer of it is the program, or that memory ran out.
pub fn reading_back_law()
    ensures text { (p : CoreProgram) → IsWellFormed p → HasGoodNames p → IsCoreText (core_text p) p }
    ensures answer { (p : CoreProgram) → IsWellFormed p → HasGoodNames p
        → (answer : Result CoreProgram ReadFault) → MayAnswer (core_text p) answer
        → (answer ≡ Ok p) ⊎ (answer ≡ Err Memory) }
{}
