//! The law of the size of core texts, proved as the contract of a function with no body.
ghost use Rattle.std.specs.Prelude.{◌≤◌, length};
ghost use Rattle.agent_core.specs.WellFormed.{IsWellFormed};
ghost use Rattle.agent_core.specs.Programs.{CoreProgram};
ghost use Rattle.program_lexemes.specs.Limits.{longest_core_text};
ghost use Rattle.core_text.specs.CoreTexts.{core_text};
ghost use Rattle.core_text.specs.GoodNames.{HasGoodNames};

/// The core text of a program with good names is no longer than a core text may be: a program has at most
/// [`agent_core::MAX_NODES`] nodes, none of which writes more than 1,000 bytes, and [`agent_core::MAX_DECLARED`] declared
/// cells, none of which writes more than 64.
pub fn length_law()
    ensures { (p : CoreProgram) → IsWellFormed p → HasGoodNames p → length (core_text p) ≤ longest_core_text }
{}
