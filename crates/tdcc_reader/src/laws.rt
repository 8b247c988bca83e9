//! The laws of refusals, each proved as the contract of a function with no body.
ghost use Rattle.std.specs.Prelude.{◌≡◌, List, ℕ};
ghost use Rattle.tdcc_reader.specs.declared.dialect.Dialect.{Dialect};
ghost use Rattle.tdcc_reader.specs.Laws.{AcceptedIsNotRefused, HasOneRefusal, HasVerdict};
ghost use Rattle.tdcc_reader.specs.Limits as limits;

use crate::dialect::{
    GREATEST_CORE_DEPTH, GREATEST_DEPTH, MOST_CONSTRAINT_TOKENS, MOST_WRITTEN_TOKENS,
};

/// Out of memory aside, each text of a dialect is accepted, with its surface, or it has exactly one refusal, and never
/// both. So what `read_text` answers is all that there is to say of a text, unless it answers `Memory`.
pub fn refusal_law()
    ensures some { (dialect : Dialect) (text : List ℕ) → HasVerdict dialect text }
    ensures one { (dialect : Dialect) (text : List ℕ) → HasOneRefusal dialect text }
    ensures not_both { (dialect : Dialect) (text : List ℕ) → AcceptedIsNotRefused dialect text }
{}

/// The constants of the code are the limits of the definitions.
pub fn limits_law()
    ensures depth { GREATEST_DEPTH ≡ limits.greatest_depth }
    ensures core_depth { GREATEST_CORE_DEPTH ≡ limits.greatest_core_depth }
    ensures written_tokens { MOST_WRITTEN_TOKENS ≡ limits.most_written_tokens }
    ensures constraint_tokens { MOST_CONSTRAINT_TOKENS ≡ limits.most_constraint_tokens }
{}
