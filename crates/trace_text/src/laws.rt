//! Laws of lines. Each is a function that computes nothing, and its contract is the law.
ghost use Rattle.std.specs.Prelude.{◌≡◌, ◌≤◌, ℕ, List, All, length};
ghost use Rattle.token_system.specs.Stores.{StoreMap};
ghost use Rattle.agent_core.specs.WellFormed.{IsWellFormed};
ghost use Rattle.agent_core.specs.Programs.{CoreProgram};
ghost use Rattle.agent_core.specs.Stores.{IsInput};
ghost use Rattle.trace_text.specs.Generated.{program_text, trace_lines};
ghost use Rattle.trace_text.specs.Inputs.{GivesInput};
ghost use Rattle.trace_text.specs.Laws.{HasOneReading, HasOwnNames, IsInputPart, IsLine};
ghost use Rattle.trace_text.specs.Limits.{longest_store_line, longest_trace_line};
ghost use Rattle.trace_text.specs.StoreLines.{store_line};

use crate::limits::LONGEST_TRACE_LINE;

/// A line gives exactly one input or has exactly one fault, and not both, so that what `read_input`
/// answers is the only answer, out of memory aside.
pub fn reading_law()
    ensures { (p : CoreProgram) (line : List ℕ) → HasOneReading p line }
{}

/// Where the declared cells have names of their own, the line of a store gives the part of it that
/// is over the declared cells, and two stores over the declared cells have two lines.
pub fn writing_law()
    ensures reads_back { (p : CoreProgram) (v i : StoreMap) → IsWellFormed p → HasOwnNames p
        → IsInputPart p v i → GivesInput p (store_line p v) i }
    ensures two_lines { (p : CoreProgram) (v w : StoreMap) → IsWellFormed p → HasOwnNames p
        → IsInput p v → IsInput p w → store_line p v ≡ store_line p w → v ≡ w }
    ensures short { (p : CoreProgram) (v : StoreMap) → IsWellFormed p → HasOwnNames p → IsInput p v
        → length (store_line p v) ≤ longest_store_line }
{}

/// The limit of the code is the one that the definitions name, and the line of a store is within it.
pub fn limits_law()
    ensures trace_line { LONGEST_TRACE_LINE ≡ longest_trace_line }
    ensures store_line { longest_store_line ≤ longest_trace_line }
{}

/// A generated program is one line, and the trace of a number has so many lines, of three signals
/// each at most.
pub fn generating_law()
    ensures program { (n : ℕ) → IsLine 2000 (program_text n) }
    ensures many { (n : ℕ) → length (trace_lines n) ≡ n }
    ensures lines { (n : ℕ) → All (IsLine 11) (trace_lines n) }
{}
