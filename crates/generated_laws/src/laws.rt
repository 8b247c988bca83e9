//! The laws of generated programs, each proved as the contract of a function with no body.
ghost use Rattle.std.specs.Prelude.{ℕ, ◌≤◌, List, [], ◌∷◌, ◌++◌, length, All};
ghost use Rattle.token_system.specs.Stores.{StoreMap};
ghost use Rattle.agent_core.specs.Closures.{roots};
ghost use Rattle.agent_core.specs.Leaves.{leaves, ran};
ghost use Rattle.agent_core.specs.Programs.{CoreProgram};
ghost use Rattle.tdcc_reader.specs.declared.dialect.Dialect.TheVariants.{Program};
ghost use Rattle.tdcc_reader.specs.Texts.{ReadsAs};
ghost use Rattle.expansion_laws.specs.Expansions.{IsExpansion};
ghost use Rattle.trace_text.specs.Generated.{program_text, trace_lines};
ghost use Rattle.generated_laws.specs.GeneratedInputs.{IsParted, GivesSomeInput};
ghost use Rattle.generated_laws.specs.GeneratedSurfaces.{surface};
ghost use Rattle.generated_laws.specs.GeneratedTables.{table, IsSmall};

/// No generated program is refused, and no run of one ends before its trace does: the text is read and expanded, each line
/// gives an input, and no instant comes near a limit, whatever was output before it. A surface of a generated text has 32
/// signals, 8 numbers from 0 to 99 and 39 units, with or without a line feed behind the text.
pub fn generated_law()
    ensures reads { (n : ℕ) → ReadsAs Program (program_text n) (surface n) }
    ensures reads_line { (n : ℕ) → ReadsAs Program (program_text n ++ 10 ∷ []) (surface n) }
    ensures built { (n : ℕ) (p : CoreProgram) → IsExpansion (surface n) p → IsSmall p (table n) }
    ensures parted { (n : ℕ) → IsParted n }
    ensures lines { (n : ℕ) (p : CoreProgram) → IsExpansion (surface n) p → All (GivesSomeInput p) (trace_lines n) }
    ensures bounded { (n : ℕ) (p : CoreProgram) (closed : List StoreMap) → IsExpansion (surface n) p
        → length (leaves p (roots p closed) (length closed)) ≤ length p.nodes }
    ensures few_ran { (n : ℕ) (p : CoreProgram) (closed : List StoreMap) (v : StoreMap) → IsExpansion (surface n) p
        → ran p (roots p closed) (length closed) v ≤ length p.nodes }
{}
