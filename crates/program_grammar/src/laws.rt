//! The laws of the grammar: facts about its definitions, each proved as the contract of a function with no body.
ghost use Rattle.std.specs.Prelude.{◌≡◌, ◌⊎◌, ◌↔◌, ℕ, List, [], map};
ghost use Rattle.program_grammar.specs.Alternatives.{AProgram, Begins};
ghost use Rattle.program_grammar.specs.Events.{event_at, numbered, program_events, matched_terms};
ghost use Rattle.program_grammar.specs.Phrases.{ProgramPhrase};
ghost use Rattle.program_grammar.specs.Programs.{BeginsProgram, IsFault, IsProgram};
ghost use Rattle.program_grammar.specs.Spelling.{program};
ghost use Rattle.program_grammar.specs.Terms.{Term};
ghost use Rattle.program_grammar.specs.declared.words.Language.{Language};

/// A list of terms begins a program, by the cases of the grammar's alternatives, exactly where a program goes on from
/// it. So the place of a syntax fault is the length of the longest prefix that begins a program, said either way.
pub fn beginnings_law()
    ensures { (language : Language) (terms : List Term) →
        Begins language AProgram terms ↔ BeginsProgram language terms }
{}

/// The grammar is unambiguous: a list of terms is at most one program.
pub fn unambiguity_law()
    ensures { (p q : ProgramPhrase) → program p [] ≡ program q [] → p ≡ q }
{}

/// The events of a program take its terms, in order and each once. So its steps, each with the term of its place put
/// back, are its events, and a pass over the steps that looks its terms up is a pass over the events.
pub fn places_law()
    ensures terms { (p : ProgramPhrase) → matched_terms (program_events p) ≡ program p [] }
    ensures events { (p : ProgramPhrase) →
        map (event_at (program p [])) (numbered 0 (program_events p)) ≡ program_events p }
{}

/// Each list of terms is a program, or has a syntax fault, at one place, and never both.
pub fn faults_law()
    ensures some { (language : Language) (terms : List Term)
        → IsProgram language terms ⊎ ((place : ℕ) × IsFault language terms place) }
    ensures one { (language : Language) (terms : List Term) (m n : ℕ)
        → IsFault language terms m → IsFault language terms n → m ≡ n }
    ensures not_both { (language : Language) (terms : List Term) (place : ℕ)
        → IsProgram language terms → IsFault language terms place → ⊥ }
{}
