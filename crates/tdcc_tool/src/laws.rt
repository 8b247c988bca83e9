//! The laws of the tool's answers, each proved as the contract of a function.
ghost use Rattle.std.specs.Prelude.{◌≡◌, List, ℕ};
ghost use Rattle.tdcc_base.specs.Limits.{longest_line, longest_text};
ghost use Rattle.program_lexemes.specs.Limits.{longest_program_text};
ghost use Rattle.agent_core.specs.Limits.{most_instants};
ghost use Rattle.instant_net.specs.Limits.{most_leaves};
ghost use Rattle.trace_text.specs.Limits.{longest_trace_line};
ghost use Rattle.command_words.specs.Limits.{greatest_net, most_generated_lines};
ghost use Rattle.tdcc_tool.specs.Answers.{HaveOneAnswer};
ghost use Rattle.tdcc_tool.specs.Laws.{AcceptedHaveOneOutput, AcceptedHaveOneRun, DifferInWorkers, HaveAnswer, HaveSameAnswers};

use command_words::{command_of, workers_law as same_command_law};

/// The words and the bytes of the source have exactly one answer, so that the answer that `tdcc`
/// gives is the only one.
pub fn answer_law(words: &[String])
    ensures some { (bytes : List ℕ) → HaveAnswer words.now bytes }
    ensures one { (bytes : List ℕ) → HaveOneAnswer words.now bytes }
{
    let _ = command_of(words);
}

/// The number of workers changes no answer.
pub fn workers_law(words: &[String], others: &[String])
    ensures { DifferInWorkers words.now others.now → HaveSameAnswers words.now others.now }
{
    same_command_law();
    // The law speaks of the words, and nothing is done with them.
    let _ = words.len();
    let _ = others.len();
}

/// The program of an accepted text has exactly one output at each instant, after whatever closed stores,
/// and exactly one run on each list of inputs.
pub fn output_law(text: &[u8])
    ensures output { AcceptedHaveOneOutput text.now }
    ensures run { AcceptedHaveOneRun text.now }
{
    let _ = text.len();
}

/// Limits that crates below state each for itself, since neither stands on the other, are the same.
pub fn shared_limits_law()
    ensures text { longest_text ≡ longest_program_text }
    ensures line { longest_line ≡ longest_trace_line }
    ensures net { greatest_net ≡ most_leaves }
    ensures lines { most_generated_lines ≡ most_instants }
{}
