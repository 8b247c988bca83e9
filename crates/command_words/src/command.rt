//! The commands, and the words that call them.
ghost use Rattle.std.specs.Prelude.{ℕ, ◌∷◌, ◌↔◌, IsTrue, MatchOption, codes, map, string_bytes};
ghost use Rattle.command_words.specs.Words.{IsCommand, IsNoCommand, IsWithLines, MaySetWorkers};

use crate::settings::{Limits, Setting, limits_of, number_of, setting_of};

/// The most lines of a generated trace.
pub const MOST_GENERATED_LINES: u32 = 65_536;

/// What the tool is to do.
#[derive(Clone, Copy, Debug, PartialEq, Eq)]
pub enum Command {
    /// Runs the program on the trace, and writes the store of each instant.
    Run(Limits),
    /// Runs the program on the trace, and writes what ran at each instant.
    Report(Limits),
    /// Writes how large the program is, and the stratum of each cell.
    Check,
    /// Writes the core text of the program.
    Core,
    /// Generates a program and a trace of so many lines, runs them, and writes a summary.
    Generate(u32),
}

/// The command that the words call, where they call one. It takes no memory.
pub fn command_of(words: &[String]) -> Option<Command>
    ensures { MatchOption result (IsNoCommand (map string_bytes words.now)) (λ command. IsCommand command (map string_bytes words.now)) }
{
    let (first, more) = words.split_first()?;
    match first.as_str() {
        "run" => Some(Command::Run(limits_of(more)?)),
        "report" => Some(Command::Report(limits_of(more)?)),
        "check" if more.is_empty() => Some(Command::Check),
        "core" if more.is_empty() => Some(Command::Core),
        "gen" => Some(Command::Generate(lines_of(more)?)),
        _ => None,
    }
}

/// The number of lines that the words behind `gen` ask for.
fn lines_of(words: &[String]) -> Option<u32>
    ensures { MatchOption result ((lines : ℕ) → IsWithLines (codes "gen" ∷ map string_bytes words.now) lines → ⊥) (IsWithLines (codes "gen" ∷ map string_bytes words.now)) }
{
    let (number, more) = words.split_first()?;
    match number_of(number.as_str())? {
        lines @ 1..=MOST_GENERATED_LINES if may_set_workers(more) => Some(lines),
        _ => None,
    }
}

/// Whether there are no words, or those of a number of workers.
fn may_set_workers(words: &[String]) -> bool
    ensures { IsTrue result ↔ MaySetWorkers (map string_bytes words.now) }
{
    match words {
        [] => true,
        [flag, number] => matches!(
            setting_of(flag.as_str(), number.as_str()),
            Some(Setting::Workers(_))
        ),
        _ => false,
    }
}
