//! Laws of words. Each is a function that computes nothing, and its contract is the law.
ghost use Rattle.std.specs.Prelude.{◌≡◌, ◌≤◌, ◌++◌, List, ℕ};
ghost use Rattle.command_words.specs.declared.command.Command.{Command};
ghost use Rattle.command_words.specs.declared.settings.Limits.{Limits};
ghost use Rattle.command_words.specs.Limits as most;
ghost use Rattle.command_words.specs.Settings.{GiveLimits};
ghost use Rattle.command_words.specs.Words.{CallAlike, IsCommand, SetsWorkers};

use crate::command::MOST_GENERATED_LINES;
use crate::settings::{
    DEFAULT_FUEL, DEFAULT_NET, GREATEST_FUEL, GREATEST_NET, MOST_WORD_DIGITS, MOST_WORKERS,
};

/// Words are those of one command at most.
pub fn command_law()
    ensures { (words : List (List ℕ)) (a b : Command) → IsCommand a words → IsCommand b words → a ≡ b }
{}

/// The number of workers is of no account: words with another number call the same commands, and words that call
/// a command call the same one where that setting is left out.
pub fn workers_law()
    ensures number { (front more workers others : List (List ℕ)) → SetsWorkers workers → SetsWorkers others
        → CallAlike (front ++ workers ++ more) (front ++ others ++ more) }
    ensures left_out { (front more workers : List (List ℕ)) (command : Command) → SetsWorkers workers
        → IsCommand command (front ++ workers ++ more) → CallAlike (front ++ workers ++ more) (front ++ more) }
{}

/// The greatest numbers and the defaults of the code are those that the definitions name, and the limits that words
/// give are at most the greatest.
pub fn limits_law()
    ensures digits { MOST_WORD_DIGITS ≡ most.most_word_digits }
    ensures workers { MOST_WORKERS ≡ most.most_workers }
    ensures lines { MOST_GENERATED_LINES ≡ most.most_generated_lines }
    ensures fuels { GREATEST_FUEL ≡ most.greatest_fuel }
    ensures default_fuel { DEFAULT_FUEL ≡ most.default_fuel }
    ensures leaves { GREATEST_NET ≡ most.greatest_net }
    ensures default_leaves { DEFAULT_NET ≡ most.default_net }

    // The limits that words give are no greater.
    ensures fuel { (words : List (List ℕ)) (limits : Limits) → GiveLimits words limits → limits.fuel ≤ most.greatest_fuel }
    ensures net { (words : List (List ℕ)) (limits : Limits) → GiveLimits words limits → limits.net ≤ most.greatest_net }
{}
