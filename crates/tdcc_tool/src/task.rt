//! What is to be done with a program text.
ghost use Rattle.std.specs.Prelude.{◌≡◌};
ghost use Rattle.tdcc_tool.specs.Tasks as tasks;

use crate::output::OutputMode;
use command_words::{Command, DEFAULT_FUEL, DEFAULT_NET, Limits};

/// The limits of a generated run.
const DEFAULT_LIMITS: Limits = Limits {
    fuel: DEFAULT_FUEL,
    net: DEFAULT_NET,
};

/// What is to be done with a program text, and the trace behind it.
#[derive(Clone, Copy, Debug, PartialEq, Eq)]
pub enum Task {
    /// Run the program on the trace within the limits, and write this.
    Run(OutputMode, Limits),
    /// Write how large the program is, and the stratum of each cell.
    Check,
    /// Write the core text of the program.
    Core,
}

/// What a command does with its program text.
pub fn task_of(command: Command) -> Task
    ensures { result ≡ tasks.task_of command }
{
    match command {
        Command::Run(limits) => Task::Run(OutputMode::Stores, limits),
        Command::Report(limits) => Task::Run(OutputMode::Reports, limits),
        Command::Check => Task::Check,
        Command::Core => Task::Core,
        Command::Generate(_) => Task::Run(OutputMode::Summary, DEFAULT_LIMITS),
    }
}
