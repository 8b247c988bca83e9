//! How a command ends.

/// How a command ended.
#[derive(Clone, Copy, Debug, PartialEq, Eq)]
pub enum Status {
    /// All was done.
    Ok,
    /// The answer is no.
    No,
    /// The words are no command.
    Usage,
    /// The program was refused.
    Program,
    /// A line of the trace was refused.
    Trace,
    /// More agents were run, over all instants together, than there is fuel for.
    Fuel,
    /// An instant has too many leaves.
    Net,
    /// The source failed.
    Read,
    /// The sink of the answer failed.
    Write,
    /// Memory was short.
    Memory,
}

impl Status {
    ghost use Rattle.std.specs.Prelude.{◌≡◌};
    ghost use Rattle.tdcc_base.specs.Statuses.{status_number};

    /// The exit code of a command that ended so, from 0 to 9.
    pub fn number(self) -> u8
        ensures { result ≡ status_number self }
    {
        match self {
            Status::Ok => 0,
            Status::No => 1,
            Status::Usage => 2,
            Status::Program => 3,
            Status::Trace => 4,
            Status::Fuel => 5,
            Status::Net => 6,
            Status::Read => 7,
            Status::Write => 8,
            Status::Memory => 9,
        }
    }
}
