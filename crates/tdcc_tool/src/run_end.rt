//! How a run ends.
ghost use Rattle.std.specs.Prelude.{◌≡◌};
ghost use Rattle.tdcc_tool.specs.RunEnds.{status_of};

use tdcc_base::Status;
use trace_text::LineFault;

/// How a run ends.
#[derive(Clone, Copy, Debug, PartialEq, Eq)]
pub enum RunEnd {
    /// Every line of the trace was answered.
    Completed,
    /// A line gives no input, for this fault.
    BadLine { fault: LineFault },
    /// There is a line more than a run may have instants.
    TooManyLines,
    /// The instant has more leaves than it may have: so many.
    NetFull { leaves: u64 },
    /// With the instant, more agents ran than may run in all: so many.
    FuelSpent { agents: u64 },
}

impl RunEnd {
    /// The status of a call whose run ends so.
    pub fn status(self) -> Status
        ensures { result ≡ status_of self }
    {
        match self {
            RunEnd::Completed => Status::Ok,
            RunEnd::BadLine { .. } => Status::Trace,
            RunEnd::TooManyLines => Status::Trace,
            RunEnd::NetFull { .. } => Status::Net,
            RunEnd::FuelSpent { .. } => Status::Fuel,
        }
    }
}
