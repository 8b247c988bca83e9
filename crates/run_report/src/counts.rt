//! What is counted of an instant.
ghost use Rattle.std.specs.Prelude.{◌≡◌, ◌+◌, ◌^◌, ◌<◌, ◌&&◌, not, if◌then◌else◌};

/// The counts of an instant.
#[derive(Clone, Copy, Debug, PartialEq, Eq)]
pub struct Report {
    /// The leaves that the output runs.
    pub ran: u64,
    /// The elses that are reached whose constraint the output does not entail.
    pub confirmed: u64,
    /// The elses that are reached whose constraint it entails.
    pub refuted: u64,
    /// The thens that are reached whose constraint it does not entail.
    pub parked: u64,
    /// The roots of the next instant.
    pub next: u64,
}

impl Report {
    /// Counts one more ask that is reached: an else's or a then's, which the output entails or does not.
    pub(crate) fn count(&mut self, is_else: bool, entailed: bool)
        requires confirmed { self.old.confirmed + 1 < 2 ^ 64 }
        requires refuted { self.old.refuted + 1 < 2 ^ 64 }
        requires parked { self.old.parked + 1 < 2 ^ 64 }
        ensures confirmed { self.new.confirmed ≡ self.old.confirmed + (if is_else && not entailed then 1 else 0) }
        ensures refuted { self.new.refuted ≡ self.old.refuted + (if is_else && entailed then 1 else 0) }
        ensures parked { self.new.parked ≡ self.old.parked + (if not is_else && not entailed then 1 else 0) }
        ensures ran { self.new.ran ≡ self.old.ran }
        ensures next { self.new.next ≡ self.old.next }
    {
        match (is_else, entailed) {
            (true, false) => self.confirmed += 1,
            (true, true) => self.refuted += 1,
            (false, false) => self.parked += 1,
            (false, true) => {}
        }
    }
}
