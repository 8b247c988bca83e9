//! The steps of workers.

/// One atomic step of a worker. Workers, words and leaves are numbered from 0, words in the order of a net's; a step may
/// name one that is not there.
#[derive(Clone, Copy, Debug, PartialEq, Eq)]
pub enum CoreStep {
    /// Loads a word of the store.
    Load { worker: u32, word: u32 },
    /// Looks whether a leaf is claimed.
    Seek { worker: u32, leaf: u32 },
    /// Announces a leaf that is decided, and takes it in hand.
    Announce { worker: u32, leaf: u32 },
    /// Claims the leaf in hand.
    Claim { worker: u32, leaf: u32 },
    /// Tells the next token of the leaf in hand.
    Post { worker: u32 },
    /// Puts the leaf in hand down, of which no token is left.
    Finish { worker: u32 },
    /// Reads how many leaves are announced, and how many of these are in flight.
    Count { worker: u32 },
    /// Loads the phase.
    Phase { worker: u32 },
    /// Raises the phase.
    Raise { worker: u32, phase: u32 },
    /// Starts another worker.
    Split { worker: u32, other: u32 },
    /// Ends another worker, and takes over what it knows.
    Join { worker: u32, other: u32 },
}
