//! What a worker has in hand.

/// The leaf in hand, by its number.
#[derive(Clone, Copy, Debug, PartialEq, Eq)]
pub enum Hand {
    /// There is none.
    Empty,
    /// It is announced, and not yet claimed.
    Announced(u32),
    /// It is claimed, and its tokens from the given one on are left to post.
    Claimed(u32, u32),
}
