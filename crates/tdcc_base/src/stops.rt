//! How the reading of a text or a line ends, and why reading stops.
use thiserror::Error;

/// How the reading of a text ended.
#[derive(Clone, Copy, Debug, PartialEq, Eq)]
pub enum TextEnd {
    /// A line that is a mark stands behind the text.
    Mark,
    /// The input ended with the text.
    End,
}

/// How the reading of a line ended.
#[derive(Clone, Copy, Debug, PartialEq, Eq)]
pub enum LineEnd {
    /// A line was read.
    Line,
    /// No line was left.
    End,
}

/// Why a text or a line was not read.
#[derive(Clone, Copy, Debug, PartialEq, Eq, Error)]
pub enum ReadStop {
    /// The text is longer than 65,536 bytes, or the line than its limit.
    #[error("a text or a line with too many bytes")]
    TooLong,
    /// The source failed.
    #[error("reading failed")]
    Read,
}
