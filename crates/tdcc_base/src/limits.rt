//! How long texts and lines may be, and how much is read at once.
ghost use Rattle.std.specs.Prelude.{◌≡◌};
ghost use Rattle.tdcc_base.specs.Limits.{longest_text, longest_line, read_size, room_for_text};

/// The greatest number of bytes of a program text.
pub const LONGEST_TEXT: usize = 65_536;

/// The greatest number of bytes of a line of a trace, without its line feed.
pub const LONGEST_LINE: usize = 32_768;

/// The number of bytes that each read of a source asks for.
pub const READ_SIZE: usize = 4_096;

/// Room for the longest text, and for the longest mark behind it.
pub(crate) const TEXT_ROOM: usize = LONGEST_TEXT + 3;

/// The constants are the numbers that the contracts speak of.
pub fn limits_law()
    ensures text { LONGEST_TEXT ≡ longest_text }
    ensures line { LONGEST_LINE ≡ longest_line }
    ensures read { READ_SIZE ≡ read_size }
    ensures room { TEXT_ROOM ≡ room_for_text }
{}
