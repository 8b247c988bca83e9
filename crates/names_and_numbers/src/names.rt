//! Names: a letter, then letters, digits and `_`.
ghost use Rattle.std.specs.Prelude.{◌≡◌};
ghost use Rattle.std.specs.List.{list_all};
ghost use Rattle.names_and_numbers.specs.Names.{is_name, is_word_byte};

use crate::letters::{is_letter, is_word_byte};
use crate::limits::LONGEST_NAME;

/// Whether each byte may stand in a word, behind its first byte.
fn are_word_bytes(bytes: &[u8]) -> bool
    ensures { result ≡ list_all is_word_byte bytes.now }
{
    bytes.iter().all(|byte| is_word_byte(*byte))
}

/// Whether the bytes are a name: a letter, then letters, digits and `_`, [`LONGEST_NAME`] bytes at most. A name may be a
/// keyword of programs.
pub fn is_name(bytes: &[u8]) -> bool
    ensures { result ≡ is_name bytes.now }
{
    let Some((first, rest)) = bytes.split_first() else {
        return false;
    };
    is_letter(*first) && are_word_bytes(rest) && bytes.len() <= LONGEST_NAME
}
