//! The text of a token.
ghost use Rattle.std.specs.Prelude.{◌≡◌, ◌≤◌, ◌++◌, length, OnOk, OnErr};
ghost use Rattle.token_system.specs.Texts.{text_of};

use crate::Memory;
use crate::cell::Token;
use itoa::Buffer;

/// Appends the text of a token of the named cell, as `!s` or `x>=3`. Without memory nothing is appended.
pub fn token_text(name: &[u8], token: Token, into: &mut Vec<u8>) -> Result<(), Memory>
    ensures ok { OnOk result (into.new.items ≡ into.old.items ++ text_of name.now token) }
    ensures err { OnErr result (into.new.items ≡ into.old.items) }
{
    let mut digits = Buffer::new();
    match token {
        Token::On => append(b"", name, b"", b"", into),
        Token::Off => append(b"!", name, b"", b"", into),
        Token::Clash => append(b"#", name, b"", b"", into),
        Token::AtLeast(k) => append(b"", name, b">=", digits.format(k).as_bytes(), into),
        Token::AtMost(k) => append(b"", name, b"<=", digits.format(k).as_bytes(), into),
    }
}

/// Appends the four parts, or nothing.
fn append(
    mark: &[u8],
    name: &[u8],
    relation: &[u8],
    number: &[u8],
    into: &mut Vec<u8>,
) -> Result<(), Memory>
    requires mark_is_short { length mark.now ≤ 1 }
    requires relation_is_short { length relation.now ≤ 2 }
    requires number_is_short { length number.now ≤ 40 }
    ensures ok { OnOk result (into.new.items ≡ into.old.items ++ (mark.now ++ name.now ++ relation.now ++ number.now)) }
    ensures err { OnErr result (into.new.items ≡ into.old.items) }
{
    into.reserve(mark.len() + name.len() + relation.len() + number.len())?;
    into.extend_from_slice(mark)?;
    into.extend_from_slice(name)?;
    into.extend_from_slice(relation)?;
    into.extend_from_slice(number)?;
    Ok(())
}
