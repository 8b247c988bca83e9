//! What is told of a local cell, as its texts, each with a space before it.
ghost use Rattle.std.specs.Prelude.{◌≡◌, ◌++◌, ◌∷◌, codes, OnErr, OnOk};
ghost use Rattle.token_system.specs.Texts.{text_of};
ghost use Rattle.trace_text.specs.StoreLines.{bound_texts, exact_text, text_if, value_texts};
ghost use Rattle.trace_text.specs.Writing.{separated, Grows};

use itoa::Buffer;
use token_system::{Cell, Memory, Token, Value, bottom, token_text};

/// Appends a space, and the text of a token.
fn write_token(name: &[u8], token: Token, into: &mut Vec<u8>) -> Result<(), Memory>
    ensures ok { OnOk result (into.new.items ≡ into.old.items ++ 32 ∷ text_of name.now token) }
    ensures err { OnErr result (Grows into.old.items into.new.items) }
{
    into.push(b' ')?;
    token_text(name, token, into)
}

/// Appends a space, and the text of both bounds of a number at once.
fn write_exact(name: &[u8], number: i64, into: &mut Vec<u8>) -> Result<(), Memory>
    ensures ok { OnOk result (into.new.items ≡ into.old.items ++ 32 ∷ exact_text name.now number) }
    ensures err { OnErr result (Grows into.old.items into.new.items) }
{
    let mut digits = Buffer::new();
    into.push(b' ')?;
    into.extend_from_slice(name)?;
    into.push(b'=')?;
    into.extend_from_slice(digits.format(number).as_bytes())?;
    Ok(())
}

/// Appends a space, and the text of a token, where the test holds.
fn write_if(test: bool, name: &[u8], token: Token, into: &mut Vec<u8>) -> Result<(), Memory>
    ensures ok { OnOk result (into.new.items ≡ into.old.items ++ separated (codes " ") (text_if test (text_of name.now token))) }
    ensures err { OnErr result (Grows into.old.items into.new.items) }
{
    if test {
        write_token(name, token, into)
    } else {
        Ok(())
    }
}

/// Appends the texts of the bounds of a number, each with a space before it.
fn write_bounds(name: &[u8], cell: Cell, lo: i64, hi: i64, into: &mut Vec<u8>) -> Result<(), Memory>
    ensures ok { OnOk result (into.new.items ≡ into.old.items ++ separated (codes " ") (bound_texts name.now cell.lo cell.hi lo hi)) }
    ensures err { OnErr result (Grows into.old.items into.new.items) }
{
    if lo == hi {
        return write_exact(name, lo, into);
    }
    write_if(cell.lo < lo, name, Token::AtLeast(lo), into)?;
    write_if(hi < cell.hi, name, Token::AtMost(hi), into)
}

/// Appends the texts of the cell of this name that has this value, each with a space before it: none for its bottom.
/// Without memory a part of them may be appended.
pub fn write_value(name: &[u8], cell: Cell, value: Value, into: &mut Vec<u8>) -> Result<(), Memory>
    ensures ok { OnOk result (into.new.items ≡ into.old.items ++ separated (codes " ") (value_texts name.now cell value)) }
    ensures err { OnErr result (Grows into.old.items into.new.items) }
{
    if value == bottom(cell) {
        return Ok(());
    }
    match value {
        Value::Signal { on: true, .. } => write_token(name, Token::On, into),
        Value::Signal { .. } => write_token(name, Token::Off, into),
        Value::Number { lo, hi } => write_bounds(name, cell, lo, hi, into),
        Value::Clash => write_token(name, Token::Clash, into),
    }
}
