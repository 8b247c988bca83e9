//! Reading a token's text.
ghost use Rattle.std.specs.Prelude.{◌≡◌, false, IsErr, IsNone, IfOk, IfSome, IsTrue, Option};
ghost use Rattle.token_system.specs.Texts.{is_name, marked_name, IsNamed, IsTail, IsTokenText};
ghost use Rattle.token_system.specs.declared.cell.Token.{Token};
ghost use Rattle.token_system.specs.declared.reading.Written.{Written};

use crate::cell::Token;
use names_and_numbers::{is_name, read_number, word_len};
use thiserror::Error;

/// What a token's text says: where the name stands in it, and the token that it means. Only `x=3` means two.
#[derive(Clone, Copy, Debug, PartialEq, Eq)]
pub struct Written {
    pub name_start: usize,
    pub name_end: usize,
    pub first: Token,
    pub second: Option<Token>,
}

/// The bytes are no token's text.
#[derive(Clone, Copy, Debug, PartialEq, Eq, Error)]
#[error("bad token")]
pub struct Bad;

/// Reads the whole text of one token.
pub fn read_token(bytes: &[u8]) -> Result<Written, Bad>
    ensures read { IfOk result (IsTokenText bytes.now) }
    ensures bad { IsErr result → (w : Written) → ¬ (IsTokenText bytes.now w) }
{
    let Some((mark, name)) = bytes.split_first() else {
        return Err(Bad);
    };
    match *mark {
        b'!' => marked(name, Token::Off),
        b'#' => marked(name, Token::Clash),
        _ => named(bytes),
    }
}

/// A name alone, after a mark.
fn marked(name: &[u8], token: Token) -> Result<Written, Bad>
    ensures read { IfOk result (λ w. IsTrue (is_name name.now) × (w ≡ marked_name name.now token)) }
    ensures bad { IsErr result → is_name name.now ≡ false }
{
    if !is_name(name) {
        return Err(Bad);
    }
    Ok(Written {
        name_start: 1,
        name_end: name.len() + 1,
        first: token,
        second: None,
    })
}

/// A name with what follows it.
fn named(bytes: &[u8]) -> Result<Written, Bad>
    ensures read { IfOk result (IsNamed bytes.now) }
    ensures bad { IsErr result → (w : Written) → ¬ (IsNamed bytes.now w) }
{
    let name_end = word_len(bytes);
    let (name, rest) = bytes.split_at(name_end);
    if !is_name(name) {
        return Err(Bad);
    }
    match read_tail(rest) {
        Some((first, second)) => Ok(Written {
            name_start: 0,
            name_end,
            first,
            second,
        }),
        None => Err(Bad),
    }
}

/// What follows a name in a token's text: nothing, or a relation and a number. It makes one token, or the two of `=3`.
pub fn read_tail(rest: &[u8]) -> Option<(Token, Option<Token>)>
    ensures read { IfSome result (λ tokens. IsTail rest.now tokens.0 tokens.1) }
    ensures bad { IsNone result → (first : Token) (second : Option Token)
        → ¬ (IsTail rest.now first second) }
{
    let Some((relation, after)) = rest.split_first() else {
        return Some((Token::On, None));
    };
    if *relation == b'=' {
        let k = read_number(after)?;
        return Some((Token::AtLeast(k), Some(Token::AtMost(k))));
    }
    let (equals, digits) = after.split_first()?;
    if *equals != b'=' {
        return None;
    }
    let k = read_number(digits)?;
    match *relation {
        b'>' => Some((Token::AtLeast(k), None)),
        b'<' => Some((Token::AtMost(k), None)),
        _ => None,
    }
}
