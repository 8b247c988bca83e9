//! The texts of tokens of local cells.
ghost use Rattle.std.specs.Prelude.{◌≡◌, ◌≤◌, None, Some, length, position, IfOk, IfSome, IsNone, Option, take, drop};
ghost use Rattle.token_system.specs.declared.cell.Token.{Token};
ghost use Rattle.token_system.specs.declared.name.CellName.{CellName};
ghost use Rattle.token_system.specs.Texts.{IsTail};
ghost use Rattle.certificate_text.specs.LocalNames.{local_name_of};
ghost use Rattle.certificate_text.specs.LocalTokens.{begins_tail, name_end, IsLocalTokenText};

use crate::local_name::read_name;
use std::alloc::Global;
use token_system::{CellName, Memory, Token, read_tail};

/// A local cell's name, and the token that is said of it. Only `@0.0=3` says two.
#[derive(Debug, Drop)]
pub struct LocalToken {
    pub name: CellName,
    pub first: Token,
    pub second: Option<Token>,
}

/// The token of the cell of this name, if the bytes are one.
fn marked(alloc: Global, text: &[u8], token: Token) -> Result<Option<LocalToken>, Memory>
    ensures read { IfOk result (λ read. IfSome read (λ t.
        (local_name_of text.now ≡ Some t.name) × (t.first ≡ token) × (t.second ≡ None))) }
    ensures bad { IfOk result (λ read. IsNone read → local_name_of text.now ≡ None) }
{
    match read_name(alloc, text)? {
        Some(name) => Ok(Some(LocalToken {
            name,
            first: token,
            second: None,
        })),
        None => Ok(None),
    }
}

/// The place of the first relation.
fn first_relation(bytes: &[u8]) -> Option<usize>
    ensures place { result ≡ position begins_tail bytes.now }
    ensures within { IfSome result (λ place. place ≤ length bytes.now) }
{
    bytes
        .iter()
        .position(|byte| *byte == b'>' || *byte == b'<' || *byte == b'=')
}

/// Where the name ends: before the first relation.
fn name_len(bytes: &[u8]) -> usize
    ensures value { result ≡ name_end bytes.now }
    ensures within { result ≤ length bytes.now }
{
    match first_relation(bytes) {
        Some(place) => place,
        None => bytes.len(),
    }
}

/// A name, and what follows it.
fn named(alloc: Global, bytes: &[u8]) -> Result<Option<LocalToken>, Memory>
    ensures read { IfOk result (λ read. IfSome read (λ t. IsLocalTokenText bytes.now t.name t.first t.second)) }
    ensures bad { IfOk result (λ read. IsNone read → (name : CellName) (first : Token) (second : Option Token)
        → local_name_of (take (name_end bytes.now) bytes.now) ≡ Some name
        → ¬ (IsTail (drop (name_end bytes.now) bytes.now) first second)) }
{
    let (text, rest) = bytes.split_at(name_len(bytes));
    let Some((first, second)) = read_tail(rest) else {
        return Ok(None);
    };
    match read_name(alloc, text)? {
        Some(name) => Ok(Some(LocalToken {
            name,
            first,
            second,
        })),
        None => Ok(None),
    }
}

/// Reads the whole text of a token of a local cell. Whether a program has such a cell, and whether the token fits it, is not
/// looked at.
pub fn read_local_token(alloc: Global, bytes: &[u8]) -> Result<Option<LocalToken>, Memory>
    ensures read { IfOk result (λ read. IfSome read (λ t. IsLocalTokenText bytes.now t.name t.first t.second)) }
    ensures bad { IfOk result (λ read. IsNone read → (name : CellName) (first : Token) (second : Option Token)
        → ¬ (IsLocalTokenText bytes.now name first second)) }
{
    let Some((mark, text)) = bytes.split_first() else {
        return Ok(None);
    };
    match *mark {
        b'!' => marked(alloc, text, Token::Off),
        b'#' => marked(alloc, text, Token::Clash),
        _ => named(alloc, bytes),
    }
}
