//! Writing the line of a store.
ghost use Rattle.std.specs.Prelude.{◌≡◌, ◌++◌, ◌∷◌, [], option_copied, take, OnErr, OnOk};
ghost use Rattle.token_system.specs.Texts.{text_of};
ghost use Rattle.trace_text.specs.StoreLines.{bound_texts, cell_of_name, cell_texts, exact_text, store_line, text_if, value_texts};
ghost use Rattle.trace_text.specs.Writing.{spaced, Grows};

use agent_core::{CellDecl, Program};
use itoa::Buffer;
use token_system::{Cell, CellName, Memory, Store, Token, Value, bottom, token_text};

/// Writes the text of a token, and a space behind it.
fn write_token(name: &[u8], token: Token, into: &mut Vec<u8>) -> Result<(), Memory>
    ensures ok { OnOk result (into.new.items ≡ into.old.items ++ text_of name.now token ++ 32 ∷ []) }
    ensures err { OnErr result (Grows into.old.items into.new.items) }
{
    token_text(name, token, into)?;
    into.push(b' ')?;
    Ok(())
}

/// Writes the text of both bounds of a number at once, and a space behind it.
fn write_exact(name: &[u8], number: i64, into: &mut Vec<u8>) -> Result<(), Memory>
    ensures ok { OnOk result (into.new.items ≡ into.old.items ++ exact_text name.now number ++ 32 ∷ []) }
    ensures err { OnErr result (Grows into.old.items into.new.items) }
{
    let mut digits = Buffer::new();
    into.extend_from_slice(name)?;
    into.push(b'=')?;
    into.extend_from_slice(digits.format(number).as_bytes())?;
    into.push(b' ')?;
    Ok(())
}

/// Writes the text of a token where the test holds, and a space behind it.
fn write_if(test: bool, name: &[u8], token: Token, into: &mut Vec<u8>) -> Result<(), Memory>
    ensures ok { OnOk result (into.new.items ≡ into.old.items ++ spaced (text_if test (text_of name.now token))) }
    ensures err { OnErr result (Grows into.old.items into.new.items) }
{
    if test {
        write_token(name, token, into)
    } else {
        Ok(())
    }
}

/// Writes the texts of the bounds of a number, each with a space behind it.
fn write_bounds(name: &[u8], cell: Cell, lo: i64, hi: i64, into: &mut Vec<u8>) -> Result<(), Memory>
    ensures ok { OnOk result (into.new.items ≡ into.old.items ++ spaced (bound_texts name.now cell.lo cell.hi lo hi)) }
    ensures err { OnErr result (Grows into.old.items into.new.items) }
{
    if lo == hi {
        return write_exact(name, lo, into);
    }
    write_if(cell.lo < lo, name, Token::AtLeast(lo), into)?;
    write_if(hi < cell.hi, name, Token::AtMost(hi), into)
}

/// Writes the texts of a cell that has this value, each with a space behind it.
fn write_cell(decl: &CellDecl, value: Value, into: &mut Vec<u8>) -> Result<(), Memory>
    ensures ok { OnOk result (into.new.items ≡ into.old.items ++ spaced (value_texts decl.now.name decl.now.cell value)) }
    ensures err { OnErr result (Grows into.old.items into.new.items) }
{
    if value == bottom(decl.cell) {
        return Ok(());
    }
    let name = decl.name.bytes();
    match value {
        Value::Signal { on: true, .. } => write_token(name, Token::On, into),
        Value::Signal { .. } => write_token(name, Token::Off, into),
        Value::Number { lo, hi } => write_bounds(name, decl.cell, lo, hi, into),
        Value::Clash => write_token(name, Token::Clash, into),
    }
}

/// The cell that has this name among the declared ones.
fn declared_cell<'a>(declared: &'a [CellDecl], name: &CellName) -> Option<&'a CellDecl>
    ensures { option_copied result ≡ cell_of_name declared.now name.now }
{
    match name {
        CellName::Declared(number) => declared.get(*number as usize),
        CellName::Local { .. } => None,
    }
}

/// Writes the texts of the declared cells, each with a space behind it. The store's names come in order: the declared
/// ones first, by number.
fn write_cells(program: &Program, store: &Store, into: &mut Vec<u8>) -> Result<(), Memory>
    ensures ok { OnOk result (into.new.items
        ≡ into.old.items ++ spaced (cell_texts 0 (take program.now.declared program.now.cells) store.now)) }
    ensures err { OnErr result (Grows into.old.items into.new.items) }
{
    let declared = &program.cells()[..program.declared() as usize];
    for place in 0..store.len() {
        let Some(decl) = declared_cell(declared, store.name_at(place)) else {
            return Ok(());
        };
        write_cell(decl, store.kept_at(place), into)?;
    }
    Ok(())
}

/// Appends the line of a store, without a line feed: the declared cells of which something is told.
/// Without memory nothing is appended.
pub fn write_store(program: &Program, store: &Store, into: &mut Vec<u8>) -> Result<(), Memory>
    ensures ok { OnOk result (into.new.items ≡ into.old.items ++ store_line program.now store.now) }
    ensures err { OnErr result (into.new.items ≡ into.old.items) }
{
    let start = into.len();
    if let Err(error) = write_cells(program, store, into) {
        into.truncate(start);
        return Err(error);
    }
    // the space behind the last text
    if start < into.len() {
        into.truncate(into.len() - 1);
    }
    Ok(())
}
