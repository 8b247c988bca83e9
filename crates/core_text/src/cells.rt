//! The text of a cell, as it is declared.
ghost use Rattle.std.specs.Prelude.{◌≡◌, ◌++◌, OnOk};
ghost use Rattle.core_text.specs.CoreTexts.{domain_text, decl_text, decl_lines, decl_at, name_at};

use agent_core::CellDecl;
use itoa::Buffer;
use token_system::{Cell, Kind, Memory};

/// Appends the domain of a number, as `0..10`.
fn write_domain(cell: Cell, into: &mut Vec<u8>) -> Result<(), Memory>
    ensures { OnOk result (into.new.items ≡ into.old.items ++ domain_text cell) }
{
    let mut digits = Buffer::new();
    into.extend_from_slice(digits.format(cell.lo).as_bytes())?;
    into.extend_from_slice(b"..")?;
    into.extend_from_slice(digits.format(cell.hi).as_bytes())?;
    Ok(())
}

/// Appends a cell with its kind, as `signal a` or `int x in 0..10`.
fn write_decl(decl: &CellDecl, into: &mut Vec<u8>) -> Result<(), Memory>
    ensures { OnOk result (into.new.items ≡ into.old.items ++ decl_text decl.now) }
{
    match decl.cell.kind {
        Kind::Signal => {
            into.extend_from_slice(b"signal ")?;
            into.extend_from_slice(decl.name.bytes())?;
        }
        Kind::Number => {
            into.extend_from_slice(b"int ")?;
            into.extend_from_slice(decl.name.bytes())?;
            into.extend_from_slice(b" in ")?;
            write_domain(decl.cell, into)?;
        }
    }
    Ok(())
}

/// Appends a line for each of these cells.
pub(crate) fn write_decls(cells: &[CellDecl], into: &mut Vec<u8>) -> Result<(), Memory>
    ensures { OnOk result (into.new.items ≡ into.old.items ++ decl_lines cells.now) }
{
    for decl in cells {
        write_decl(decl, into)?;
        into.extend_from_slice(b";\n")?;
    }
    Ok(())
}

/// Appends the cell with this number, as it is declared.
pub(crate) fn write_decl_at(
    cells: &[CellDecl],
    number: u32,
    into: &mut Vec<u8>,
) -> Result<(), Memory>
    ensures { OnOk result (into.new.items ≡ into.old.items ++ decl_at cells.now number) }
{
    match cells.get(number as usize) {
        Some(decl) => write_decl(decl, into),
        None => Ok(()),
    }
}

/// The name of the cell with this number.
pub(crate) fn name_at(cells: &[CellDecl], number: u32) -> &[u8]
    ensures { result.now ≡ name_at cells.now number }
{
    match cells.get(number as usize) {
        Some(decl) => decl.name.bytes(),
        None => b"",
    }
}
