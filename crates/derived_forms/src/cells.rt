//! The cells of a symbolic agent's program.
ghost use Rattle.std.specs.Prelude.{◌≡◌, ◌+◌, ◌<◌, ◌^◌, ◌++◌, IfOk, length, slice_get, take, unwrap_or};
ghost use Rattle.expansion_laws.specs.Numbering.{cells_from, hidden};

use agent_core::{CellDecl, Name};
use itoa::Buffer;
use std::alloc::{AllocError, Global};
use token_system::{Cell, Kind};

/// The cell with memory of its own.
fn cell_copy(alloc: Global, decl: &CellDecl) -> Result<CellDecl, AllocError>
    ensures { IfOk result (λ copy. copy ≡ decl.now) }
{
    Ok(CellDecl {
        name: Name::make(decl.name.bytes().to_vec(alloc)?),
        cell: decl.cell,
    })
}

/// The hidden signal with this number.
fn hidden(alloc: Global, number: u32) -> Result<CellDecl, AllocError>
    ensures { IfOk result (λ decl. decl ≡ hidden number) }
{
    let mut digits = Buffer::new();
    let mut name = b"$".to_vec(alloc)?;
    name.extend_from_slice(digits.format(number).as_bytes())?;
    Ok(CellDecl {
        name: Name::make(name),
        cell: Cell {
            kind: Kind::Signal,
            lo: 0,
            hi: 0,
        },
    })
}

/// The cell with this binder and number: a copy of the surface's cell, or a hidden one.
fn cell_of(
    alloc: Global,
    cells: &[CellDecl],
    binder: u32,
    number: u32,
) -> Result<CellDecl, AllocError>
    ensures { IfOk result (λ decl. decl ≡ unwrap_or (slice_get cells.now binder) (hidden number)) }
{
    match cells.get(binder as usize) {
        Some(decl) => cell_copy(alloc, decl),
        None => hidden(alloc, number),
    }
}

/// The declared cells of a surface with these cells, and then one for each binder.
pub(crate) fn number_cells(
    alloc: Global,
    cells: &[CellDecl],
    declared: u32,
    binders: &[u32],
) -> Result<Vec<CellDecl>, AllocError>
    requires { declared + length binders.now < 2 ^ 32 }
    ensures { IfOk result (λ made. made.items ≡ take declared cells.now ++ cells_from cells.now declared binders.now) }
{
    let mut made = Vec::new(alloc);
    for decl in cells.iter().take(declared as usize) {
        made.push(cell_copy(alloc, decl)?)?;
    }
    let mut number = declared;
    for binder in binders {
        made.push(cell_of(alloc, cells, *binder, number)?)?;
        number += 1;
    }
    Ok(made)
}
