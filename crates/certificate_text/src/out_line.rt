//! The `out` line of an entry: what an output has of each cell, the local ones included.
ghost use Rattle.std.specs.Prelude.{◌≡◌, ◌++◌, codes, option_copied, slice_get, OnErr, OnOk};
ghost use Rattle.trace_text.specs.Writing.{separated, Grows};
ghost use Rattle.certificate_text.specs.OutLines.{cell_made, local_texts, local_value_texts, out_line};

use crate::in_line::write_behind;
use crate::local_name::write_name;
use crate::local_value::write_value;
use agent_core::{CellDecl, Node, Program};
use std::alloc::Global;
use token_system::{CellName, Memory, Store, Value};

/// The cell that the node makes, if it is a new node.
pub fn made_by(program: &Program, node: u32) -> Option<&CellDecl>
    ensures { option_copied result ≡ cell_made program.now.cells (slice_get program.now.nodes node) }
{
    match program.nodes().get(node as usize) {
        Some(Node::New { cell, .. }) => program.cells().get(*cell as usize),
        _ => None,
    }
}

/// Appends the texts of the local cell of this name that has this value, each with a space before it.
fn write_local(
    alloc: Global,
    program: &Program,
    name: &CellName,
    value: Value,
    into: &mut Vec<u8>,
) -> Result<(), Memory>
    ensures ok { OnOk result (into.new.items ≡ into.old.items ++ separated (codes " ") (local_value_texts program.now name.now value)) }
    ensures err { OnErr result (Grows into.old.items into.new.items) }
{
    let CellName::Local { node, births } = name else {
        return Ok(());
    };
    let Some(decl) = made_by(program, *node) else {
        return Ok(());
    };
    let mut text = Vec::new(alloc);
    write_name(*node, births.list(), &mut text)?;
    write_value(&text, decl.cell, value, into)
}

/// Appends the texts of the local cells, each with a space before it.
fn write_locals(
    alloc: Global,
    program: &Program,
    store: &Store,
    into: &mut Vec<u8>,
) -> Result<(), Memory>
    ensures ok { OnOk result (into.new.items ≡ into.old.items ++ separated (codes " ") (local_texts program.now store.now)) }
    ensures err { OnErr result (Grows into.old.items into.new.items) }
{
    for place in 0..store.len() {
        write_local(
            alloc,
            program,
            store.name_at(place),
            store.kept_at(place),
            into,
        )?;
    }
    Ok(())
}

/// Appends the `out` line of an output, without a line feed: the declared cells of which something is told, and then the
/// local ones by node and by births. Without memory a part of it may be appended.
pub fn write_out(
    alloc: Global,
    program: &Program,
    store: &Store,
    into: &mut Vec<u8>,
) -> Result<(), Memory>
    ensures ok { OnOk result (into.new.items ≡ into.old.items ++ out_line program.now store.now) }
    ensures err { OnErr result (Grows into.old.items into.new.items) }
{
    write_behind(b"out", program, store, into)?;
    write_locals(alloc, program, store, into)
}
