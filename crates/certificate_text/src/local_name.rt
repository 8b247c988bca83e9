//! The names of local cells, as certificates have them: `@3.0.1`.
ghost use Rattle.std.specs.Prelude.{◌≡◌, ◌++◌, ◌∷◌, None, Some, IfOk, IfSome, IsNone, OnErr, OnOk, decimal};
ghost use Rattle.std.specs.List.{slice_split};
ghost use Rattle.certificate_text.specs.LocalNames.{is_dot, local_name_of, local_text, naturals_of};
ghost use Rattle.trace_text.specs.Writing.{Grows};

use itoa::Buffer;
use names_and_numbers::read_natural;
use std::alloc::Global;
use token_system::{Births, CellName, Memory};

/// The numbers that stand between dots, if each part is one.
fn read_numbers(alloc: Global, text: &[u8]) -> Result<Option<Vec<u32>>, Memory>
    ensures read { IfOk result (λ read. IfSome read (λ numbers. naturals_of (slice_split is_dot text.now) ≡ Some numbers.items)) }
    ensures none { IfOk result (λ read. IsNone read → naturals_of (slice_split is_dot text.now) ≡ None) }
{
    let mut numbers = Vec::new(alloc);
    for part in text.split(|byte| *byte == b'.') {
        let Some(number) = read_natural(part) else {
            return Ok(None);
        };
        numbers.push(number)?;
    }
    Ok(Some(numbers))
}

/// Reads the name of a local cell: the name that the bytes are, whether or not a program has such a cell. A number has
/// up to nine digits, and may begin with zeros; the name as a whole may have any length.
pub fn read_name(alloc: Global, bytes: &[u8]) -> Result<Option<CellName>, Memory>
    ensures { IfOk result (λ found. found ≡ local_name_of bytes.now) }
{
    let Some((b'@', rest)) = bytes.split_first() else {
        return Ok(None);
    };
    let Some(numbers) = read_numbers(alloc, rest)? else {
        return Ok(None);
    };
    match numbers.split_first() {
        Some((node, births)) => Ok(Some(CellName::Local {
            node: *node,
            births: Births::from_slice(alloc, births)?,
        })),
        None => Ok(None),
    }
}

/// Appends a byte and a number behind it.
fn write_number(mark: u8, number: u32, into: &mut Vec<u8>) -> Result<(), Memory>
    ensures ok { OnOk result (into.new.items ≡ into.old.items ++ mark ∷ decimal number) }
    ensures err { OnErr result (Grows into.old.items into.new.items) }
{
    let mut digits = Buffer::new();
    into.push(mark)?;
    into.extend_from_slice(digits.format(number).as_bytes())?;
    Ok(())
}

/// Appends the name of the cell of this new node under these births. Without memory a part of it may be appended.
pub fn write_name(node: u32, births: &[u32], into: &mut Vec<u8>) -> Result<(), Memory>
    ensures ok { OnOk result (into.new.items ≡ into.old.items ++ local_text node births.now) }
    ensures err { OnErr result (Grows into.old.items into.new.items) }
{
    write_number(b'@', node, into)?;
    for birth in births {
        write_number(b'.', *birth, into)?;
    }
    Ok(())
}
