//! The `in` line of an entry: what is told from outside.
ghost use Rattle.std.specs.Prelude.{◌≡◌, ◌≤◌, ◌++◌, ◌∷◌, [], List, codes, length, IfErr, IfOk, OnErr, OnOk};
ghost use Rattle.agent_core.specs.Stores.{IsStore};
ghost use Rattle.trace_text.specs.Fields.{Field, fields};
ghost use Rattle.trace_text.specs.StoreLines.{store_line};
ghost use Rattle.trace_text.specs.Writing.{Grows};
ghost use Rattle.certificate_text.specs.BadPlaces.{IsFaultAt, IsFirstUnread};
ghost use Rattle.certificate_text.specs.InLines.{in_line, line_behind, GivesEntryInput, IsInputBadAt, IsReadUpTo, SaysTokens};
ghost use Rattle.certificate_text.specs.Limits.{longest_entry_line};

use crate::blanks::is_blank;
use crate::declared_field::tell_declared;
use crate::fault::EntryLineFault;
use crate::limits::LONGEST_ENTRY_LINE;
use agent_core::Program;
use std::alloc::Global;
use token_system::{Memory, Store};
use trace_text::write_store;

/// Appends a word and, behind one space, the line of a store, where that has bytes. Without memory a part of it
/// may be appended.
pub fn write_behind(
    word: &[u8],
    program: &Program,
    store: &Store,
    into: &mut Vec<u8>,
) -> Result<(), Memory>
    ensures ok { OnOk result (into.new.items ≡ into.old.items ++ line_behind word.now (store_line program.now store.now)) }
    ensures err { OnErr result (Grows into.old.items into.new.items) }
{
    into.extend_from_slice(word)?;
    let start = into.len();
    into.push(b' ')?;
    write_store(program, store, into)?;
    if into.len() == start + 1 {
        into.truncate(start);
    }
    Ok(())
}

/// Appends the `in` line of an input, without a line feed. Without memory a part of it may be appended.
pub fn write_in(program: &Program, input: &Store, into: &mut Vec<u8>) -> Result<(), Memory>
    ensures ok { OnOk result (into.new.items ≡ into.old.items ++ in_line program.now input.now) }
    ensures err { OnErr result (Grows into.old.items into.new.items) }
{
    write_behind(b"in", program, input, into)
}

/// What was read of an `in` line: whether its word was, and what the fields behind it tell.
#[derive(Debug, Drop)]
struct InputSoFar {
    worded: bool,
    input: Store,
}

impl InputSoFar {
    /// Reads the field at this offset, which comes next.
    fn read_field(
        &mut self,
        program: &Program,
        field: &[u8],
        offset: u32,
    ) -> Result<(), EntryLineFault>
        requires store { IsStore program.now self.old.input }
        ensures read { OnOk result ((all later : List Field)
            → IsReadUpTo program.now all self.old.worded self.old.input (record { offset = offset; bytes = field.now } ∷ later)
            → IsReadUpTo program.now all self.new.worded self.new.input later) }
        ensures bad { IfErr result (λ fault. (all later : List Field)
            → IsReadUpTo program.now all self.old.worded self.old.input (record { offset = offset; bytes = field.now } ∷ later)
            → IsFaultAt (IsFirstUnread (codes "in") (SaysTokens program.now) all) fault) }
    {
        if self.worded {
            return tell_declared(program, field, offset, &mut self.input);
        }
        if field != b"in".as_slice() {
            return Err(EntryLineFault::Bad { offset });
        }
        self.worded = true;
        Ok(())
    }
}

/// Reads the fields of a line.
fn read_fields(alloc: Global, program: &Program, line: &[u8]) -> Result<InputSoFar, EntryLineFault>
    requires short { length line.now ≤ longest_entry_line }
    ensures read { IfOk result (λ read. IsReadUpTo program.now (fields line.now) read.worded read.input []) }
    ensures bad { IfErr result (IsFaultAt (IsFirstUnread (codes "in") (SaysTokens program.now) (fields line.now))) }
{
    let mut read = InputSoFar {
        worded: false,
        input: Store::new(alloc),
    };
    let mut offset: u32 = 0;
    for part in line.split(|byte| is_blank(*byte)) {
        if !part.is_empty() {
            read.read_field(program, part, offset)?;
        }
        offset += part.len() as u32 + 1;
    }
    Ok(read)
}

/// Reads an `in` line, which has no line feed at its end: the input that the tokens behind the word tell.
pub fn read_in(alloc: Global, program: &Program, line: &[u8]) -> Result<Store, EntryLineFault>
    ensures given { IfOk result (GivesEntryInput program.now line.now) }
    ensures bad { IfErr result (IsFaultAt (IsInputBadAt program.now line.now)) }
{
    if line.len() > LONGEST_ENTRY_LINE {
        return Err(EntryLineFault::Bad {
            offset: LONGEST_ENTRY_LINE as u32,
        });
    }
    let read = read_fields(alloc, program, line)?;
    if !read.worded {
        return Err(EntryLineFault::Bad { offset: 0 });
    }
    Ok(read.input)
}
