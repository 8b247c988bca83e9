//! The `out` line of an entry as it is read: the store that its tokens tell.
ghost use Rattle.std.specs.Prelude.{◌≡◌, ◌≤◌, ◌∷◌, [], List, codes, length, IfErr, IfOk, OnOk};
ghost use Rattle.agent_core.specs.Stores.{IsStore};
ghost use Rattle.trace_text.specs.Fields.{Field, fields};
ghost use Rattle.certificate_text.specs.BadPlaces.{IsFaultAt, IsFirstUnread};
ghost use Rattle.certificate_text.specs.Limits.{longest_entry_line};
ghost use Rattle.certificate_text.specs.OutReadings.{GivesOut, IsOutBadAt, IsOutReadUpTo, SaysOut, TellsOut};

use crate::blanks::is_blank;
use crate::declared_field::{said_of_declared, tell_written};
use crate::fault::EntryLineFault;
use crate::limits::LONGEST_ENTRY_LINE;
use crate::local_cell::{said_of_local, tell_said};
use agent_core::Program;
use std::alloc::Global;
use token_system::Store;

/// Tells the tokens that the field at this offset says of a declared cell, or of a local one.
fn tell_field(
    alloc: Global,
    program: &Program,
    instant: u32,
    field: &[u8],
    offset: u32,
    store: &mut Store,
) -> Result<(), EntryLineFault>
    requires store { IsStore program.now store.old }
    ensures told { OnOk result (TellsOut program.now instant field.now store.old store.new) }
    ensures bad { IfErr result (IsFaultAt (λ place. (place ≡ offset) × ¬ (SaysOut program.now instant field.now))) }
{
    if let Some((cell, written)) = said_of_declared(program, field) {
        tell_written(program, cell, written, store)?;
        return Ok(());
    }
    let Some((said, cell)) = said_of_local(alloc, program, instant, field)? else {
        return Err(EntryLineFault::Bad { offset });
    };
    tell_said(said, cell, store)?;
    Ok(())
}

/// What was read of an `out` line: whether its word was, and what the fields behind it tell.
#[derive(Debug, Drop)]
struct OutSoFar {
    worded: bool,
    store: Store,
}

impl OutSoFar {
    /// Reads the field at this offset, which comes next.
    fn read_field(
        &mut self,
        alloc: Global,
        program: &Program,
        instant: u32,
        field: &[u8],
        offset: u32,
    ) -> Result<(), EntryLineFault>
        requires store { IsStore program.now self.old.store }
        ensures read { OnOk result ((all later : List Field)
            → IsOutReadUpTo program.now instant all self.old.worded self.old.store (record { offset = offset; bytes = field.now } ∷ later)
            → IsOutReadUpTo program.now instant all self.new.worded self.new.store later) }
        ensures bad { IfErr result (λ fault. (all later : List Field)
            → IsOutReadUpTo program.now instant all self.old.worded self.old.store (record { offset = offset; bytes = field.now } ∷ later)
            → IsFaultAt (IsFirstUnread (codes "out") (SaysOut program.now instant) all) fault) }
    {
        if self.worded {
            return tell_field(alloc, program, instant, field, offset, &mut self.store);
        }
        if field != b"out".as_slice() {
            return Err(EntryLineFault::Bad { offset });
        }
        self.worded = true;
        Ok(())
    }
}

/// Reads the fields of a line.
fn read_fields(
    alloc: Global,
    program: &Program,
    instant: u32,
    line: &[u8],
) -> Result<OutSoFar, EntryLineFault>
    requires short { length line.now ≤ longest_entry_line }
    ensures read { IfOk result (λ read. IsOutReadUpTo program.now instant (fields line.now) read.worded read.store []) }
    ensures bad { IfErr result (IsFaultAt (IsFirstUnread (codes "out") (SaysOut program.now instant) (fields line.now))) }
{
    let mut read = OutSoFar {
        worded: false,
        store: Store::new(alloc),
    };
    let mut offset: u32 = 0;
    for part in line.split(|byte| is_blank(*byte)) {
        if !part.is_empty() {
            read.read_field(alloc, program, instant, part, offset)?;
        }
        offset += part.len() as u32 + 1;
    }
    Ok(read)
}

/// Reads an `out` line, which has no line feed at its end: the store that the tokens behind the word tell. A name of a local
/// cell is read where the program can have that cell at the instant.
pub fn read_out(
    alloc: Global,
    program: &Program,
    instant: u32,
    line: &[u8],
) -> Result<Store, EntryLineFault>
    ensures given { IfOk result (GivesOut program.now instant line.now) }
    ensures bad { IfErr result (IsFaultAt (IsOutBadAt program.now instant line.now)) }
{
    if line.len() > LONGEST_ENTRY_LINE {
        return Err(EntryLineFault::Bad {
            offset: LONGEST_ENTRY_LINE as u32,
        });
    }
    let read = read_fields(alloc, program, instant, line)?;
    if !read.worded {
        return Err(EntryLineFault::Bad { offset: 0 });
    }
    Ok(read.store)
}
