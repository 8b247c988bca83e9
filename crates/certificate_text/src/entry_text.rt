//! The text of an entry: its three lines, written at once and read one by one.
ghost use Rattle.std.specs.Prelude.{◌≡◌, ◌++◌, ◌≤◌, codes, drop, length, IfErr, OnErr, OnOk};
ghost use Rattle.trace_text.specs.Writing.{Grows};
ghost use Rattle.certificate_text.specs.BadPlaces.{IsFaultAt};
ghost use Rattle.certificate_text.specs.EntryTexts.{entry_text, GivesPart, HasShortLines, IsPartBadAt, IsShort};
ghost use Rattle.certificate_text.specs.declared.fault.EntryFault.TheVariants.{LineLong};

use crate::entry::{Entry, RunList};
use crate::fault::{EntryFault, EntryLineFault};
use crate::in_line::{read_in, write_in};
use crate::limits::LONGEST_ENTRY_LINE;
use crate::out_line::write_out;
use crate::out_reading::read_out;
use crate::run_line::{read_run, write_run};
use agent_core::Program;
use std::alloc::Global;
use token_system::Memory;

/// Appends a line feed.
fn feed(into: &mut Vec<u8>) -> Result<(), Memory>
    ensures ok { OnOk result (into.new.items ≡ into.old.items ++ codes "\n") }
    ensures err { OnErr result (into.new.items ≡ into.old.items) }
{
    into.push(b'\n')?;
    Ok(())
}

/// Ends the line that begins at this place, if it is not too long.
fn end_line(start: usize, into: &mut Vec<u8>) -> Result<(), EntryFault>
    requires within { start ≤ length into.old.items }
    ensures ok { OnOk result (into.new.items ≡ into.old.items ++ codes "\n") }
    ensures short { OnOk result (IsShort (drop start into.old.items)) }
    ensures err { OnErr result (Grows into.old.items into.new.items) }
    ensures long { IfErr result (λ fault. fault ≡ LineLong → ¬ (IsShort (drop start into.old.items))) }
{
    if into.len() - start > LONGEST_ENTRY_LINE {
        return Err(EntryFault::LineLong);
    }
    feed(into)?;
    Ok(())
}

/// Appends the lines of an entry, each with a line feed at its end. On a fault a part of them may be appended.
fn write_lines(
    alloc: Global,
    program: &Program,
    entry: &Entry,
    into: &mut Vec<u8>,
) -> Result<(), EntryFault>
    ensures ok { OnOk result (into.new.items ≡ into.old.items ++ entry_text program.now entry.now) }
    ensures short { OnOk result (HasShortLines program.now entry.now) }
    ensures err { OnErr result (Grows into.old.items into.new.items) }
    ensures long { IfErr result (λ fault. fault ≡ LineLong → ¬ (HasShortLines program.now entry.now)) }
{
    let start = into.len();
    write_in(program, &entry.input, into)?;
    end_line(start, into)?;
    let start = into.len();
    write_out(alloc, program, &entry.out, into)?;
    end_line(start, into)?;
    let start = into.len();
    write_run(entry.run.list(), into)?;
    end_line(start, into)
}

/// Appends the lines of an entry, each with a line feed at its end: `in`, `out` and `run`. On a fault nothing is appended.
pub fn write_entry(
    alloc: Global,
    program: &Program,
    entry: &Entry,
    into: &mut Vec<u8>,
) -> Result<(), EntryFault>
    ensures ok { OnOk result (into.new.items ≡ into.old.items ++ entry_text program.now entry.now) }
    ensures short { OnOk result (HasShortLines program.now entry.now) }
    ensures unchanged { OnErr result (into.new.items ≡ into.old.items) }
    ensures long { IfErr result (λ fault. fault ≡ LineLong → ¬ (HasShortLines program.now entry.now)) }
{
    let start = into.len();
    let written = write_lines(alloc, program, entry, into);
    if written.is_err() {
        into.truncate(start);
    }
    written
}

/// Reads the line with this number, which has no line feed at its end, into its part of an entry: 0 is `in`, 1 is `out`, and
/// 2 is `run`. On a fault the entry stays as it was.
pub fn read_entry_line(
    alloc: Global,
    program: &Program,
    instant: u32,
    which: u32,
    line: &[u8],
    entry: &mut Entry,
) -> Result<(), EntryLineFault>
    ensures read { OnOk result (GivesPart program.now instant which line.now entry.old entry.new) }
    ensures unchanged { OnErr result (entry.new ≡ entry.old) }
    ensures bad { IfErr result (IsFaultAt (IsPartBadAt program.now instant which line.now)) }
{
    match which {
        0 => entry.input = read_in(alloc, program, line)?,
        1 => entry.out = read_out(alloc, program, instant, line)?,
        _ => entry.run = RunList::make(read_run(alloc, line)?),
    }
    Ok(())
}
