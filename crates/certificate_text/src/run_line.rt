//! The `run` line of an entry: which leaves tell, in their order.
ghost use Rattle.std.specs.Prelude.{◌≡◌, ◌≤◌, ◌++◌, ◌∷◌, [], List, Ok, length, IfErr, IfOk, OnErr, OnOk, decimal};
ghost use Rattle.trace_text.specs.Fields.{Field, fields};
ghost use Rattle.trace_text.specs.Writing.{Grows};
ghost use Rattle.certificate_text.specs.Limits.{longest_entry_line};
ghost use Rattle.certificate_text.specs.RunLines.{left_to_read, run_of_line, run_text, numbers_behind_run, IsFaultOf};

use crate::blanks::is_blank;
use crate::fault::EntryLineFault;
use crate::limits::LONGEST_ENTRY_LINE;
use itoa::Buffer;
use names_and_numbers::read_natural;
use std::alloc::Global;
use token_system::Memory;

/// What was read of a line: whether its word was, and the numbers behind it.
#[derive(Debug, Drop)]
struct RunSoFar {
    worded: bool,
    numbers: Vec<u32>,
}

impl RunSoFar {
    /// Reads the field at this offset, which comes next.
    fn read_field(&mut self, field: &[u8], offset: u32) -> Result<(), EntryLineFault>
        ensures read { OnOk result ((later : List Field)
            → left_to_read self.old.worded self.old.numbers.items (record { offset = offset; bytes = field.now } ∷ later)
            ≡ left_to_read self.new.worded self.new.numbers.items later) }
        ensures bad { IfErr result (λ fault. (later : List Field)
            → IsFaultOf (left_to_read self.old.worded self.old.numbers.items (record { offset = offset; bytes = field.now } ∷ later)) fault) }
    {
        if !self.worded {
            if field != b"run".as_slice() {
                return Err(EntryLineFault::Bad { offset });
            }
            self.worded = true;
            return Ok(());
        }
        let Some(number) = read_natural(field) else {
            return Err(EntryLineFault::Bad { offset });
        };
        self.push(number)?;
        Ok(())
    }

    /// Adds a number at the end.
    fn push(&mut self, number: u32) -> Result<(), Memory>
        ensures word { self.new.worded ≡ self.old.worded }
        ensures pushed { OnOk result (self.new.numbers.items ≡ self.old.numbers.items ++ number ∷ []) }
    {
        self.numbers.push(number)?;
        Ok(())
    }
}

/// Reads the fields of a line.
fn read_fields(alloc: Global, line: &[u8]) -> Result<RunSoFar, EntryLineFault>
    requires short { length line.now ≤ longest_entry_line }
    ensures read { IfOk result (λ run. numbers_behind_run (fields line.now) ≡ left_to_read run.worded run.numbers.items []) }
    ensures bad { IfErr result (IsFaultOf (numbers_behind_run (fields line.now))) }
{
    let mut run = RunSoFar {
        worded: false,
        numbers: Vec::new(alloc),
    };
    let mut offset: u32 = 0;
    for part in line.split(|byte| is_blank(*byte)) {
        if !part.is_empty() {
            run.read_field(part, offset)?;
        }
        offset += part.len() as u32 + 1;
    }
    Ok(run)
}

/// Reads a `run` line, which has no line feed at its end: the numbers behind the word, in their order. A number has up to
/// nine digits; whether there are such leaves is not looked at.
pub fn read_run(alloc: Global, line: &[u8]) -> Result<Vec<u32>, EntryLineFault>
    ensures read { IfOk result (λ numbers. run_of_line line.now ≡ Ok numbers.items) }
    ensures bad { IfErr result (IsFaultOf (run_of_line line.now)) }
{
    if line.len() > LONGEST_ENTRY_LINE {
        return Err(EntryLineFault::Bad {
            offset: LONGEST_ENTRY_LINE as u32,
        });
    }
    let run = read_fields(alloc, line)?;
    if !run.worded {
        return Err(EntryLineFault::Bad { offset: 0 });
    }
    Ok(run.numbers)
}

/// Appends a space and the number.
fn write_number(number: u32, into: &mut Vec<u8>) -> Result<(), Memory>
    ensures ok { OnOk result (into.new.items ≡ into.old.items ++ 32 ∷ decimal number) }
    ensures err { OnErr result (Grows into.old.items into.new.items) }
{
    let mut digits = Buffer::new();
    into.push(b' ')?;
    into.extend_from_slice(digits.format(number).as_bytes())?;
    Ok(())
}

/// Appends the `run` line of these numbers, without a line feed. Without memory a part of it may be appended.
pub fn write_run(numbers: &[u32], into: &mut Vec<u8>) -> Result<(), Memory>
    ensures ok { OnOk result (into.new.items ≡ into.old.items ++ run_text numbers.now) }
    ensures err { OnErr result (Grows into.old.items into.new.items) }
{
    into.extend_from_slice(b"run")?;
    for number in numbers {
        write_number(*number, into)?;
    }
    Ok(())
}
