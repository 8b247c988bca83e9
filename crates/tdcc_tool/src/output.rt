//! What is written of the instants of a run.
ghost use Rattle.std.specs.Prelude.{◌≡◌, ◌∷◌, [], ◌++◌, List, OnOk, decimal};
ghost use Rattle.token_system.specs.Stores.{StoreMap};
ghost use Rattle.instant_net.specs.Words.{store_in, AreWords};
ghost use Rattle.run_book.specs.Books.{KeepsRun};
ghost use Rattle.run_report.specs.declared.counts.Report as Report;
ghost use Rattle.tdcc_tool.specs.Steps.{IsNetAfter};
ghost use Rattle.tdcc_tool.specs.RunTexts.{line_of, report_text};

use instant_net::{Net, Words};
use itoa::Buffer;
use run_book::Book;
use run_report::{Report, report};
use token_system::Memory;
use trace_text::write_store;

/// What is written of a run.
#[derive(Clone, Copy, Debug, PartialEq, Eq)]
pub enum OutputMode {
    /// The store of each instant, in a line of its own.
    Stores,
    /// The counts of each instant, in a line of its own.
    Reports,
    /// One line for all.
    Summary,
}

/// Appends the words and the number.
pub fn write_count(words: &[u8], count: u64, into: &mut Vec<u8>) -> Result<(), Memory>
    ensures { OnOk result (into.new.items ≡ into.old.items ++ words.now ++ decimal count) }
{
    let mut digits = Buffer::new();
    into.extend_from_slice(words)?;
    into.extend_from_slice(digits.format(count).as_bytes())?;
    Ok(())
}

/// Appends the counts of this instant.
fn write_report(instant: u32, counts: Report, into: &mut Vec<u8>) -> Result<(), Memory>
    ensures { OnOk result (into.new.items ≡ into.old.items ++ report_text instant counts) }
{
    write_count(b"", u64::from(instant), into)?;
    write_count(b" ran ", counts.ran, into)?;
    write_count(b" confirmed ", counts.confirmed, into)?;
    write_count(b" refuted ", counts.refuted, into)?;
    write_count(b" parked ", counts.parked, into)?;
    write_count(b" next ", counts.next, into)?;
    Ok(())
}

/// Appends the line of the instant that the book closed last, with its line feed. `net` and `words` are that instant at
/// rest: a report counts them, and a store is read off the book, which has the declared cells alone.
pub fn write_line(
    mode: OutputMode,
    book: &Book,
    net: &Net,
    words: &Words,
    into: &mut Vec<u8>,
) -> Result<(), Memory>
    requires { AreWords net.now.cells words.now }
    ensures { OnOk result ((past : List StoreMap) → KeepsRun book.now (past ++ store_in net.now.cells words.now ∷ [])
        → IsNetAfter book.now past net.now
        → into.new.items ≡ into.old.items ++ line_of mode book.now.program past (store_in net.now.cells words.now)) }
{
    match mode {
        OutputMode::Stores => {
            if let Some(store) = book.outs().last() {
                write_store(book.program(), store, into)?;
            }
            into.push(b'\n')?;
        }
        OutputMode::Reports => {
            let counts = report(net, words, book.roots().len());
            write_report(net.instant(), counts, into)?;
            into.push(b'\n')?;
        }
        OutputMode::Summary => {}
    }
    Ok(())
}
