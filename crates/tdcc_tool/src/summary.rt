//! The one line that is written of a generated run.
ghost use Rattle.std.specs.Prelude.{◌≡◌, ◌≤◌, ◌∷◌, [], ◌++◌, List, IfOk, length, filter};
ghost use Rattle.std.specs.List.{range_with_len, sum_by};
ghost use Rattle.token_system.specs.Stores.{StoreMap};
ghost use Rattle.run_book.specs.Books.{KeepsRun};
ghost use Rattle.tdcc_tool.specs.RunTexts as texts;
ghost use Rattle.tdcc_tool.specs.RunTexts.{is_told, summary_line, told_cells};
ghost use Rattle.agent_core.specs.Limits.{most_instants};

use crate::output::write_count;
use run_book::Book;
use std::alloc::Global;
use token_system::{CellName, Memory, Store};
use trace_text::write_store;

/// How many of so many declared cells the store tells something of.
fn told_of(store: &Store, declared: u32) -> u64
    ensures told { result ≡ length (filter (is_told store.now) (range_with_len 0 declared)) }
    ensures bounded { result ≤ declared }
{
    let mut told = 0;
    for cell in 0..declared {
        if store.get(&CellName::Declared(cell)).is_some() {
            told += 1;
        }
    }
    told
}

/// How many declared cells the stores tell something of, all together.
fn told_in_all(declared: u32, stores: &[Store]) -> u64
    requires { length stores.now ≤ most_instants }
    ensures { result ≡ sum_by (λ v. length (filter (is_told v) (range_with_len 0 declared))) stores.now }
{
    let mut told = 0;
    for store in stores {
        told += told_of(store, declared);
    }
    told
}

/// The summary of the run that the book keeps, in which so many agents ran.
pub fn summary(alloc: Global, book: &Book, spent: u64) -> Result<Vec<u8>, Memory>
    ensures { IfOk result (λ line. (full : List StoreMap) → KeepsRun book.now full
        → spent ≡ texts.spent book.now.program full
        → line.items ≡ summary_line book.now.program full ++ 10 ∷ []) }
{
    let outs = book.outs();
    let told = told_in_all(book.program().declared(), outs);
    let mut line = Vec::new(alloc);
    write_count(b"instants ", u64::from(book.instants()), &mut line)?;
    write_count(b" ran ", spent, &mut line)?;
    write_count(b" cells ", told, &mut line)?;
    line.extend_from_slice(b" last ")?;
    if let Some(store) = outs.last() {
        write_store(book.program(), store, &mut line)?;
    }
    line.push(b'\n')?;
    Ok(line)
}
