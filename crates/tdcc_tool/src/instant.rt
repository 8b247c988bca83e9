//! One instant of a run: its net is opened from the roots that the book keeps, and completed to its output.
ghost use Rattle.std.specs.Prelude.{◌≡◌, ◌<◌, ◌≤◌, ℕ, List, Err, IfOk, length};
ghost use Rattle.token_system.specs.Stores.{StoreMap};
ghost use Rattle.agent_core.specs.Outputs as program;
ghost use Rattle.agent_core.specs.Stores.{IsInput};
ghost use Rattle.instant_net.specs.Opened.{IsNetOf};
ghost use Rattle.instant_net.specs.Outputs.{IsNetOutput};
ghost use Rattle.instant_net.specs.Words.{store_in, AreWords};
ghost use Rattle.residuals.specs.RootLists.{listed_roots};
ghost use Rattle.run_book.specs.Books.{KeepsRun};
ghost use Rattle.tdcc_tool.specs.Steps.{count_now};
ghost use Rattle.command_words.specs.Limits.{greatest_net};

use agent_laws::{by_roots_law, one_output_law};
use instant_net::{
    Net, NetFault, Words, net_outputs_law, open_net, open_words, stratified_net_law,
};
use run_book::Book;
use settle::settle_instant;
use std::alloc::Global;
use token_system::Store;

/// The net of the instant after those that the book keeps, and the words of its output on this input, where the instant
/// has no more leaves than this limit.
pub fn output_of(
    alloc: Global,
    book: &Book,
    input: &Store,
    limit: u32,
) -> Result<(Net, Words), NetFault>
    requires input { IsInput book.now.program input.now }
    requires limit { limit ≤ greatest_net }
    ensures net { IfOk result (λ found. IsNetOf book.now.program book.now.levels (listed_roots book.now.roots) (length book.now.ins) found.0) }
    ensures words { IfOk result (λ found. AreWords found.0.cells found.1) }
    ensures output { IfOk result (λ found. IsNetOutput found.0 input.now (store_in found.0.cells found.1)) }
    ensures run { IfOk result (λ found. (full : List StoreMap) → KeepsRun book.now full
        → program.IsOutput book.now.program full input.now (store_in found.0.cells found.1)) }
    ensures small { IfOk result (λ _. count_now book.now ≤ limit) }
    ensures counted { (leaves : ℕ) → result ≡ Err (NetFault.NetFull leaves) → leaves ≡ count_now book.now }
    ensures full { (leaves : ℕ) → result ≡ Err (NetFault.NetFull leaves) → limit < leaves }
{
    one_output_law();
    by_roots_law();
    stratified_net_law();
    net_outputs_law();
    let roots = book.roots().list(alloc)?;
    let net = open_net(
        alloc,
        book.program(),
        book.levels(),
        &roots,
        book.instants(),
        limit,
    )?;
    let mut words = open_words(alloc, &net, input)?;
    settle_instant(alloc, &net, &mut words)?;
    Ok((net, words))
}
