//! The state of a run: how it begins, goes on by an instant, and is written.
ghost use Rattle.std.specs.Prelude.{◌<◌, ◌≤◌};
ghost use Rattle.command_words.specs.Limits.{greatest_net};
ghost use Rattle.agent_core.specs.Limits.{most_instants};

use crate::instant::output_of;
use crate::output::{OutputMode, write_line};
use crate::run_end::RunEnd;
use crate::summary::summary;
use agent_core::{Levels, Program};
use command_words::Limits;
use instant_net::NetFault;
use residuals::ran;
use run_book::Book;
use std::alloc::{AllocError, Global};
use token_system::{Memory, Store};

/// A run so far: what it keeps, how many agents ran, and the lines of the instants.
#[derive(Drop)]
pub struct RunState {
    pub mode: OutputMode,
    pub limits: Limits,
    pub book: Book,
    pub spent: u64,
    pub lines: Vec<u8>,
    ghost within: { (spent ≤ limits.fuel) × (limits.fuel < 4294967296) × (limits.net ≤ greatest_net) },
}

impl RunState {
    ghost use Rattle.std.specs.Prelude.{◌≡◌, [], ℕ, List, IfOk, MatchOption, length};
    ghost use Rattle.token_system.specs.Stores.{StoreMap};
    ghost use Rattle.agent_core.specs.Stores.{IsInput};
    ghost use Rattle.agent_core.specs.Strata.{Stratifies};
    ghost use Rattle.trace_text.specs.Inputs.{GivesInput};
    ghost use Rattle.tdcc_tool.specs.Steps.{StopsRun, IsStateOf, AdvancesRun};
    ghost use Rattle.tdcc_tool.specs.RunTexts as texts;

    /// The state of a run that begins. The levels stratify the program, and an instant may have 65,536 leaves at most.
    pub fn open(
        alloc: Global,
        program: Program,
        levels: Levels,
        mode: OutputMode,
        limits: Limits,
    ) -> Result<RunState, Memory>
        requires stratified { Stratifies program levels }
        requires net { limits.net ≤ greatest_net }
        ensures follows { IfOk result (λ c. IsStateOf c []) }
        ensures program { IfOk result (λ c. c.book.program ≡ program) }
        ensures ins { IfOk result (λ c. c.book.ins ≡ []) }
        ensures mode { IfOk result (λ c. c.mode ≡ mode) }
        ensures limits { IfOk result (λ c. c.limits ≡ limits) }
    {
        Ok(RunState {
            mode,
            limits,
            book: Book::open(alloc, program, levels)?,
            spent: 0,
            lines: Vec::new(alloc),
        })
    }

    /// Runs the next instant on this input, or says how the run ends at it.
    pub fn run_instant(&mut self, alloc: Global, input: Store) -> Result<Option<RunEnd>, Memory>
        requires room { length self.old.book.ins < most_instants }
        requires input { IsInput self.old.book.program input }
        ensures { IfOk result (λ end. (line : List ℕ) → GivesInput self.old.book.program line input
            → MatchOption end (AdvancesRun self.old self.new line) (StopsRun self.old self.new line)) }
    {
        let (net, words) = match output_of(alloc, &self.book, &input, self.limits.net) {
            Ok(found) => found,
            Err(NetFault::NetFull { leaves }) => return Ok(Some(RunEnd::NetFull { leaves })),
            Err(NetFault::Memory) => return Err(AllocError),
        };
        let spent = self.spent + ran(&net, &words);
        if spent > u64::from(self.limits.fuel) {
            return Ok(Some(RunEnd::FuelSpent { agents: spent }));
        }
        self.book.close(alloc, &net, input, &words)?;
        self.spent = spent;
        write_line(self.mode, &self.book, &net, &words, &mut self.lines)?;
        Ok(None)
    }

    /// All that is written of the run.
    pub fn written(self, alloc: Global) -> Result<Vec<u8>, Memory>
        ensures { IfOk result (λ out. (full : List StoreMap) → IsStateOf self full
            → out.items ≡ texts.written self.mode self.book.program full) }
    {
        match self.mode {
            OutputMode::Stores => Ok(self.lines),
            OutputMode::Reports => Ok(self.lines),
            OutputMode::Summary => summary(alloc, &self.book, self.spent),
        }
    }
}
