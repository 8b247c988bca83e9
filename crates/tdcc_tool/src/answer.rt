//! What a command ends with, and what is written then.
ghost use Rattle.std.specs.Prelude.{◌≡◌, ◌≢◌, [], List, IfOk, length};
ghost use Rattle.token_system.specs.Stores.{StoreMap};
ghost use Rattle.tdcc_reader.specs.declared.fault.ReadFault.TheVariants.{Memory as OutOfMemory};
ghost use Rattle.tdcc_tool.specs.Answers.{CoreAnswer};
ghost use Rattle.tdcc_tool.specs.Messages.{program_line as program_line_of, strata_line as strata_line_of};
ghost use Rattle.tdcc_tool.specs.RunEnds.{end_line as end_line_of, status_of};
ghost use Rattle.tdcc_tool.specs.Steps.{IsStateOf, IsNotOutOfMemory};
ghost use Rattle.tdcc_tool.specs.RunTexts.{written};

use crate::messages::{end_line, program_line, strata_line};
use crate::run_end::RunEnd;
use crate::run_state::RunState;
use agent_core::Program;
use core_text::print_core;
use std::alloc::{AllocError, AllocFailed, Global};
use tdcc_base::Status;
use tdcc_reader::ReadFault;
use token_system::Memory;

/// The status that a command ends with, and what is to be written to out and to err.
#[derive(Drop)]
pub struct Answer {
    pub status: Status,
    pub out: Vec<u8>,
    pub err: Vec<u8>,
}

/// Why there is no answer.
#[derive(Clone, Copy, Debug, PartialEq, Eq)]
pub enum Stop {
    /// The source failed.
    Read,
    /// Memory ran out.
    Memory,
}

impl From<AllocError> for Stop {
    ghost use Rattle.std.specs.Prelude.{◌≡◌};
    ghost use Rattle.tdcc_tool.specs.declared.answer.Stop.TheVariants.{Memory};

    ghost from_gives = { λ _ e. e ≡ Memory };

    fn from(_: AllocError) -> Self {
        Stop::Memory
    }
}

impl<T: Drop> From<AllocFailed<T>> for Stop {
    ghost use Rattle.std.specs.Prelude.{◌≡◌};
    ghost use Rattle.tdcc_tool.specs.declared.answer.Stop.TheVariants.{Memory};

    ghost from_gives = { λ _ e. e ≡ Memory };

    fn from(_: AllocFailed<T>) -> Self {
        Stop::Memory
    }
}

/// The answer to a text that has this fault.
pub fn refused_program(alloc: Global, fault: ReadFault) -> Result<Answer, Memory>
    requires { fault ≢ OutOfMemory }
    ensures status { IfOk result (λ a. a.status ≡ Status.Program) }
    ensures out { IfOk result (λ a. a.out.items ≡ []) }
    ensures err { IfOk result (λ a. a.err.items ≡ program_line_of fault) }
{
    Ok(Answer {
        status: Status::Program,
        out: Vec::new(alloc),
        err: program_line(alloc, fault)?,
    })
}

/// The answer to a program that depends on its own absence, by the first case that shows it.
pub fn refused_case(
    alloc: Global,
    program: &Program,
    guard: u32,
    told: u32,
    node: u32,
) -> Result<Answer, Memory>
    ensures status { IfOk result (λ a. a.status ≡ Status.Program) }
    ensures out { IfOk result (λ a. a.out.items ≡ []) }
    ensures err { IfOk result (λ a. a.err.items ≡ strata_line_of program.now guard told node) }
{
    Ok(Answer {
        status: Status::Program,
        out: Vec::new(alloc),
        err: strata_line(alloc, program, guard, told, node)?,
    })
}

/// The answer that is the core text of the program.
pub fn core_answer(alloc: Global, program: &Program) -> Result<Answer, Memory>
    ensures { IfOk result (λ a. CoreAnswer program.now a.status a.out.items a.err.items) }
{
    let mut out = Vec::new(alloc);
    print_core(program, &mut out)?;
    Ok(Answer {
        status: Status::Ok,
        out,
        err: Vec::new(alloc),
    })
}

/// The answer of the run that took this state, where it ends so.
pub fn finish(alloc: Global, state: RunState, end: RunEnd) -> Result<Answer, Memory>
    requires { IsNotOutOfMemory end }
    ensures status { IfOk result (λ a. a.status ≡ status_of end) }
    ensures out { IfOk result (λ a. (full : List StoreMap) → IsStateOf state full
        → a.out.items ≡ written state.mode state.book.program full) }
    ensures err { IfOk result (λ a. a.err.items ≡ end_line_of (length state.book.ins) end) }
{
    let err = end_line(alloc, state.book.instants(), end)?;
    let out = state.written(alloc)?;
    Ok(Answer {
        status: end.status(),
        out,
        err,
    })
}
