//! A run: the lines of a trace, one after another.
ghost use Rattle.std.specs.Prelude.{◌≡◌, ◌≢◌, ◌≤◌, [], Err, IfOk, IfSome, MatchOption, OnSome, IsNone, IsErrOf, Some};
ghost use Rattle.tdcc_base.specs.Causes.{Rose};
ghost use Rattle.tdcc_base.specs.Promises.{StaysSteady};
ghost use Rattle.tdcc_base.specs.Limits.{longest_line};
ghost use Rattle.tdcc_base.specs.Lines.{lines_of};
ghost use Rattle.tdcc_base.specs.Waiting.{waiting, source_of, stop_of, limit_of, LinesReady, ReadsNoMoreAfterEnd, ReadsWhile, reference_of};
ghost use Rattle.agent_core.specs.Strata.{Stratifies};
ghost use Rattle.tdcc_tool.specs.Answers.{ProgramAnswer, RunAnswer};
ghost use Rattle.tdcc_tool.specs.Reading.{IsOpenTrace, IsOpenTraceOf, is_read_stop};
ghost use Rattle.tdcc_tool.specs.Statuses.{IsCommandEnd};
ghost use Rattle.tdcc_tool.specs.Steps.{StopsRun, IsStateOf, AdvancesRun};
ghost use Rattle.command_words.specs.Limits.{greatest_net};

use crate::answer::{Answer, Stop, finish, refused_case};
use crate::output::OutputMode;
use crate::run_end::RunEnd;
use crate::run_state::RunState;
use agent_core::{Levels, MAX_INSTANTS, Program};
use command_words::Limits;
use std::alloc::{AllocError, Global};
use strata::{StrataFault, strata};
use tdcc_base::{LineEnd, Lines, ReadStop, Source, Status};
use token_system::Memory;
use trace_text::{LineFault, read_input};

/// Runs the instant of one line, or says how the run ends at it.
fn run_line(alloc: Global, state: &mut RunState, line: &[u8]) -> Result<Option<RunEnd>, Memory>
    ensures { IfOk result (λ end. MatchOption end (AdvancesRun state.old state.new line.now) (StopsRun state.old state.new line.now)) }
{
    if state.book.instants() == MAX_INSTANTS {
        return Ok(Some(RunEnd::TooManyLines));
    }
    match read_input(alloc, state.book.program(), line) {
        Ok(input) => state.run_instant(alloc, input),
        Err(LineFault::Memory) => Err(AllocError),
        Err(fault) => Ok(Some(RunEnd::BadLine { fault })),
    }
}

/// Closes an instant for each line, up to the end of the trace or to the line that ends the run.
fn run_trace<S: Source>(
    alloc: Global,
    start: RunState,
    lines: &mut Lines<'_, S>,
) -> Result<Answer, Stop>
    requires follows { IsStateOf start [] }
    requires ins { start.book.ins ≡ [] }
    requires ready { LinesReady S.left lines.old }
    requires limit { limit_of lines.old ≡ longest_line }
    requires going_on { IsNone (stop_of lines.old) }
    ensures same_reference { reference_of lines.new ≡ reference_of lines.old }
    ensures answer { IfOk result (λ a. IfSome (waiting S.left lines.old) (λ trace.
        RunAnswer start.book.program start.mode start.limits (lines_of trace) a.status a.out.items a.err.items)) }
    ensures ended { IfOk result (λ a. a.status ≡ Status.Ok → OnSome (waiting S.left lines.old) (S.left (source_of lines.new) ≡ Some [])) }
    ensures command_end { IfOk result (λ a. IsCommandEnd a.status) }
    ensures no_more { ReadsNoMoreAfterEnd lines.old lines.new }
    ensures reads { result ≢ Err Stop.Memory → ReadsWhile S.read_gives
        (IsOpenTrace start.book.program start.limits) (is_read_stop result) lines.old lines.new }
    ensures faults_only_rise { S.faults (source_of lines.old) ≤ S.faults (source_of lines.new) }
    ensures read { IsErrOf result Stop.Read → Rose (S.faults (source_of lines.old)) (S.faults (source_of lines.new)) }
    ensures steady { StaysSteady (S.steady (source_of lines.old)) (S.steady (source_of lines.new)) (IsErrOf result Stop.Read) }
{
    let mut state = start;
    'lines: loop {
        match lines.read_line() {
            Err(ReadStop::Read) => return Err(Stop::Read),
            Err(ReadStop::TooLong) => {
                let end = RunEnd::BadLine {
                    fault: LineFault::LineTooLong,
                };
                return Ok(finish(alloc, state, end)?);
            },
            Ok(LineEnd::End) => return Ok(finish(alloc, state, RunEnd::Completed)?),
            Ok(LineEnd::Line) => {
                if let Some(end) = run_line(alloc, &mut state, lines.line())? {
                    return Ok(finish(alloc, state, end)?);
                }
            }
        }
    }
}

/// Answers the lines of the trace, where the program is stratified.
pub fn run_program<S: Source>(
    alloc: Global,
    program: Program,
    mode: OutputMode,
    limits: Limits,
    lines: &mut Lines<'_, S>,
) -> Result<Answer, Stop>
    requires net { limits.net ≤ greatest_net }
    requires ready { LinesReady S.left lines.old }
    requires limit { limit_of lines.old ≡ longest_line }
    requires going_on { IsNone (stop_of lines.old) }
    ensures same_reference { reference_of lines.new ≡ reference_of lines.old }
    ensures answer { IfOk result (λ a. IfSome (waiting S.left lines.old) (λ trace.
        ProgramAnswer program mode limits (lines_of trace) a.status a.out.items a.err.items)) }
    ensures ended { IfOk result (λ a. a.status ≡ Status.Ok → OnSome (waiting S.left lines.old) (S.left (source_of lines.new) ≡ Some [])) }
    ensures command_end { IfOk result (λ a. IsCommandEnd a.status) }
    ensures no_more { ReadsNoMoreAfterEnd lines.old lines.new }
    ensures reads { result ≢ Err Stop.Memory → ReadsWhile S.read_gives
        (IsOpenTraceOf program limits) (is_read_stop result) lines.old lines.new }
    ensures faults_only_rise { S.faults (source_of lines.old) ≤ S.faults (source_of lines.new) }
    ensures read { IsErrOf result Stop.Read → Rose (S.faults (source_of lines.old)) (S.faults (source_of lines.new)) }
    ensures steady { StaysSteady (S.steady (source_of lines.old)) (S.steady (source_of lines.new)) (IsErrOf result Stop.Read) }
{
    match strata(alloc, &program) {
        Ok(levels) => {
            let state = RunState::open(alloc, program, levels, mode, limits)?;
            run_trace(alloc, state, lines)
        }
        Err(StrataFault::NotStratified { guard, told, node }) => {
            Ok(refused_case(alloc, &program, guard, told, node)?)
        }
        Err(StrataFault::Memory) => Err(Stop::Memory),
    }
}
