//! What a command answers to a program text, and the trace behind it.
ghost use Rattle.std.specs.Prelude.{◌≡◌, ◌≢◌, ◌≤◌, ℕ, List, [], Err, IfOk, IfSome, OnSome, IsErrOf, IsTrue, Some};
ghost use Rattle.tdcc_base.specs.Causes.{Rose};
ghost use Rattle.tdcc_base.specs.Limits.{longest_line};
ghost use Rattle.tdcc_base.specs.Promises.{StaysSteady};
ghost use Rattle.tdcc_base.specs.Waiting.{waiting, source_of, limit_of, IsFirst, ReadsWhile, reference_of};
ghost use Rattle.tdcc_tool.specs.Answers.{AnswersBy, AnswersTo};
ghost use Rattle.tdcc_tool.specs.Reading.{LeavesOpen, ReadsAsNeeded, is_read_stop};
ghost use Rattle.tdcc_tool.specs.Statuses.{IsCommandEnd};
ghost use Rattle.tdcc_tool.specs.Tasks.{HasNetLimit, IsGenerated, RunsProgram, ReadsTrace, task_of as the_task};

use crate::answer::{Answer, Stop, core_answer, refused_program};
use crate::check::check_answer;
use crate::generated::generated_answer;
use crate::program_text::program_of;
use crate::task::{Task, task_of};
use crate::trace::run_program;
use command_words::Command;
use std::alloc::Global;
use tdcc_base::{Lines, ReadStop, Source, Status};
use tdcc_reader::ReadFault;

/// Does the task with the program text and the lines after it.
fn answer_lines<S: Source>(
    alloc: Global,
    task: Task,
    lines: &mut Lines<'_, S>,
) -> Result<Answer, Stop>
    requires net { HasNetLimit task }
    requires first { IsFirst S.left lines.old }
    requires limit { limit_of lines.old ≡ longest_line }
    ensures same_reference { reference_of lines.new ≡ reference_of lines.old }
    ensures answer { IfOk result (λ a. IfSome (waiting S.left lines.old)
        (λ bytes. AnswersTo task bytes a.status a.out.items a.err.items)) }
    ensures ended { IfOk result (λ a. RunsProgram task → a.status ≡ Status.Ok
        → OnSome (waiting S.left lines.old) (S.left (source_of lines.new) ≡ Some [])) }
    ensures command_end { IfOk result (λ a. IsCommandEnd a.status) }
    ensures reads { result ≢ Err Stop.Memory → ReadsWhile S.read_gives
        (LeavesOpen task) (is_read_stop result) lines.old lines.new }
    ensures faults_only_rise { S.faults (source_of lines.old) ≤ S.faults (source_of lines.new) }
    ensures read { IsErrOf result Stop.Read → Rose (S.faults (source_of lines.old)) (S.faults (source_of lines.new)) }
    ensures steady { StaysSteady (S.steady (source_of lines.old)) (S.steady (source_of lines.new)) (IsErrOf result Stop.Read) }
{
    match lines.read_text() {
        Err(ReadStop::Read) => return Err(Stop::Read),
        Err(ReadStop::TooLong) => return Ok(refused_program(alloc, ReadFault::TextTooLong)?),
        Ok(_) => {}
    }
    let program = match program_of(alloc, lines.text()) {
        Ok(program) => program,
        Err(ReadFault::Memory) => return Err(Stop::Memory),
        Err(fault) => return Ok(refused_program(alloc, fault)?),
    };
    match task {
        Task::Run(mode, limits) => run_program(alloc, program, mode, limits, lines),
        Task::Check => Ok(check_answer(alloc, &program)?),
        Task::Core => Ok(core_answer(alloc, &program)?),
    }
}

/// Reads what the task needs of the source, and does it.
pub fn answer<S: Source>(alloc: Global, task: Task, source: &mut S) -> Result<Answer, Stop>
    requires net { HasNetLimit task }
    ensures answer { IfOk result (λ a. IfSome (S.left source.old)
        (λ bytes. AnswersTo task bytes a.status a.out.items a.err.items)) }
    ensures ended { IfOk result (λ a. RunsProgram task → a.status ≡ Status.Ok
        → OnSome (S.left source.old) (S.left source.new ≡ Some [])) }
    ensures command_end { IfOk result (λ a. IsCommandEnd a.status) }
    ensures reads { result ≢ Err Stop.Memory → ReadsAsNeeded S.read_gives (LeavesOpen task) source.old source.new }
    ensures read { IsErrOf result Stop.Read → Rose (S.faults source.old) (S.faults source.new) }
    ensures steady { IsTrue (S.steady source.old) → IsErrOf result Stop.Read → ⊥ }
{
    let Ok(mut lines) = Lines::new(alloc, source) else {
        return Err(Stop::Memory);
    };
    answer_lines(alloc, task, &mut lines)
}

/// Reads what the command needs of the source, and answers it. What is generated is no matter of the source.
pub fn answer_command<S: Source>(
    alloc: Global,
    command: Command,
    source: &mut S,
) -> Result<Answer, Stop>
    requires net { HasNetLimit (the_task command) }
    ensures answer { IfOk result (λ a. IfSome (S.left source.old)
        (λ bytes. AnswersBy command bytes a.status a.out.items a.err.items)) }
    ensures ended { IfOk result (λ a. ReadsTrace command → a.status ≡ Status.Ok
        → OnSome (S.left source.old) (S.left source.new ≡ Some [])) }
    ensures generated { IsGenerated command → source.new ≡ source.old }
    ensures generates { (bytes : List ℕ) → IsGenerated command → IfOk result
        (λ a. AnswersBy command bytes a.status a.out.items a.err.items) }
    ensures unread { IsGenerated command → IsErrOf result Stop.Read → ⊥ }
    ensures command_end { IfOk result (λ a. IsCommandEnd a.status) }
    ensures reads { ¬ IsGenerated command → result ≢ Err Stop.Memory
        → ReadsAsNeeded S.read_gives (LeavesOpen (the_task command)) source.old source.new }
    ensures read { IsErrOf result Stop.Read → Rose (S.faults source.old) (S.faults source.new) }
    ensures steady { IsTrue (S.steady source.old) → IsErrOf result Stop.Read → ⊥ }
{
    match command {
        Command::Generate(number) => generated_answer(alloc, number, task_of(command)),
        _ => answer(alloc, task_of(command), source),
    }
}
