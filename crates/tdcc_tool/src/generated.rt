//! What `gen` answers: it runs a program that it generates.
ghost use Rattle.std.specs.Prelude.{◌≡◌, IfOk, IsErrOf};
ghost use Rattle.trace_text.specs.Generated.{input_bytes};
ghost use Rattle.tdcc_tool.specs.Answers.{AnswersTo};
ghost use Rattle.tdcc_tool.specs.Statuses.{IsCommandEnd};
ghost use Rattle.tdcc_tool.specs.Tasks.{HasNetLimit};

use crate::answer::{Answer, Stop};
use crate::dispatch::answer;
use crate::task::Task;
use std::alloc::Global;
use tdcc_base::MemSource;
use token_system::Memory;
use trace_text::generate;

/// The program and the trace that are generated from the number, with the mark between them.
fn generated(alloc: Global, number: u32) -> Result<Vec<u8>, Memory>
    ensures { IfOk result (λ bytes. bytes.items ≡ input_bytes number) }
{
    let (mut bytes, trace) = generate(alloc, number)?;
    bytes.extend_from_slice(b"\n%%\n")?;
    bytes.extend_from_slice(trace.as_slice())?;
    Ok(bytes)
}

/// Answers what is generated from the number, which is read from memory.
pub fn generated_answer(alloc: Global, number: u32, task: Task) -> Result<Answer, Stop>
    requires { HasNetLimit task }
    ensures answer { IfOk result (λ a. AnswersTo task (input_bytes number) a.status a.out.items a.err.items) }
    ensures command_end { IfOk result (λ a. IsCommandEnd a.status) }
    ensures read { IsErrOf result Stop.Read → ⊥ }
{
    let mut pieces = Vec::new(alloc);
    pieces.push(generated(alloc, number)?)?;
    let mut source = MemSource::new(pieces, Vec::new(alloc));
    answer(alloc, task, &mut source)
}
