//! Reading a line of a step.
ghost use Rattle.std.specs.Prelude.{◌≡◌, ◌<◌, ◌∷◌, [], length, position, IfOk, IfSome, IsNone, MatchOption};
ghost use Rattle.std.specs.List.{slice_split};
ghost use Rattle.instant_core.specs.declared.step.CoreStep.{CoreStep as Step};
ghost use Rattle.step_lines.specs.StepLines.{IsStepLine, IsStepOf, IsStepWith, Nothing, Numbered, is_space};

use crate::word_name::word_named;
use agent_core::Program;
use instant_core::CoreStep;
use instant_net::Net;
use names_and_numbers::read_natural;
use std::alloc::Global;
use token_system::Memory;

/// The place of the first space.
fn first_space(text: &[u8]) -> Option<usize>
    ensures place { result ≡ position is_space text.now }
    ensures within { IfSome result (λ place. place < length text.now) }
{
    text.iter().position(|byte| *byte == b' ')
}

/// What stands before the first space, and what behind it where there is one.
fn cut_at_space(text: &[u8]) -> (&[u8], Option<&[u8]>)
    ensures { MatchOption result.1 (slice_split is_space text.now ≡ result.0.now ∷ [])
        (λ behind. slice_split is_space text.now ≡ result.0.now ∷ slice_split is_space behind.now) }
{
    match first_space(text) {
        Some(place) => (&text[..place], Some(&text[place + 1..])),
        None => (text, None),
    }
}

/// The step of a worker with this action and no object.
fn step_alone(worker: u32, action: &[u8]) -> Option<CoreStep>
    ensures { MatchOption result ((step : Step) → ¬ (IsStepOf worker action.now Nothing step)) (IsStepOf worker action.now Nothing) }
{
    match action {
        b"post" => Some(CoreStep::Post { worker }),
        b"finish" => Some(CoreStep::Finish { worker }),
        b"count" => Some(CoreStep::Count { worker }),
        b"phase" => Some(CoreStep::Phase { worker }),
        _ => None,
    }
}

/// The step of a worker with this action and this number: that of a leaf, of another worker, or of a phase.
fn step_numbered(worker: u32, action: &[u8], number: u32) -> Option<CoreStep>
    ensures { MatchOption result ((step : Step) → ¬ (IsStepOf worker action.now (Numbered number) step)) (IsStepOf worker action.now (Numbered number)) }
{
    let (leaf, phase, other) = (number, number, number);
    match action {
        b"seek" => Some(CoreStep::Seek { worker, leaf }),
        b"announce" => Some(CoreStep::Announce { worker, leaf }),
        b"claim" => Some(CoreStep::Claim { worker, leaf }),
        b"raise" => Some(CoreStep::Raise { worker, phase }),
        b"split" => Some(CoreStep::Split { worker, other }),
        b"join" => Some(CoreStep::Join { worker, other }),
        _ => None,
    }
}

/// The step of a worker with this action and the object that the text says.
fn step_with(
    alloc: Global,
    program: &Program,
    net: &Net,
    worker: u32,
    action: &[u8],
    text: &[u8],
) -> Result<Option<CoreStep>, Memory>
    ensures said { IfOk result (λ found. IfSome found (IsStepWith program.now net.now worker action.now (text.now ∷ []))) }
    ensures none { IfOk result (λ found. IsNone found → (step : Step) → ¬ (IsStepWith program.now net.now worker action.now (text.now ∷ []) step)) }
{
    if action == b"load".as_slice() {
        let word = word_named(alloc, program, net, text)?;
        return Ok(word.map(|word| CoreStep::Load { worker, word }));
    }
    match read_natural(text) {
        Some(number) => Ok(step_numbered(worker, action, number)),
        None => Ok(None),
    }
}

/// Reads the line of a step, which has no line feed at its end. `None` is the answer where the line says no step; a worker,
/// leaf or phase that is not there reads, as whether a step is lawful is not looked at.
pub fn read_step(
    alloc: Global,
    program: &Program,
    net: &Net,
    line: &[u8],
) -> Result<Option<CoreStep>, Memory>
    ensures said { IfOk result (λ found. IfSome found (IsStepLine program.now net.now line.now)) }
    ensures none { IfOk result (λ found. IsNone found → (step : Step) → ¬ (IsStepLine program.now net.now line.now step)) }
{
    let (number, Some(behind)) = cut_at_space(line) else {
        return Ok(None);
    };
    let Some(worker) = read_natural(number) else {
        return Ok(None);
    };
    match cut_at_space(behind) {
        (action, None) => Ok(step_alone(worker, action)),
        (action, Some(text)) => match cut_at_space(text) {
            (text, None) => step_with(alloc, program, net, worker, action, text),
            (_, Some(_)) => Ok(None),
        },
    }
}
