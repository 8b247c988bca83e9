//! The whole tool: its words, its source, its answer and its status.
ghost use Rattle.std.specs.Prelude.{◌≡◌, ◌≢◌, ◌↔◌, ℕ, List, [], IfSome, OnSome, IsTrue, Some};
ghost use Rattle.std.specs.Io.KnownBytes.{Appends, Consumes};
ghost use Rattle.tdcc_base.specs.Causes.{Rose};
ghost use Rattle.tdcc_base.specs.Written.{WritesUntilFault};
ghost use Rattle.command_words.specs.declared.command.Command.{Command};
ghost use Rattle.tdcc_tool.specs.Answers.{Answers, WordsCall, WordsCallNothing};
ghost use Rattle.tdcc_tool.specs.Completeness.{IsRunnable, EndsWhole, FitsInto};
ghost use Rattle.tdcc_tool.specs.Cuts.{LeavesAfterFault, fixed_line};
ghost use Rattle.tdcc_tool.specs.Statuses.{IsComplete, IsToolStatus};
ghost use Rattle.tdcc_tool.specs.KnownInputs.{MayHave};
ghost use Rattle.tdcc_tool.specs.Reading.{LeavesOpen, ReadsAsNeeded};
ghost use Rattle.tdcc_tool.specs.Tasks.{IsGenerated, ReadsTrace, task_of};

use crate::answer::Stop;
use crate::dispatch::answer_command;
use command_words::command_of;
use std::alloc::Global;
use std::thread::Threads;
use tdcc_base::{Failed, Gate, Sink, Source, Status, write_all};

/// Writes a line to err, as far as err takes it.
fn tell<E: Sink>(err: &mut E, line: &[u8])
    ensures { WritesUntilFault (E.written err.old) (E.written err.new) (E.faults err.old) (E.faults err.new) line.now }
{
    let _ = write_all(err, line);
}

/// Does all that the program does: reads its words and its source, writes its answer to `out` and
/// the line of a status other than `Ok` to `err`, and answers the status.
///
/// The words are the arguments behind the program's name. Of the source, `run` and `report` read up to the line that ends
/// the run, `check` and `core` up to the mark behind the program text, each with what the last read gave beyond it, before
/// anything is written to `out`; `gen` reads nothing. No thread is started and the gate is not passed yet. A fault of `err`
/// changes no status.
pub fn tdcc<R: Threads + Sync, S: Source, K: Sink, E: Sink, G: Gate>(
    rt: &R,
    alloc: Global,
    words: &[String],
    source: &mut S,
    out: &mut K,
    err: &mut E,
    gate: &G,
) -> Status
    // The defined answer, where nothing cut the call short.
    ensures answer { IsComplete result → (bytes : List ℕ) → MayHave words.now (S.left source.old) bytes → (o e : List ℕ)
        × Answers words.now bytes result o e
        × Appends (K.written out.old) (K.written out.new) o
        × WritesUntilFault (E.written err.old) (E.written err.new) (E.faults err.old) (E.faults err.new) e }

    // What a fault, or memory that ran out, leaves.
    ensures cut_out { (bytes given : List ℕ) → MayHave words.now (S.left source.old) bytes
        → Consumes (S.left source.old) (S.left source.new) given
        → LeavesAfterFault result words.now bytes given (K.written out.old) (K.written out.new) }
    ensures no_trace { (command : Command) → WordsCall command words.now → ¬ ReadsTrace command
        → result ≡ Status.Read → out.new ≡ out.old }
    ensures fixed_line { IfSome (fixed_line result) (λ line.
        WritesUntilFault (E.written err.old) (E.written err.new) (E.faults err.old) (E.faults err.new) line) }
    ensures read { result ≡ Status.Read → Rose (S.faults source.old) (S.faults source.new) }
    ensures write { result ≡ Status.Write → Rose (K.faults out.old) (K.faults out.new) }

    // Where a run goes to its end: nothing but a fault or a lack of memory keeps it from that, and devices
    // that are sure not to fail do not.
    ensures whole { IfSome (S.left source.old) (λ bytes. IsRunnable words.now bytes →
        EndsWhole result (Rose (S.faults source.old) (S.faults source.new)) (Rose (K.faults out.old) (K.faults out.new))) }
    ensures steady { IsTrue (S.steady source.old) → result ≡ Status.Read → ⊥ }
    ensures roomy { (bytes : List ℕ) (s : Status) (o e : List ℕ) → MayHave words.now (S.left source.old) bytes
        → Answers words.now bytes s o e → FitsInto o (K.room out.old) → result ≡ Status.Write → ⊥ }

    // A generated run goes to its end, unless memory runs out or `out` fails.
    ensures generated_whole { (command : Command) → WordsCall command words.now → IsGenerated command →
        EndsWhole result ⊥ (Rose (K.faults out.old) (K.faults out.new)) }

    // Words that are none of the tool's.
    ensures usage { WordsCallNothing words.now ↔ (result ≡ Status.Usage) }
    ensures usage_source { result ≡ Status.Usage → source.new ≡ source.old }
    ensures usage_out { result ≡ Status.Usage → out.new ≡ out.old }

    // What was read, and which statuses there are.
    ensures reads { (command : Command) → WordsCall command words.now → ¬ IsGenerated command → result ≢ Status.Memory
        → ReadsAsNeeded S.read_gives (LeavesOpen (task_of command)) source.old source.new }
    ensures ended { (command : Command) → WordsCall command words.now → ReadsTrace command → result ≡ Status.Ok
        → OnSome (S.left source.old) (S.left source.new ≡ Some []) }
    ensures generated { (command : Command) → WordsCall command words.now → IsGenerated command
        → source.new ≡ source.old }
    ensures statuses { IsToolStatus result }
{
    let _ = rt;
    let _ = gate;
    let Some(command) = command_of(words) else {
        tell(err, b"tdcc: usage\n");
        return Status::Usage;
    };
    match answer_command(alloc, command, source) {
        Ok(answer) => match write_all(out, answer.out.as_slice()) {
            Ok(()) => {
                tell(err, answer.err.as_slice());
                answer.status
            }
            Err(Failed) => {
                tell(err, b"tdcc: write fault\n");
                Status::Write
            }
        },
        Err(Stop::Read) => {
            tell(err, b"tdcc: read fault\n");
            Status::Read
        }
        Err(Stop::Memory) => {
            tell(err, b"tdcc: out of memory\n");
            Status::Memory
        }
    }
}
