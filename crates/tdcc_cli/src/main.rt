//! The program `tdcc`: its words, the standard streams and the exit status around the call that
//! does all the work.
#![tactic(auto)]

ghost use Rattle.std.specs.Prelude.{◌≡◌};
ghost use Rattle.std.specs.Process.{exit_status};
ghost use Rattle.tdcc_base.specs.Statuses.{status_number};
ghost use Rattle.tdcc_base.specs.Written.{WritesUntilFault};
ghost use Rattle.tdcc_base.specs.declared.status.Status.{Status as StatusValue};
ghost use Rattle.tdcc_base.specs.declared.status.Status.TheVariants as statuses;
ghost use Rattle.tdcc_tool.specs.Contract.{KeepsContract};
ghost use Rattle.tdcc_tool.specs.Messages.{memory_line};

use std::alloc::Global;
use std::process::ExitCode;
use std::thread::Threads;
use std::{env, io};
use tdcc_base::{OpenGate, Sink, Source, Status, StdSink, StdSource, write_all};
use tdcc_tool::tdcc;

/// The words behind the program's name. Where one of them is no text there are none, as no command
/// has such a word.
fn words(rt: &HostRuntime) -> io::Result<Vec<String>> {
    match env::args(rt) {
        Ok(words) => Ok(words.skip(1).collect(rt.alloc())?),
        Err(error) => match error.kind() {
            io::ErrorKind::InvalidData => Ok(Vec::new(rt.alloc())),
            _ => Err(error),
        },
    }
}

/// Answers the words and the source, and gives the number of the status as the exit code.
fn answered<R: Threads + Sync, S: Source, K: Sink, E: Sink>(
    rt: &R,
    alloc: Global,
    words: &[String],
    source: &mut S,
    out: &mut K,
    err: &mut E,
) -> ExitCode
    // The code is the number of a status with which the call keeps the whole contract of `tdcc`.
    ensures { (s : StatusValue) × (exit_status result ≡ status_number s) × KeepsContract S.read_gives source.old source.new words.now s
        (record { left = S.left source.old; faults = S.faults source.old; steady = S.steady source.old })
        (record { left = S.left source.new; faults = S.faults source.new; steady = S.steady source.new })
        (record { written = K.written out.old; faults = K.faults out.old; room = K.room out.old })
        (record { written = K.written out.new; faults = K.faults out.new; room = K.room out.new })
        (record { written = E.written err.old; faults = E.faults err.old; room = E.room err.old })
        (record { written = E.written err.new; faults = E.faults err.new; room = E.room err.new }) }
{
    let status = tdcc(rt, alloc, words, source, out, err, &OpenGate);
    ExitCode::from(status.number())
}

/// Tells that there is no memory for the words, and gives the exit code of that.
fn without_words<E: Sink>(err: &mut E) -> ExitCode
    ensures code { exit_status result ≡ status_number statuses.Memory }
    ensures told { WritesUntilFault (E.written err.old) (E.written err.new) (E.faults err.old) (E.faults err.new) memory_line }
{
    let _ = write_all(err, b"tdcc: out of memory\n");
    ExitCode::from(Status::Memory.number())
}

fn main(rt: HostRuntime) -> ExitCode {
    let mut err = StdSink::new(rt.stderr());
    let Ok(words) = words(&rt) else {
        return without_words(&mut err);
    };
    let mut source = StdSource::new(rt.stdin());
    let mut out = StdSink::new(rt.stdout());
    answered(&rt, rt.alloc(), &words, &mut source, &mut out, &mut err)
}
