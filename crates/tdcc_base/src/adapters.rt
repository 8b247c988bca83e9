//! Readers and writers of the standard library as sources and sinks.
ghost use Rattle.std.specs.Prelude.{◌≡◌, ◌<◌, ◌≤◌, ℕ, List, Result, false, None, IfOk, IsErr, length};
ghost use Rattle.std.specs.Io.{ReadsAtMost, WritesAtMost};
ghost use Rattle.std.specs.Io.KnownBytes.{ReadConsumes, WriteAppends};
ghost use Rattle.std.specs.declared.io.Error.{Error};
ghost use Rattle.tdcc_base.specs.Causes.{HasCause, CountsFault};
ghost use Rattle.tdcc_base.specs.Own.{PassesOn, PassesSomeOn};
ghost use Rattle.tdcc_base.specs.Promises.{StaysSteady, TakesWithin};

use crate::outside::{Failed, Sink, Source};
use std::io;
use std::io::{Read, Write};

/// A reader of std whose reads contracts can name. Each reader of std is one.
pub trait Reader: Read {
    /// What one read may do: the reader before it, the bytes that it was lent as they are after it, its answer, and the
    /// reader after it.
    ghost answers: { Self → List ℕ → Result ℕ Error → Self → Type 0 };

    /// Reads once, as `Read` does.
    fn read_once(&mut self, into: &mut [u8]) -> io::Result<usize>
        ensures bound { ReadsAtMost result into.new }
        ensures bytes { ReadConsumes (Self.remaining self.old) (Self.remaining self.new) result into.new }
        ensures own { answers self.old into.new result self.new };
}

impl<R: Read> Reader for R {
    ghost answers = { λ _ _ _ _. Unit {0} };

    fn read_once(&mut self, into: &mut [u8]) -> io::Result<usize> {
        self.read(into)
    }
}

/// A writer of std whose writes contracts can name. Each writer of std is one.
pub trait Writer: Write {
    /// What one write may do: the writer before it, the bytes that it was given, its answer, and the writer after it.
    ghost answers: { Self → List ℕ → Result ℕ Error → Self → Type 0 };

    /// Writes once, as `Write` does.
    fn write_once(&mut self, from: &[u8]) -> io::Result<usize>
        ensures bound { WritesAtMost result from.now }
        ensures bytes { WriteAppends (Self.contents self.old) (Self.contents self.new) result from.now }
        ensures own { answers self.old from.now result self.new };
}

impl<W: Write> Writer for W {
    ghost answers = { λ _ _ _ _. Unit {0} };

    fn write_once(&mut self, from: &[u8]) -> io::Result<usize> {
        self.write(from)
    }
}

/// A reader of std as a source. It counts the reader's errors, and tells what the reader tells.
#[derive(Drop)]
pub struct StdSource<R> {
    reader: R,
    faults: u64,
}

impl<R: Read> StdSource<R> {
    /// A source over the reader, which has not failed yet.
    pub fn new(reader: R) -> StdSource<R>
        ensures bytes { ⟦<StdSource<R> as Source>⟧.left result ≡ R.remaining reader }
        ensures faults { ⟦<StdSource<R> as Source>⟧.faults result ≡ 0 }
    {
        StdSource { reader, faults: 0 }
    }
}

impl<R: Reader> Source for StdSource<R> {
    ghost left = { λ s. R.remaining s.reader };

    ghost faults = { λ s. s.faults };

    ghost steady = { λ _. false };

    ghost read_gives = { λ s lent answer t. (own : Result ℕ Error) × R.answers s.reader lent own t.reader
        × PassesOn own answer × CountsFault s.faults t.faults answer };

    /// Reads as the reader does: it fails exactly where the reader's own answer is an error, and that is counted.
    fn read(&mut self, into: &mut [u8]) -> Result<usize, Failed>
        requires { 0 < length into.old }
        ensures bound { ReadsAtMost result into.new }
        ensures bytes { ReadConsumes (R.remaining self.old.reader) (R.remaining self.new.reader) result into.new }
        ensures cause { HasCause self.old.faults self.new.faults result }
        ensures steady { StaysSteady false false (IsErr result) }
        ensures own { (own : Result ℕ Error) × R.answers self.old.reader into.new own self.new.reader
            × PassesOn own result × CountsFault self.old.faults self.new.faults result }
    {
        match self.reader.read_once(into) {
            Ok(count) => Ok(count),
            Err(_) => {
                self.faults = self.faults.saturating_add(1);
                Err(Failed)
            }
        }
    }
}

/// A writer of std as a sink. It counts the writer's errors and the writes that took nothing,
/// and tells what the writer tells.
#[derive(Drop)]
pub struct StdSink<W> {
    writer: W,
    faults: u64,
}

impl<W: Write> StdSink<W> {
    /// A sink over the writer, which has not failed yet.
    pub fn new(writer: W) -> StdSink<W>
        ensures bytes { ⟦<StdSink<W> as Sink>⟧.written result ≡ W.contents writer }
        ensures faults { ⟦<StdSink<W> as Sink>⟧.faults result ≡ 0 }
    {
        StdSink { writer, faults: 0 }
    }
}

impl<W: Writer> Sink for StdSink<W> {
    ghost written = { λ s. W.contents s.writer };

    ghost faults = { λ s. s.faults };

    ghost room = { λ _. None };

    /// Writes as the writer does: it fails exactly where the writer's own answer is an error, or that nothing was taken,
    /// and that is counted.
    fn write(&mut self, from: &[u8]) -> Result<usize, Failed>
        requires { 0 < length from.now }
        ensures some { IfOk result (λ n. 0 < n) }
        ensures bound { IfOk result (λ n. n ≤ length from.now) }
        ensures bytes { WriteAppends (W.contents self.old.writer) (W.contents self.new.writer) result from.now }
        ensures cause { HasCause self.old.faults self.new.faults result }
        ensures promise { TakesWithin None None result }
        ensures own { (own : Result ℕ Error) × W.answers self.old.writer from.now own self.new.writer
            × PassesSomeOn own result × CountsFault self.old.faults self.new.faults result }
    {
        match self.writer.write_once(from) {
            Ok(count) if count > 0 => Ok(count),
            _ => {
                self.faults = self.faults.saturating_add(1);
                Err(Failed)
            }
        }
    }
}
