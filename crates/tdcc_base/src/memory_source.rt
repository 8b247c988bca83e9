//! A source in memory.
ghost use Rattle.std.specs.Prelude.{◌≡◌, ◌<◌, ◌≤◌, ◌↔◌, Some, IfOk, OnErr, IsErr, IsTrue, [], length, vec_len};
ghost use Rattle.std.specs.List.{concat};
ghost use Rattle.std.specs.Io.{ReadsAtMost};
ghost use Rattle.std.specs.Io.KnownBytes.{ReadConsumes};
ghost use Rattle.tdcc_base.specs.Causes.{HasCause};
ghost use Rattle.tdcc_base.specs.Promises.{StaysSteady};

use crate::calls::Calls;
use crate::outside::{Failed, Source};

/// A source that gives pieces of bytes that stand in memory. Some of its calls fail.
#[derive(Drop)]
pub struct MemSource {
    pieces: Vec<Vec<u8>>,
    place: usize,
    given: usize,
    calls: Calls,
    ghost within: { place ≤ vec_len pieces },
}

impl MemSource {
    ghost use Rattle.tdcc_base.specs.Calls.{AreNew};
    ghost use Rattle.tdcc_base.specs.Chunks.{chunk_bytes, skip_empty, pieces_left, source_calls, AtPiece};

    /// A source of these pieces, whose calls with the numbers in `fails` fail. Calls are numbered from 0.
    pub fn new(pieces: Vec<Vec<u8>>, fails: Vec<u64>) -> MemSource
        ensures pieces { pieces_left result ≡ skip_empty (chunk_bytes pieces.items) }
        ensures bytes { ⟦<MemSource as Source>⟧.left result ≡ Some (concat (chunk_bytes pieces.items)) }
        ensures calls { AreNew (source_calls result) fails.items }
        ensures faults { ⟦<MemSource as Source>⟧.faults result ≡ 0 }
        ensures steady { IsTrue (⟦<MemSource as Source>⟧.steady result) ↔ (fails.items ≡ []) }
    {
        MemSource {
            pieces,
            place: 0,
            given: 0,
            calls: Calls::new(fails),
        }
    }

    /// Goes on to the first piece that has some bytes left.
    fn skip(&mut self)
        ensures left { pieces_left self.new ≡ pieces_left self.old }
        ensures calls { source_calls self.new ≡ source_calls self.old }
        ensures some { AtPiece self.new }
    {
        while self.place < self.pieces.len() {
            if self.given < self.pieces[self.place].len() {
                break;
            }
            self.place += 1;
            self.given = 0;
        }
    }
}

impl Source for MemSource {
    ghost use Rattle.tdcc_base.specs.Calls.{lists_none};
    ghost use Rattle.tdcc_base.specs.Chunks.{pieces_left, source_calls, GivesNext};

    ghost left = { λ s. Some (concat (pieces_left s)) };

    ghost faults = { λ s. (source_calls s).faults };

    ghost steady = { λ s. lists_none (source_calls s) };

    ghost read_gives = { GivesNext };

    /// Reads bytes of the first piece that has some left, as many as `into` has room for.
    fn read(&mut self, into: &mut [u8]) -> Result<usize, Failed>
        requires { 0 < length into.old }
        ensures bound { ReadsAtMost result into.new }
        ensures bytes { ReadConsumes (Some (concat (pieces_left self.old)))
            (Some (concat (pieces_left self.new))) result into.new }
        ensures cause { HasCause (source_calls self.old).faults (source_calls self.new).faults result }
        ensures steady { StaysSteady (lists_none (source_calls self.old)) (lists_none (source_calls self.new))
            (IsErr result) }
        ensures own { GivesNext self.old into.new result self.new }
    {
        if self.calls.begin() {
            self.calls.fail();
            return Err(Failed);
        }
        self.skip();
        if self.place == self.pieces.len() {
            return Ok(0);
        }
        let piece = &self.pieces[self.place][self.given..];
        let count = into.len().min(piece.len());
        into[..count].copy_from_slice(&piece[..count]);
        self.given += count;
        Ok(count)
    }
}
