//! A sink in memory.
ghost use Rattle.std.specs.Prelude.{◌≡◌, ◌<◌, ◌≤◌, ◌↔◌, ◌⊎◌, Some, IfOk, IsErr, [], length, vec_len, vec_capacity};
ghost use Rattle.std.specs.Io.KnownBytes.{WriteAppends};
ghost use Rattle.tdcc_base.specs.Causes.{HasCause};
ghost use Rattle.tdcc_base.specs.Promises.{TakesWithin};

use crate::calls::Calls;
use crate::outside::{Failed, Memory, Sink};
use std::alloc::Global;

/// A sink that holds in memory what it took, up to a room. Some of its calls fail.
#[derive(Drop)]
pub struct MemSink {
    bytes: Vec<u8>,
    room: usize,
    piece: usize,
    calls: Calls,
    ghost some: { 0 < piece },
    ghost within: { vec_len bytes ≤ room },
    ghost roomy: { room ≤ vec_capacity bytes },
}

impl MemSink {
    ghost use Rattle.tdcc_base.specs.Calls.{AreNew};
    ghost use Rattle.tdcc_base.specs.Rooms.{held, room_of, piece_of, sink_calls};

    /// A sink that holds at most `room` bytes and takes at most `piece` of them in one write.
    /// Its calls with the numbers in `fails` fail. Calls are numbered from 0.
    ///
    /// # Errors
    /// `Memory` where there is none for the room.
    pub fn new(alloc: Global, room: usize, piece: usize, fails: Vec<u64>) -> Result<MemSink, Memory>
        requires { 0 < piece }
        ensures room { IfOk result (λ sink. room_of sink ≡ room) }
        ensures piece { IfOk result (λ sink. piece_of sink ≡ piece) }
        ensures bytes { IfOk result (λ sink. ⟦<MemSink as Sink>⟧.written sink ≡ Some []) }
        ensures calls { IfOk result (λ sink. AreNew (sink_calls sink) fails.items) }
        ensures faults { IfOk result (λ sink. ⟦<MemSink as Sink>⟧.faults sink ≡ 0) }
        ensures promise { IfOk result (λ sink. fails.items ≡ [] → ⟦<MemSink as Sink>⟧.room sink ≡ Some room) }
    {
        let bytes = Vec::with_capacity(alloc, room)?;
        Ok(MemSink {
            bytes,
            room,
            piece,
            calls: Calls::new(fails),
        })
    }

    /// What was written.
    pub fn bytes(&self) -> &[u8]
        ensures bytes { result.now ≡ held self.now }
        ensures written { ⟦<MemSink as Sink>⟧.written self.now ≡ Some result.now }
    {
        self.bytes.as_slice()
    }
}

impl Sink for MemSink {
    ghost use Rattle.tdcc_base.specs.Calls.{IsListed, Counted};
    ghost use Rattle.tdcc_base.specs.Rooms.{held, free_room, sure_room, taken_of, sink_calls, SameRoom};

    ghost written = { λ s. Some (held s) };

    ghost faults = { λ s. (sink_calls s).faults };

    ghost room = { sure_room };

    /// Takes as many bytes as `from` has, the room that is left allows, and one write may take.
    ///
    /// # Errors
    /// `Failed` exactly where the call is listed, or no room is left.
    fn write(&mut self, from: &[u8]) -> Result<usize, Failed>
        requires { 0 < length from.now }
        ensures some { IfOk result (λ n. 0 < n) }
        ensures bound { IfOk result (λ n. n ≤ length from.now) }
        ensures bytes { WriteAppends (Some (held self.old)) (Some (held self.new)) result from.now }
        ensures cause { HasCause (sink_calls self.old).faults (sink_calls self.new).faults result }
        ensures promise { TakesWithin (sure_room self.old) (sure_room self.new) result }
        ensures fails { IsErr result ↔ (IsListed (sink_calls self.old) ⊎ (free_room self.old ≡ 0)) }
        ensures counts { Counted (sink_calls self.old) (sink_calls self.new) result }
        ensures takes { IfOk result (λ n. n ≡ taken_of self.old (length from.now)) }
        ensures room { SameRoom self.old self.new }
    {
        let listed = self.calls.begin();
        let free = self.room - self.bytes.len();
        if listed || free == 0 {
            self.calls.fail();
            return Err(Failed);
        }
        let count = from.len().min(free).min(self.piece);
        match self.bytes.extend_from_slice(&from[..count]) {
            Ok(()) => Ok(count),
            Err(_) => unreachable!(),
        }
    }
}
