//! The bytes of a source one by one, and lines within a limit.
ghost use Rattle.std.specs.Prelude.{◌≡◌, ◌-◌, ◌<◌, ◌≤◌, true, false, is_err, IfOk, OnErr, IsErr, IsErrOf, IsSome, [], ◌∷◌, ◌++◌, length, vec_len, vec_capacity};
ghost use Rattle.std.specs.Bool.{MatchBool};
ghost use Rattle.std.specs.Io.KnownBytes.{Keeps, IsAtEnd};
ghost use Rattle.tdcc_base.specs.Causes.{HasCause, HasReadCause, Rose};
ghost use Rattle.tdcc_base.specs.Limits.{read_size};
ghost use Rattle.tdcc_base.specs.Promises.{StaysSteady};

use crate::limits::READ_SIZE;
use crate::outside::{Failed, Memory, Source};
use crate::stops::ReadStop;
use std::alloc::Global;

/// What a line ended with.
#[derive(Clone, Copy, Debug, PartialEq, Eq)]
pub enum LineBreak {
    /// A line feed.
    Feed,
    /// The end of the bytes.
    End,
}

/// What was read of a source and is not handed out yet. Each read asks for 4,096 bytes, and is made
/// only where nothing is left to hand out.
#[derive(Drop)]
pub struct ReadAhead {
    chunk: Vec<u8>,
    from: usize,
    to: usize,
    ended: bool,
    ghost sized: { vec_len chunk ≡ read_size },
    ghost ordered: { from ≤ to },
    ghost within: { to ≤ read_size },
}

impl ReadAhead {
    ghost use Rattle.tdcc_base.specs.Unread.{pending, unread, Gave, IsReady, IsOver, IsDrained, StaysEnded, AppendsLine};
    ghost use Rattle.tdcc_base.specs.Lines.{IsOpenLine};
    ghost use Rattle.tdcc_base.specs.Reads.{ReadsOf, IsNothing, HandsOut, is_read_fault};

    pub(crate) fn new(alloc: Global) -> Result<ReadAhead, Memory>
        ensures { IfOk result IsDrained }
    {
        let chunk = vec![in alloc; 0; READ_SIZE]?;
        Ok(ReadAhead {
            chunk,
            from: 0,
            to: 0,
            ended: false,
        })
    }

    /// Reads on where nothing is left to hand out. Answers whether something is left now.
    fn fill<S: Source>(&mut self, source: &mut S) -> Result<bool, Failed>
        requires { IsReady S.left self.old source.old }
        ensures same { Keeps (unread S.left self.old source.old) (unread S.left self.new source.new) }
        ensures more { IfOk result (λ more. MatchBool more (self.new.from < self.new.to) (IsAtEnd (unread S.left self.new source.new))) }
        ensures none { result ≡ Ok false → IsOver self.new }
        ensures err { OnErr result (IsDrained self.new) }
        ensures ready { IsReady S.left self.new source.new }
        ensures stays { StaysEnded self.old self.new source.old source.new }
        ensures over { IsOver self.old → (result ≡ Ok false) × (self.new ≡ self.old) }
        ensures reads { ReadsOf S.read_gives IsNothing (λ bytes left. left ≡ bytes) self.old self.new
            (is_err result) source.old source.new }
        ensures going { result ≡ Ok true → self.new.ended ≡ self.old.ended }
        ensures cause { HasCause (S.faults source.old) (S.faults source.new) result }
        ensures steady { StaysSteady (S.steady source.old) (S.steady source.new) (IsErr result) }
    {
        if self.from < self.to {
            return Ok(true);
        }
        if self.ended {
            return Ok(false);
        }
        self.from = 0;
        self.to = 0;
        let count = source.read(&mut self.chunk)?;
        if count == 0 {
            self.ended = true;
            return Ok(false);
        }
        self.to = count;
        Ok(true)
    }

    /// The next byte, or none where none is left.
    fn next<S: Source>(&mut self, source: &mut S) -> Result<Option<u8>, Failed>
        requires { IsReady S.left self.old source.old }
        ensures gave { IfOk result (λ byte. Gave byte (unread S.left self.old source.old) (unread S.left self.new source.new)) }
        ensures none { result ≡ Ok None → IsOver self.new }
        ensures err { OnErr result (Keeps (unread S.left self.old source.old) (unread S.left self.new source.new)) }
        ensures drained { OnErr result (IsDrained self.new) }
        ensures ready { IsReady S.left self.new source.new }
        ensures stays { StaysEnded self.old self.new source.old source.new }
        ensures over { IsOver self.old → (result ≡ Ok None) × (self.new ≡ self.old) }
        ensures reads { ReadsOf S.read_gives IsNothing (HandsOut result) self.old self.new
            (is_err result) source.old source.new }
        ensures going { IfOk result (λ byte. IsSome byte → self.new.ended ≡ self.old.ended) }
        ensures bounded { IfOk result (λ byte. IsSome byte → length (pending self.new) < read_size) }
        ensures cause { HasCause (S.faults source.old) (S.faults source.new) result }
        ensures steady { StaysSteady (S.steady source.old) (S.steady source.new) (IsErr result) }
    {
        let more = self.fill(source)?;
        if more {
            let byte = self.chunk[self.from];
            self.from += 1;
            return Ok(Some(byte));
        }
        Ok(None)
    }

    /// Appends the bytes up to the next line feed to `into`, which may then have `limit` bytes in all.
    /// The line feed is taken too, and left out.
    pub(crate) fn append_line<S: Source>(
        &mut self,
        source: &mut S,
        into: &mut Vec<u8>,
        limit: usize,
    ) -> Result<LineBreak, ReadStop>
        requires ready { IsReady S.left self.old source.old }
        requires within { vec_len into.old ≤ limit }
        requires room { limit ≤ vec_capacity into.old }
        ensures line { AppendsLine (unread S.left self.old source.old)
            (unread S.left self.new source.new) into.old.items into.new.items limit result }
        ensures within { vec_len into.new ≤ limit }
        ensures room { limit ≤ vec_capacity into.new }
        ensures ready { IsReady S.left self.new source.new }
        ensures end { result ≡ Ok LineBreak.End → IsOver self.new }
        ensures drained { IsErrOf result ReadStop.Read → IsDrained self.new }
        ensures stays { StaysEnded self.old self.new source.old source.new }
        ensures over { IsOver self.old → (result ≡ Ok LineBreak.End) × (self.new ≡ self.old)
            × (into.new.items ≡ into.old.items) }
        ensures reads { ReadsOf S.read_gives (IsOpenLine (limit - length into.old.items))
            (λ bytes left. AppendsLine (Some bytes) (Some left) into.old.items into.new.items limit result)
            self.old self.new (is_read_fault result) source.old source.new }
        ensures going { result ≡ Ok LineBreak.Feed → self.new.ended ≡ self.old.ended }
        ensures bounded { length (pending self.new) < read_size }
        ensures cause { HasReadCause (S.faults source.old) (S.faults source.new) result }
        ensures faults_only_rise { S.faults source.old ≤ S.faults source.new }
        ensures read { IsErrOf result ReadStop.Read → Rose (S.faults source.old) (S.faults source.new) }
        ensures steady { StaysSteady (S.steady source.old) (S.steady source.new) (IsErrOf result ReadStop.Read) }
    {
        'bytes: loop {
            match self.next(source) {
                Err(Failed) => return Err(ReadStop::Read),
                Ok(None) => return Ok(LineBreak::End),
                Ok(Some(byte)) => {
                    if byte == b'\n' {
                        return Ok(LineBreak::Feed);
                    }
                    if into.len() == limit {
                        return Err(ReadStop::TooLong);
                    }
                    push_within(into, byte);
                }
            }
        }
    }
}

/// Pushes a byte onto bytes that have room for it.
pub(crate) fn push_within(bytes: &mut Vec<u8>, byte: u8)
    requires { vec_len bytes.old < vec_capacity bytes.old }
    ensures items { bytes.new.items ≡ bytes.old.items ++ byte ∷ [] }
    ensures room { vec_capacity bytes.old ≤ vec_capacity bytes.new }
{
    match bytes.push(byte) {
        Ok(()) => {}
        Err(_) => unreachable!(),
    }
}
