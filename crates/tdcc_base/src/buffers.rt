//! What was read of an input and is not handed out yet.
ghost use Rattle.std.specs.Prelude.{◌≡◌, ◌<◌, ◌≤◌, Ok, Err, Some, IfOk, IfSome, IsNone, IsErrOf, [], length, drop, vec_len, vec_capacity};
ghost use Rattle.std.specs.Result.{result_err};
ghost use Rattle.tdcc_base.specs.Causes.{HasReadCause, Rose};
ghost use Rattle.tdcc_base.specs.Limits.{longest_text, read_size, room_for_text};
ghost use Rattle.tdcc_base.specs.Promises.{StaysSteady};
ghost use Rattle.tdcc_base.specs.Texts.{is_mark};

use crate::limits::{LONGEST_TEXT, TEXT_ROOM};
use crate::outside::{Memory, Source};
use crate::read_ahead::{LineBreak, ReadAhead, push_within};
use crate::stops::{LineEnd, ReadStop, TextEnd};
use std::alloc::Global;

/// What was read of a source and is not handed out yet, and room for a text and for a line within the limit.
#[derive(Drop)]
pub struct Buffers {
    ahead: ReadAhead,
    stop: Option<ReadStop>,
    text: Vec<u8>,
    line: Vec<u8>,
    limit: usize,
    ghost text_room: { room_for_text ≤ vec_capacity text },
    ghost line_room: { limit ≤ vec_capacity line },
}

impl Buffers {
    ghost use Rattle.tdcc_base.specs.Unread.{pending, unread, IsReady, IsOver, IsDrained, StaysEnded};
    ghost use Rattle.tdcc_base.specs.Waiting.{IsUnused};
    ghost use Rattle.tdcc_base.specs.Lines.{HasNoFeed, ReadsLine};
    ghost use Rattle.tdcc_base.specs.Reads.{ReadsForLine, ReadsForText};
    ghost use Rattle.tdcc_base.specs.Texts.{ReadsText};

    /// Nothing read yet. A line may have as many bytes as the limit says.
    pub(crate) fn new(alloc: Global, limit: usize) -> Result<Buffers, Memory>
        ensures fresh { IfOk result IsUnused }
        ensures limit { IfOk result (λ buffers. buffers.limit ≡ limit) }
    {
        let ahead = ReadAhead::new(alloc)?;
        let text = Vec::with_capacity(alloc, TEXT_ROOM)?;
        let line = Vec::with_capacity(alloc, limit)?;
        Ok(Buffers {
            ahead,
            stop: None,
            text,
            line,
            limit,
        })
    }

    pub(crate) fn text(&self) -> &[u8]
        ensures { result.now ≡ self.now.text.items }
    {
        self.text.as_slice()
    }

    pub(crate) fn line(&self) -> &[u8]
        ensures { result.now ≡ self.now.line.items }
    {
        self.line.as_slice()
    }

    /// Reads the next line. After a stop it answers the same stop, and reads nothing.
    pub(crate) fn read_line<S: Source>(&mut self, source: &mut S) -> Result<LineEnd, ReadStop>
        requires ready { IsReady S.left self.old.ahead source.old }
        ensures line { IsNone self.old.stop → ReadsLine self.old.limit (unread S.left self.old.ahead source.old)
            (unread S.left self.new.ahead source.new) self.new.line.items result }
        ensures repeats_stop { IfSome self.old.stop
            (λ stop. (result ≡ Err stop) × (self.new ≡ self.old) × (source.new ≡ source.old)) }
        ensures stopped { self.new.stop ≡ result_err result }
        ensures ready { IsReady S.left self.new.ahead source.new }
        ensures end { result ≡ Ok LineEnd.End → IsOver self.new.ahead }
        ensures drained { IsNone self.old.stop → IsErrOf result ReadStop.Read → IsDrained self.new.ahead }
        ensures stays { StaysEnded self.old.ahead self.new.ahead source.old source.new }
        ensures over { IsNone self.old.stop → IsOver self.old.ahead →
            (result ≡ Ok LineEnd.End) × IsOver self.new.ahead }
        ensures faults_only_rise { S.faults source.old ≤ S.faults source.new }
        ensures read { IsNone self.old.stop → IsErrOf result ReadStop.Read →
            Rose (S.faults source.old) (S.faults source.new) }
        ensures steady { IsNone self.old.stop →
            StaysSteady (S.steady source.old) (S.steady source.new) (IsErrOf result ReadStop.Read) }
        ensures short { IfOk result (λ _. vec_len self.new.line ≤ self.old.limit) }
        ensures reads { IsNone self.old.stop →
            ReadsForLine S.read_gives self.old.limit self.new.line.items result self.old.ahead self.new.ahead source.old source.new }
        ensures held { IsNone self.old.stop → ¬ HasNoFeed (pending self.old.ahead) → source.new ≡ source.old }
        ensures bounded { IsNone self.old.stop → length (pending self.new.ahead) < read_size }
        ensures cause { IsNone self.old.stop → HasReadCause (S.faults source.old) (S.faults source.new) result }
        ensures text { self.new.text ≡ self.old.text }
        ensures limit { self.new.limit ≡ self.old.limit }
    {
        if let Some(stop) = self.stop {
            return Err(stop);
        }
        self.line.clear();
        match self.ahead.append_line(source, &mut self.line, self.limit) {
            Ok(LineBreak::Feed) => Ok(LineEnd::Line),
            Ok(LineBreak::End) if self.line.is_empty() => Ok(LineEnd::End),
            Ok(LineBreak::End) => Ok(LineEnd::Line),
            Err(stop) => {
                self.stop = Some(stop);
                Err(stop)
            }
        }
    }

    /// Reads the text, once and first.
    pub(crate) fn read_text<S: Source>(&mut self, source: &mut S) -> Result<TextEnd, ReadStop>
        requires ready { IsReady S.left self.old.ahead source.old }
        requires first { IsUnused self.old }
        ensures limit { self.new.limit ≡ self.old.limit }
        ensures text { ReadsText (unread S.left self.old.ahead source.old)
            (unread S.left self.new.ahead source.new) self.new.text.items result }
        ensures stopped { self.new.stop ≡ result_err result }
        ensures ready { IsReady S.left self.new.ahead source.new }
        ensures end { result ≡ Ok TextEnd.End → IsOver self.new.ahead }
        ensures drained { IsErrOf result ReadStop.Read → IsDrained self.new.ahead }
        ensures stays { StaysEnded self.old.ahead self.new.ahead source.old source.new }
        ensures short { IfOk result (λ _. vec_len self.new.text ≤ longest_text) }
        ensures reads { ReadsForText S.read_gives self.new.text.items result self.old.ahead self.new.ahead source.old source.new }
        ensures bounded { length (pending self.new.ahead) < read_size }
        ensures cause { HasReadCause (S.faults source.old) (S.faults source.new) result }
        ensures faults_only_rise { S.faults source.old ≤ S.faults source.new }
        ensures read { IsErrOf result ReadStop.Read → Rose (S.faults source.old) (S.faults source.new) }
        ensures steady { StaysSteady (S.steady source.old) (S.steady source.new) (IsErrOf result ReadStop.Read) }
    {
        let result = self.finish_text(source);
        if let Err(stop) = result {
            self.stop = Some(stop);
        }
        result
    }

    /// Reads lines of text up to a mark or the end.
    fn finish_text<S: Source>(&mut self, source: &mut S) -> Result<TextEnd, ReadStop>
        requires ready { IsReady S.left self.old.ahead source.old }
        requires empty { self.old.text.items ≡ [] }
        ensures text { ReadsText (unread S.left self.old.ahead source.old)
            (unread S.left self.new.ahead source.new) self.new.text.items result }
        ensures ready { IsReady S.left self.new.ahead source.new }
        ensures end { result ≡ Ok TextEnd.End → IsOver self.new.ahead }
        ensures drained { IsErrOf result ReadStop.Read → IsDrained self.new.ahead }
        ensures stays { StaysEnded self.old.ahead self.new.ahead source.old source.new }
        ensures short { IfOk result (λ _. vec_len self.new.text ≤ longest_text) }
        ensures reads { ReadsForText S.read_gives self.new.text.items result self.old.ahead self.new.ahead source.old source.new }
        ensures bounded { length (pending self.new.ahead) < read_size }
        ensures cause { HasReadCause (S.faults source.old) (S.faults source.new) result }
        ensures faults_only_rise { S.faults source.old ≤ S.faults source.new }
        ensures read { IsErrOf result ReadStop.Read → Rose (S.faults source.old) (S.faults source.new) }
        ensures steady { StaysSteady (S.steady source.old) (S.steady source.new) (IsErrOf result ReadStop.Read) }
        ensures stop { self.new.stop ≡ self.old.stop }
        ensures limit { self.new.limit ≡ self.old.limit }
    {
        'lines: loop {
            let start = self.text.len();
            let line_break = self.ahead.append_line(source, &mut self.text, TEXT_ROOM)?;
            if is_mark_at(self.text.as_slice(), start) {
                self.text.truncate(start);
                return Ok(TextEnd::Mark);
            }
            match line_break {
                LineBreak::End => {
                    if self.text.len() > LONGEST_TEXT {
                        return Err(ReadStop::TooLong);
                    }
                    return Ok(TextEnd::End);
                }
                LineBreak::Feed => {
                    if self.text.len() >= LONGEST_TEXT {
                        return Err(ReadStop::TooLong);
                    }
                    push_within(&mut self.text, b'\n');
                }
            }
        }
    }
}

/// Whether the bytes of the text from `start` on are a mark.
fn is_mark_at(text: &[u8], start: usize) -> bool
    requires { start ≤ length text.now }
    ensures { result ≡ is_mark (drop start text.now) }
{
    is_mark_line(&text[start..])
}

/// Whether the line is two percent signs, and it may be a carriage return.
fn is_mark_line(line: &[u8]) -> bool
    ensures { result ≡ is_mark line.now }
{
    match line {
        [a, b] => *a == b'%' && *b == b'%',
        [a, b, c] => *a == b'%' && *b == b'%' && *c == b'\r',
        _ => false,
    }
}
