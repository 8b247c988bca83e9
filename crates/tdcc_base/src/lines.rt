//! An input as its text and lines.
ghost use Rattle.std.specs.Prelude.{◌≡◌, ◌<◌, ◌≤◌, Ok, Err, IfOk, IfSome, IsNone, IsErrOf, length};
ghost use Rattle.std.specs.Result.{result_err};
ghost use Rattle.tdcc_base.specs.Causes.{HasReadCause, Rose};
ghost use Rattle.tdcc_base.specs.Limits.{longest_text, longest_line, read_size};
ghost use Rattle.tdcc_base.specs.Promises.{StaysSteady};

use crate::buffers::Buffers;
use crate::limits::LONGEST_LINE;
use crate::outside::{Memory, Source};
use crate::stops::{LineEnd, ReadStop, TextEnd};
use std::alloc::Global;

/// Reads an input: its program text first, and then the lines of its trace, one after another.
///
/// The text ends before the first line that is `%%`, or `%%` and a carriage return. It has at most
/// 65,536 bytes, the line feed before the mark included. A line has at most 32,768 bytes without its
/// line feed, or as many as `with_limit` was given. A last line without a line feed counts where it is not empty.
///
/// Each read asks for 4,096 bytes, and is made only where what is held back has no whole line, or for the
/// text no mark with its line feed. After a read that failed, or answered that the source is at its end, none is made.
pub struct Lines<'a, S, B = Buffers> {
    source: &'a mut S,
    buffers: B,
}

impl<'a, S, B: Drop> Drop for Lines<'a, S, B> {
    fn drop(self)
        ensures { self.exit.0.now ≡ self.entry.source.now }
    {
        let Lines {
            source: _,
            buffers: _,
        } = self;
    }
}

impl<'a, S: Source> Lines<'a, S> {
    ghost use Rattle.tdcc_base.specs.Waiting.{waiting, source_of, held_back, text_read, line_read, limit_of, stop_of, reference_of, Opens, IsFirst, LinesReady, AtEnd, HasNotEnded, HoldsNothingBack, ReadsNoMoreAfterEnd, MakesLineReads, MakesTextReads};
    ghost use Rattle.tdcc_base.specs.Lines.{HasNoFeed, ReadsLine};
    ghost use Rattle.tdcc_base.specs.Texts.{ReadsText};

    /// Takes every buffer that the reading needs, and reads nothing.
    ///
    /// # Errors
    /// `Memory` where there is none for the buffers.
    pub fn new(alloc: Global, source: &'a mut S) -> Result<Lines<'a, S>, Memory>
        ensures same_reference { IfOk result (λ lines. reference_of lines ≡ source.entry.ghost_name) }
        ensures opens { IfOk result (λ lines. Opens S.left source.old lines) }
        ensures limit { IfOk result (λ lines. limit_of lines ≡ longest_line) }
    {
        Lines::with_limit(alloc, source, LONGEST_LINE)
    }

    /// Takes every buffer that the reading needs, where a line may have as many bytes as the limit says.
    /// It reads nothing.
    ///
    /// # Errors
    /// `Memory` where there is none for the buffers.
    pub fn with_limit(
        alloc: Global,
        source: &'a mut S,
        limit: usize,
    ) -> Result<Lines<'a, S>, Memory>
        ensures same_reference { IfOk result (λ lines. reference_of lines ≡ source.entry.ghost_name) }
        ensures opens { IfOk result (λ lines. Opens S.left source.old lines) }
        ensures limit { IfOk result (λ lines. limit_of lines ≡ limit) }
    {
        let buffers = Buffers::new(alloc, limit)?;
        Ok(Lines { source, buffers })
    }

    /// Reads the program text, once and before any line.
    ///
    /// # Errors
    /// `TooLong` where the text has more than 65,536 bytes, and `Read` where the source failed.
    /// Each later call answers the same and makes no read.
    pub fn read_text(&mut self) -> Result<TextEnd, ReadStop>
        requires first { IsFirst S.left self.old }
        ensures same_reference { reference_of self.new ≡ reference_of self.old }
        ensures limit { limit_of self.new ≡ limit_of self.old }
        ensures text { ReadsText (waiting S.left self.old) (waiting S.left self.new) (text_read self.new) result }
        ensures short { IfOk result (λ _. length (text_read self.new) ≤ longest_text) }
        ensures ready { LinesReady S.left self.new }
        ensures stopped { stop_of self.new ≡ result_err result }
        ensures going_on { IfOk result (λ _. IsNone (stop_of self.new)) }

        // The end of the source.
        ensures end { result ≡ Ok TextEnd.End → AtEnd self.new }
        ensures end_all { result ≡ Ok TextEnd.End → HoldsNothingBack S.left self.new }
        ensures no_more { ReadsNoMoreAfterEnd self.old self.new }

        // The reads of this call: none behind one that gave no bytes, and none that was not needed.
        ensures reads { MakesTextReads S.read_gives self.old self.new result }
        ensures bounded { length (held_back self.new) < read_size }

        // A fault of the source.
        ensures cause { HasReadCause (S.faults (source_of self.old)) (S.faults (source_of self.new)) result }
        ensures faults_only_rise { S.faults (source_of self.old) ≤ S.faults (source_of self.new) }
        ensures read { IsErrOf result ReadStop.Read →
            Rose (S.faults (source_of self.old)) (S.faults (source_of self.new)) }
        ensures read_before_end { IsErrOf result ReadStop.Read → HasNotEnded self.new }
        ensures read_all { IsErrOf result ReadStop.Read → HoldsNothingBack S.left self.new }

        // What a steady source is sure of.
        ensures steady { StaysSteady (S.steady (source_of self.old)) (S.steady (source_of self.new))
            (IsErrOf result ReadStop.Read) }
    {
        self.buffers.read_text(self.source)
    }

    /// Reads the next line.
    ///
    /// # Errors
    /// `TooLong` where the line has more bytes than its limit, and `Read` where the source failed.
    /// Each later call answers the same and makes no read.
    pub fn read_line(&mut self) -> Result<LineEnd, ReadStop>
        requires ready { LinesReady S.left self.old }
        ensures same_reference { reference_of self.new ≡ reference_of self.old }
        ensures limit { limit_of self.new ≡ limit_of self.old }
        ensures line { IsNone (stop_of self.old) →
            ReadsLine (limit_of self.old) (waiting S.left self.old) (waiting S.left self.new) (line_read self.new) result }
        ensures short { IfOk result (λ _. length (line_read self.new) ≤ limit_of self.old) }
        ensures text { text_read self.new ≡ text_read self.old }
        ensures ready { LinesReady S.left self.new }

        // A stop is kept, and answered again with no read.
        ensures repeats_stop { IfSome (stop_of self.old) (λ stop. (result ≡ Err stop) × (self.new ≡ self.old)) }
        ensures stopped { stop_of self.new ≡ result_err result }
        ensures going_on { IfOk result (λ _. IsNone (stop_of self.new)) }

        // The end of the source.
        ensures end { result ≡ Ok LineEnd.End → AtEnd self.new }
        ensures end_all { result ≡ Ok LineEnd.End → HoldsNothingBack S.left self.new }
        ensures after_end { IsNone (stop_of self.old) → AtEnd self.old → (result ≡ Ok LineEnd.End) × AtEnd self.new }
        ensures no_more { ReadsNoMoreAfterEnd self.old self.new }

        // The reads of this call: none behind one that gave no bytes, and none that was not needed.
        ensures reads { IsNone (stop_of self.old) → MakesLineReads S.read_gives self.old self.new result }
        ensures held { IsNone (stop_of self.old) → ¬ HasNoFeed (held_back self.old) →
            source_of self.new ≡ source_of self.old }
        ensures bounded { IsNone (stop_of self.old) → length (held_back self.new) < read_size }

        // A fault of the source.
        ensures cause { IsNone (stop_of self.old) →
            HasReadCause (S.faults (source_of self.old)) (S.faults (source_of self.new)) result }
        ensures faults_only_rise { S.faults (source_of self.old) ≤ S.faults (source_of self.new) }
        ensures read { IsNone (stop_of self.old) → IsErrOf result ReadStop.Read →
            Rose (S.faults (source_of self.old)) (S.faults (source_of self.new)) }
        ensures read_before_end { IsNone (stop_of self.old) → IsErrOf result ReadStop.Read → HasNotEnded self.new }
        ensures read_all { IsNone (stop_of self.old) → IsErrOf result ReadStop.Read → HoldsNothingBack S.left self.new }

        // What a steady source is sure of.
        ensures steady { IsNone (stop_of self.old) →
            StaysSteady (S.steady (source_of self.old)) (S.steady (source_of self.new)) (IsErrOf result ReadStop.Read) }
    {
        self.buffers.read_line(self.source)
    }

    /// The program text, once it was read. After a stop it is what was read of it.
    pub fn text(&self) -> &[u8]
        ensures { result.now ≡ text_read self.now }
    {
        self.buffers.text()
    }

    /// The line that was read last, without its line feed. After a stop it is what was read of it.
    pub fn line(&self) -> &[u8]
        ensures { result.now ≡ line_read self.now }
    {
        self.buffers.line()
    }
}
