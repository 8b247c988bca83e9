//! Inputs in pieces, and devices that fail.
ghost use Rattle.std.specs.Prelude.{◌<◌, IfOk, IsTrue};

use crate::{
    Acted, Failed, Gate, LineEnd, Lines, MemSink, MemSource, Memory, OpenGate, ReadStop, Sink,
    Source, Status, StdSink, StdSource, TextEnd, write_all,
};
use std::alloc::Global;
use std::io;
use std::io::Read;
use std::process::Abort;
use std::test::Fail;

/// A source that gives the bytes in pieces of `size` bytes.
fn source_of(alloc: Global, bytes: &[u8], size: usize) -> Result<MemSource, Memory>
    requires { 0 < size }
    ensures { IfOk result (λ source. IsTrue (⟦<MemSource as Source>⟧.steady source)) }
{
    let mut pieces = Vec::new(alloc);
    for piece in bytes.chunks(size) {
        pieces.push(piece.to_vec(alloc)?)?;
    }
    Ok(MemSource::new(pieces, Vec::new(alloc)))
}

/// `count` bytes `a`, and then `rest`.
fn many(alloc: Global, count: usize, rest: &[u8]) -> Result<Vec<u8>, Memory> {
    let mut bytes = vec![in alloc; b'a'; count]?;
    bytes.extend_from_slice(rest)?;
    Ok(bytes)
}

/// The text of an input, `#` where a mark stands behind it and `$` where none does, and its lines, each with a `|`.
/// At most `most` lines are read.
fn shown<S: Source>(alloc: Global, source: &mut S, most: usize) -> Result<Vec<u8>, Memory> {
    let mut shown = Vec::new(alloc);
    let mut lines = Lines::new(alloc, source)?;
    let end = lines.read_text();
    shown.extend_from_slice(lines.text())?;
    shown.push(if end == Ok(TextEnd::Mark) { b'#' } else { b'$' })?;
    'lines: for _ in 0..most {
        if lines.read_line() != Ok(LineEnd::Line) {
            break;
        }
        shown.extend_from_slice(lines.line())?;
        shown.push(b'|')?;
    }
    Ok(shown)
}

/// Asserts that the input is shown so, in pieces of whatever size it comes.
fn assert_shown(rt: &impl Abort, alloc: Global, input: &[u8], wanted: &[u8]) -> Result<(), Fail> {
    for size in [1, 2, 7, 4096] {
        let mut source = source_of(alloc, input, size)?;
        let got = shown(alloc, &mut source, 9)?;
        assert_eq!(rt; got.as_slice(), wanted);
    }
    Ok(())
}

#[test]
fn pieces_of_any_size_make_the_same_lines(rt: HostRuntime) -> Result<(), Fail> {
    let input = b"signal a;\na\n%%\nfirst\n\nthird\r\nlast";
    assert_shown(
        &rt,
        rt.alloc(),
        input,
        b"signal a;\na\n#first||third\r|last|",
    )
}

#[test]
fn a_mark_is_two_percent_signs_and_it_may_be_a_carriage_return(
    rt: HostRuntime,
) -> Result<(), Fail> {
    let alloc = rt.alloc();
    assert_shown(&rt, alloc, b"a\n%%\r\nb\n", b"a\n#b|")?;
    assert_shown(&rt, alloc, b"%%\n%%\n", b"#%%|")?;
    assert_shown(&rt, alloc, b"a\n%%", b"a\n#")?;
    assert_shown(&rt, alloc, b"a\n%%\r", b"a\n#")?;
    assert_shown(
        &rt,
        alloc,
        b"a\n%% \nb%%\n%%%\n%\n",
        b"a\n%% \nb%%\n%%%\n%\n$",
    )?;
    assert_shown(&rt, alloc, b"", b"$")
}

/// Reads the text of the input.
fn read_text_of(alloc: Global, input: &[u8]) -> Result<Result<TextEnd, ReadStop>, Memory> {
    let mut source = source_of(alloc, input, 4096)?;
    let mut lines = Lines::new(alloc, &mut source)?;
    Ok(lines.read_text())
}

#[test]
fn a_text_has_at_most_65536_bytes(rt: HostRuntime) -> Result<(), Fail> {
    let alloc = rt.alloc();
    let whole = many(alloc, 65_536, b"")?;
    assert_eq!(rt; read_text_of(alloc, whole.as_slice())?, Ok(TextEnd::End));
    let long = many(alloc, 65_537, b"")?;
    assert_eq!(rt;
        read_text_of(alloc, long.as_slice())?,
        Err(ReadStop::TooLong)
    );
    let with_feed = many(alloc, 65_535, b"\n%%\n")?;
    assert_eq!(rt;
        read_text_of(alloc, with_feed.as_slice())?,
        Ok(TextEnd::Mark)
    );
    let feed_too_much = many(alloc, 65_536, b"\n%%\n")?;
    assert_eq!(rt;
        read_text_of(alloc, feed_too_much.as_slice())?,
        Err(ReadStop::TooLong)
    );
    Ok(())
}

#[test]
fn a_line_has_at_most_32768_bytes(rt: HostRuntime) -> Result<(), Fail> {
    let alloc = rt.alloc();
    let mut input = many(alloc, 0, b"%%\n")?;
    input.extend_from_slice(many(alloc, 32_768, b"\n")?.as_slice())?;
    input.extend_from_slice(many(alloc, 32_769, b"\na\n")?.as_slice())?;
    let mut source = source_of(alloc, input.as_slice(), 4096)?;
    let mut lines = Lines::new(alloc, &mut source)?;
    assert_eq!(rt; lines.read_text(), Ok(TextEnd::Mark));
    assert_eq!(rt; lines.read_line(), Ok(LineEnd::Line));
    assert_eq!(rt; lines.line().len(), 32_768);
    assert_eq!(rt; lines.read_line(), Err(ReadStop::TooLong));
    assert_eq!(rt; lines.read_line(), Err(ReadStop::TooLong));
    Ok(())
}

#[test]
fn a_fault_is_answered_again_where_the_source_could_go_on(rt: HostRuntime) -> Result<(), Fail> {
    let alloc = rt.alloc();
    let pieces = vec![in alloc;
        vec![in alloc; b'%', b'%', b'\n', b'a']?,
        vec![in alloc; b'\n']?,
    ]?;
    let mut source = MemSource::new(pieces, vec![in alloc; 1]?);
    let mut lines = Lines::new(alloc, &mut source)?;
    assert_eq!(rt; lines.read_text(), Ok(TextEnd::Mark));
    assert_eq!(rt; lines.read_line(), Err(ReadStop::Read));
    assert_eq!(rt; lines.read_line(), Err(ReadStop::Read));
    Ok(())
}

/// A source of the bytes in one piece. Its calls with the numbers in `fails` fail.
fn one_piece(alloc: Global, bytes: &[u8], fails: Vec<u64>) -> Result<MemSource, Memory> {
    let pieces = vec![in alloc; bytes.to_vec(alloc)?]?;
    Ok(MemSource::new(pieces, fails))
}

#[test]
fn no_read_is_made_where_a_whole_line_is_held(rt: HostRuntime) -> Result<(), Fail> {
    let alloc = rt.alloc();
    let fails = vec![in alloc; 1]?;
    let mut source = one_piece(alloc, b"a\n%%\nfirst\nsecond\nthi", fails)?;
    let mut lines = Lines::new(alloc, &mut source)?;
    assert_eq!(rt; lines.read_text(), Ok(TextEnd::Mark));
    assert_eq!(rt; lines.read_line(), Ok(LineEnd::Line));
    assert_eq!(rt; lines.read_line(), Ok(LineEnd::Line));
    assert_eq!(rt; lines.line(), b"second".as_slice());
    assert_eq!(rt; lines.read_line(), Err(ReadStop::Read));
    Ok(())
}

#[test]
fn no_read_is_made_after_the_end(rt: HostRuntime) -> Result<(), Fail> {
    let alloc = rt.alloc();
    let fails = vec![in alloc; 2]?;
    let mut source = one_piece(alloc, b"%%\nlast", fails)?;
    let mut lines = Lines::new(alloc, &mut source)?;
    assert_eq!(rt; lines.read_text(), Ok(TextEnd::Mark));
    assert_eq!(rt; lines.read_line(), Ok(LineEnd::Line));
    assert_eq!(rt; lines.read_line(), Ok(LineEnd::End));
    assert_eq!(rt; lines.read_line(), Ok(LineEnd::End));
    Ok(())
}

/// The answer to the first line, of so many bytes `a` behind a mark, where the second read fails.
fn first_of_long(alloc: Global, count: usize) -> Result<Result<LineEnd, ReadStop>, Memory> {
    let mut input = many(alloc, 0, b"%%\n")?;
    input.extend_from_slice(many(alloc, count, b"\nb\n")?.as_slice())?;
    let mut source = one_piece(alloc, input.as_slice(), vec![in alloc; 1]?)?;
    let mut lines = Lines::new(alloc, &mut source)?;
    let _ = lines.read_text();
    Ok(lines.read_line())
}

#[test]
fn a_read_asks_for_4096_bytes(rt: HostRuntime) -> Result<(), Fail> {
    let alloc = rt.alloc();
    assert_eq!(rt; first_of_long(alloc, 4_092)?, Ok(LineEnd::Line));
    assert_eq!(rt; first_of_long(alloc, 4_093)?, Err(ReadStop::Read));
    Ok(())
}

#[test]
fn the_maker_of_lines_gives_their_limit(rt: HostRuntime) -> Result<(), Fail> {
    let alloc = rt.alloc();
    let mut source = source_of(alloc, b"%%\nab\nabc\n", 4096)?;
    let mut lines = Lines::with_limit(alloc, &mut source, 2)?;
    assert_eq!(rt; lines.read_text(), Ok(TextEnd::Mark));
    assert_eq!(rt; lines.read_line(), Ok(LineEnd::Line));
    assert_eq!(rt; lines.line(), b"ab".as_slice());
    assert_eq!(rt; lines.read_line(), Err(ReadStop::TooLong));
    Ok(())
}

#[test]
fn a_source_in_memory_gives_its_pieces_and_fails_where_it_is_told(
    rt: HostRuntime,
) -> Result<(), Fail> {
    let alloc = rt.alloc();
    let pieces = vec![in alloc;
        b"abcd".to_vec(alloc)?,
        Vec::new(alloc),
        b"e".to_vec(alloc)?,
    ]?;
    let mut source = MemSource::new(pieces, vec![in alloc; 1]?);
    let mut into = [0; 3];
    assert_eq!(rt; source.read(&mut into), Ok(3));
    assert_eq!(rt; into.as_slice(), b"abc".as_slice());
    assert_eq!(rt; source.read(&mut into), Err(Failed));
    assert_eq!(rt; source.read(&mut into), Ok(1));
    assert_eq!(rt; into[0], b'd');
    assert_eq!(rt; source.read(&mut into), Ok(1));
    assert_eq!(rt; into[0], b'e');
    assert_eq!(rt; source.read(&mut into), Ok(0));
    Ok(())
}

#[test]
fn a_sink_in_memory_takes_what_it_has_room_for(rt: HostRuntime) -> Result<(), Fail> {
    let alloc = rt.alloc();
    let mut sink = MemSink::new(alloc, 5, 2, vec![in alloc; 1]?)?;
    assert_eq!(rt; sink.write(b"abcd"), Ok(2));
    assert_eq!(rt; sink.write(b"cd"), Err(Failed));
    assert_eq!(rt; sink.write(b"c"), Ok(1));
    assert_eq!(rt; sink.write(b"defg"), Ok(2));
    assert_eq!(rt; sink.write(b"f"), Err(Failed));
    assert_eq!(rt; sink.bytes(), b"abcde".as_slice());
    Ok(())
}

#[test]
fn all_is_written_up_to_a_fault(rt: HostRuntime) -> Result<(), Fail> {
    let alloc = rt.alloc();
    let mut sink = MemSink::new(alloc, 100, 1, vec![in alloc; 8]?)?;
    assert_eq!(rt; write_all(&mut sink, b"b\na\n\n"), Ok(()));
    assert_eq!(rt; write_all(&mut sink, b"b\na\n\n"), Err(Failed));
    assert_eq!(rt; sink.bytes(), b"b\na\n\nb\na".as_slice());
    Ok(())
}

#[test]
fn what_is_promised_beforehand_cannot_fail(rt: HostRuntime) -> Result<(), Fail> {
    let alloc = rt.alloc();
    let mut sink = MemSink::new(alloc, 5, 2, Vec::new(alloc))?;
    let written = write_all(&mut sink, b"abcde");
    prove!(written.is_ok());
    let mut source = source_of(alloc, b"%%", 1)?;
    let mut lines = Lines::new(alloc, &mut source)?;
    let end = lines.read_text();
    prove!(!matches!(end, Err(ReadStop::Read)));
    Ok(())
}

/// Reads up to four bytes.
fn read_four<S: Source>(source: &mut S) -> (Result<usize, Failed>, [u8; 4]) {
    let mut into = [0; 4];
    let result = source.read(&mut into);
    (result, into)
}

/// A reader that fails at every second read.
#[derive(Drop)]
struct FailsInTurn {
    bytes: &'static [u8],
    fails: bool,
}

impl Read for FailsInTurn {
    fn read(&mut self, into: &mut [u8]) -> io::Result<usize> {
        let fails = self.fails;
        self.fails = !fails;
        if fails {
            return Err(io::ErrorKind::Other.into());
        }
        self.bytes.read(into)
    }
}

#[test]
fn a_reader_of_std_is_a_source_that_fails_where_it_does(rt: HostRuntime) {
    let mut source = StdSource::new(FailsInTurn {
        bytes: b"abcdef",
        fails: false,
    });
    assert_eq!(rt; read_four(&mut source), (Ok(4), *b"abcd"));
    assert_eq!(rt; read_four(&mut source), (Err(Failed), [0; 4]));
    assert_eq!(rt; read_four(&mut source), (Ok(2), *b"ef\0\0"));
    assert_eq!(rt; read_four(&mut source), (Err(Failed), [0; 4]));
    assert_eq!(rt; read_four(&mut source), (Ok(0), [0; 4]));
}

#[test]
fn a_writer_of_std_is_a_sink_that_fails_where_nothing_is_taken(
    rt: HostRuntime,
) -> Result<(), Fail> {
    let mut bytes = Vec::new(rt.alloc());
    let mut sink = StdSink::new(&mut bytes);
    assert_eq!(rt; write_all(&mut sink, b"abc"), Ok(()));
    assert_eq!(rt; bytes.as_slice(), b"abc".as_slice());
    let mut two = [0; 2];
    let mut full = StdSink::new(two.as_mut_slice());
    assert_eq!(rt; write_all(&mut full, b"abc"), Err(Failed));
    assert_eq!(rt; two.as_slice(), b"ab".as_slice());
    Ok(())
}

/// Something that has done one act.
struct One;

impl Acted for One {
    ghost acts = { λ _. 1 };

    fn number(&self) -> u64 {
        7
    }
}

/// Passes a gate.
fn pass<G: Gate>(gate: &G) {
    gate.pass(&One);
}

#[test]
fn an_open_gate_lets_pass(rt: HostRuntime) {
    pass(&OpenGate);
    assert_eq!(rt; One.number(), 7);
}

#[test]
fn statuses_are_numbered_from_0_to_9(rt: HostRuntime) {
    assert_eq!(rt; Status::Ok.number(), 0);
    assert_eq!(rt; Status::No.number(), 1);
    assert_eq!(rt; Status::Usage.number(), 2);
    assert_eq!(rt; Status::Program.number(), 3);
    assert_eq!(rt; Status::Trace.number(), 4);
    assert_eq!(rt; Status::Fuel.number(), 5);
    assert_eq!(rt; Status::Net.number(), 6);
    assert_eq!(rt; Status::Read.number(), 7);
    assert_eq!(rt; Status::Write.number(), 8);
    assert_eq!(rt; Status::Memory.number(), 9);
}

#[test]
fn errors_say_what_went_wrong(rt: HostRuntime) -> Result<(), Fail> {
    let alloc = rt.alloc();
    let failed = format!(in alloc; "{}", Failed)?;
    assert_eq!(rt; failed.as_str(), "the device failed");
    let long = format!(in alloc; "{}", ReadStop::TooLong)?;
    assert_eq!(rt; long.as_str(), "a text or a line with too many bytes");
    let read = format!(in alloc; "{}", ReadStop::Read)?;
    assert_eq!(rt; read.as_str(), "reading failed");
    Ok(())
}
