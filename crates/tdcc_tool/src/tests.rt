//! What `tdcc` answers over devices in memory.
ghost use Rattle.std.specs.Prelude.{◌<◌};

mod checks;
mod core_texts;
mod derived;
mod devices;
mod generated;
mod lines;
mod over_time;
mod programs;
mod refusals;
mod reports;
mod settings;
mod slowly;
mod tokens;

use crate::tdcc;
use std::alloc::Global;
use std::process::Abort;
use std::test::Fail;
use std::thread::Threads;
use tdcc_base::{MemSink, MemSource, OpenGate, Status};
use token_system::Memory;

/// What a call answered: its status, what it wrote to out between bars, and what it wrote to err.
fn shown(alloc: Global, status: Status, out: &MemSink, err: &MemSink) -> Result<Vec<u8>, Memory> {
    let mut shown = Vec::new(alloc);
    let text = format!(in alloc; "{}|", status.number())?;
    shown.extend_from_slice(text.as_bytes())?;
    shown.extend_from_slice(out.bytes())?;
    shown.push(b'|')?;
    shown.extend_from_slice(err.bytes())?;
    Ok(shown)
}

/// The words between the spaces of a text.
fn words(alloc: Global, text: &str) -> Result<Vec<String>, Memory> {
    let mut words = Vec::new(alloc);
    for word in text.split_whitespace() {
        words.push(String::from_str(alloc, word)?)?;
    }
    Ok(words)
}

/// What a call with these words answers over the source and the sink.
fn answered<R: Threads + Sync>(
    rt: &R,
    alloc: Global,
    text: &str,
    mut source: MemSource,
    mut out: MemSink,
) -> Result<Vec<u8>, Memory> {
    let words = words(alloc, text)?;
    let mut err = MemSink::new(alloc, 200, 200, Vec::new(alloc))?;
    let status = tdcc(
        rt,
        alloc,
        &words,
        &mut source,
        &mut out,
        &mut err,
        &OpenGate,
    );
    shown(alloc, status, &out, &err)
}

/// Asserts what a call with these words answers over the source and the sink.
fn assert_over<R: Threads + Sync + Abort>(
    rt: &R,
    alloc: Global,
    text: &str,
    source: MemSource,
    out: MemSink,
    wanted: &str,
) -> Result<(), Fail> {
    let shown = answered(rt, alloc, text, source, out)?;
    assert_eq!(rt; shown.as_slice(), wanted.as_bytes());
    Ok(())
}

/// A sink with room for all that a test writes.
fn roomy(alloc: Global) -> Result<MemSink, Memory> {
    MemSink::new(alloc, 100_000, 4096, Vec::new(alloc))
}

/// A source that gives the input in pieces of this size, whose calls of these numbers fail.
fn in_pieces(alloc: Global, input: &[u8], size: usize, fails: Vec<u64>) -> Result<MemSource, Memory>
    requires { 0 < size }
{
    let mut pieces = Vec::new(alloc);
    for piece in input.chunks(size) {
        pieces.push(piece.to_vec(alloc)?)?;
    }
    Ok(MemSource::new(pieces, fails))
}

/// Asserts what a call with these words answers to the input.
fn assert_call<R: Threads + Sync + Abort>(
    rt: &R,
    alloc: Global,
    text: &str,
    input: &[u8],
    wanted: &str,
) -> Result<(), Fail> {
    let source = in_pieces(alloc, input, 4096, Vec::new(alloc))?;
    assert_over(rt, alloc, text, source, roomy(alloc)?, wanted)
}

/// Asserts what `run` answers to the input.
fn assert_run<R: Threads + Sync + Abort>(
    rt: &R,
    alloc: Global,
    input: &[u8],
    wanted: &str,
) -> Result<(), Fail> {
    assert_call(rt, alloc, "run", input, wanted)
}

/// Asserts that the text is refused, and what is said of it.
fn assert_refused<R: Threads + Sync + Abort>(
    rt: &R,
    alloc: Global,
    text: &str,
    reason: &str,
) -> Result<(), Fail> {
    let source = in_pieces(alloc, text.as_bytes(), 4096, Vec::new(alloc))?;
    let shown = answered(rt, alloc, "run", source, roomy(alloc)?)?;
    let wanted = format!(in alloc; "3||tdcc: program: {reason}\n")?;
    assert_eq!(rt; shown.as_slice(), wanted.as_bytes(), "{text}");
    Ok(())
}
