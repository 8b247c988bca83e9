//! Each kind of refusal of a program text, at the place that is named for it.

mod derived;
mod limits;
mod names;
mod order;
mod texts;

use super::{assert_refused, assert_run};
use std::alloc::Global;
use std::process::Abort;
use std::test::Fail;
use std::thread::Threads;
use token_system::Memory;

/// Asserts that each text is refused for this reason, at the place beside it.
fn assert_places<R: Threads + Sync + Abort>(
    rt: &R,
    alloc: Global,
    reason: &str,
    rows: &[(&str, u32)],
) -> Result<(), Fail> {
    for &(text, place) in rows {
        let reason = format!(in alloc; "{reason} {place}")?;
        assert_refused(rt, alloc, text, reason.as_str())?;
    }
    Ok(())
}

/// Asserts that the program of the text is one that runs.
fn assert_accepted<R: Threads + Sync + Abort>(
    rt: &R,
    alloc: Global,
    text: &str,
) -> Result<(), Fail> {
    assert_run(rt, alloc, text.as_bytes(), "0||")
}

/// The text of these parts, each as often as the number beside it says.
fn joined(alloc: Global, parts: &[(&str, usize)]) -> Result<String, Memory> {
    let mut text = String::new(alloc);
    for &(part, count) in parts {
        text.push_str(part.repeat(alloc, count)?.as_str())?;
    }
    Ok(text)
}

/// Asserts that the program of the text of these parts is one that runs.
fn assert_parts_accepted<R: Threads + Sync + Abort>(
    rt: &R,
    alloc: Global,
    parts: &[(&str, usize)],
) -> Result<(), Fail> {
    assert_accepted(rt, alloc, joined(alloc, parts)?.as_str())
}

/// Asserts that the text of these parts is refused, and what is said of it.
fn assert_parts_refused<R: Threads + Sync + Abort>(
    rt: &R,
    alloc: Global,
    parts: &[(&str, usize)],
    reason: &str,
) -> Result<(), Fail> {
    assert_refused(rt, alloc, joined(alloc, parts)?.as_str(), reason)
}

/// A declaration of so many signals, `n0`, `n1` and so on. It has two lexemes for each of them, and one more.
fn numbered(alloc: Global, count: u32) -> Result<String, Memory> {
    let mut text = String::from_str(alloc, "signal ")?;
    for number in 0..count {
        let name = format!(in alloc; "n{number}")?;
        if 0 < number {
            text.push_str(", ")?;
        }
        text.push_str(name.as_str())?;
    }
    text.push_str("; ")?;
    Ok(text)
}
