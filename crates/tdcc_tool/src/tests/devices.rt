//! Devices that give little at a time, and devices that fail.

use super::{assert_over, in_pieces, roomy};
use std::alloc::Global;
use std::test::Fail;
use tdcc_base::{MemSink, Memory};

/// A program of three instants, whose output has seven bytes.
const INPUT: &[u8] = b"signal a, b; if a then b\n%%\na\n\nb\n";

/// The number alone.
fn only(alloc: Global, number: u64) -> Result<Vec<u64>, Memory> {
    let mut numbers = Vec::new(alloc);
    numbers.push(number)?;
    Ok(numbers)
}

#[test]
fn pieces_of_any_size_give_one_answer(rt: HostRuntime) -> Result<(), Fail> {
    let alloc = rt.alloc();
    for size in [1, 2, 7, 4096] {
        let source = in_pieces(alloc, INPUT, size, Vec::new(alloc))?;
        let out = MemSink::new(alloc, 100, size, Vec::new(alloc))?;
        assert_over(&rt, alloc, "run", source, out, "0|a b\n\nb\n|")?;
    }
    Ok(())
}

#[test]
fn each_read_that_fails_is_answered(rt: HostRuntime) -> Result<(), Fail> {
    let alloc = rt.alloc();
    for call in 0..6 {
        let source = in_pieces(alloc, INPUT, 7, only(alloc, call)?)?;
        assert_over(
            &rt,
            alloc,
            "run",
            source,
            roomy(alloc)?,
            "7||tdcc: read fault\n",
        )?;
    }
    let source = in_pieces(alloc, INPUT, 7, only(alloc, 6)?)?;
    assert_over(&rt, alloc, "run", source, roomy(alloc)?, "0|a b\n\nb\n|")
}

#[test]
fn each_write_that_fails_leaves_the_bytes_before_it(rt: HostRuntime) -> Result<(), Fail> {
    let alloc = rt.alloc();
    for (call, wanted) in [
        (0, "8||tdcc: write fault\n"),
        (1, "8|a|tdcc: write fault\n"),
        (2, "8|a |tdcc: write fault\n"),
        (3, "8|a b|tdcc: write fault\n"),
        (4, "8|a b\n|tdcc: write fault\n"),
        (5, "8|a b\n\n|tdcc: write fault\n"),
        (6, "8|a b\n\nb|tdcc: write fault\n"),
        (7, "0|a b\n\nb\n|"),
    ] {
        let source = in_pieces(alloc, INPUT, 4096, Vec::new(alloc))?;
        let out = MemSink::new(alloc, 100, 1, only(alloc, call)?)?;
        assert_over(&rt, alloc, "run", source, out, wanted)?;
    }
    Ok(())
}

#[test]
fn a_full_sink_holds_the_bytes_that_it_took(rt: HostRuntime) -> Result<(), Fail> {
    let alloc = rt.alloc();
    for (room, wanted) in [
        (0, "8||tdcc: write fault\n"),
        (3, "8|a b|tdcc: write fault\n"),
        (6, "8|a b\n\nb|tdcc: write fault\n"),
        (7, "0|a b\n\nb\n|"),
    ] {
        let source = in_pieces(alloc, INPUT, 2, Vec::new(alloc))?;
        let out = MemSink::new(alloc, room, 5, Vec::new(alloc))?;
        assert_over(&rt, alloc, "run", source, out, wanted)?;
    }
    Ok(())
}

#[test]
fn an_err_that_takes_nothing_changes_no_status(rt: HostRuntime) -> Result<(), Fail> {
    let alloc = rt.alloc();
    let words = super::words(alloc, "run")?;
    let mut source = in_pieces(alloc, b"signal a;".as_slice(), 4096, Vec::new(alloc))?;
    let mut out = roomy(alloc)?;
    let mut err = MemSink::new(alloc, 0, 1, Vec::new(alloc))?;
    let gate = tdcc_base::OpenGate;
    let status = crate::tdcc(&rt, alloc, &words, &mut source, &mut out, &mut err, &gate);
    let shown = super::shown(alloc, status, &out, &err)?;
    assert_eq!(&rt; shown.as_slice(), b"3||".as_slice());
    Ok(())
}
