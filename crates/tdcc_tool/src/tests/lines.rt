//! How the input is split into a text and lines, and which lines stop a run.

use super::{assert_over, assert_run, in_pieces, roomy};
use std::test::Fail;

#[test]
fn carriage_returns_and_a_last_line_without_a_feed_are_read(rt: HostRuntime) -> Result<(), Fail> {
    let input = b"signal a, b; if a then b\n\n%%\r\na\r\na".as_slice();
    assert_run(&rt, rt.alloc(), input, "0|a b\na\n|")
}

#[test]
fn an_input_without_a_mark_is_all_text(rt: HostRuntime) -> Result<(), Fail> {
    let alloc = rt.alloc();
    assert_run(&rt, alloc, b"signal a;\na\n".as_slice(), "0||")?;
    assert_run(&rt, alloc, b"signal a;\na\n%%".as_slice(), "0||")?;
    let wanted = "3||tdcc: program: bad byte at offset 12\n";
    assert_run(&rt, alloc, b"signal a;\na\n%% \na\n".as_slice(), wanted)
}

#[test]
fn a_line_with_an_unknown_name_stops_the_run(rt: HostRuntime) -> Result<(), Fail> {
    let alloc = rt.alloc();
    let first = b"signal a, b; if a then b\n%%\nc\n".as_slice();
    let wanted = "4||tdcc: trace: instant 0: unknown name at offset 0\n";
    assert_run(&rt, alloc, first, wanted)?;
    let later = b"signal a, b; if a then b\n%%\na\nc\na\n".as_slice();
    let wanted = "4|a b\n|tdcc: trace: instant 1: unknown name at offset 0\n";
    assert_run(&rt, alloc, later, wanted)
}

#[test]
fn a_line_has_up_to_32768_bytes(rt: HostRuntime) -> Result<(), Fail> {
    let alloc = rt.alloc();
    let mut input = b"skip\n%%\n".to_vec(alloc)?;
    input.extend_from_slice(&vec![in alloc; b' '; 32_768]?)?;
    input.push(b'\n')?;
    assert_run(&rt, alloc, input.as_slice(), "0|\n|")?;
    let mut input = b"skip\n%%\n\n".to_vec(alloc)?;
    input.extend_from_slice(&vec![in alloc; b' '; 32_769]?)?;
    input.push(b'\n')?;
    let wanted = "4|\n|tdcc: trace: instant 1: line over 32768 bytes\n";
    assert_run(&rt, alloc, input.as_slice(), wanted)
}

#[test]
fn words_that_are_no_command_read_nothing(rt: HostRuntime) -> Result<(), Fail> {
    let alloc = rt.alloc();
    for text in [
        "",
        "walk",
        "run run",
        "core core",
        "core run",
        "run --workers 65",
        "run --workers 0",
        "run --fuel 1 --fuel 1",
        "report --net 65537",
        "check --fuel 1",
        "gen 0",
        "gen 65537",
        "gen 5 --net 1",
    ] {
        let mut fails = Vec::new(alloc);
        fails.push(0)?;
        let source = in_pieces(alloc, b"skip".as_slice(), 4, fails)?;
        assert_over(&rt, alloc, text, source, roomy(alloc)?, "2||tdcc: usage\n")?;
    }
    Ok(())
}
