//! What `check` writes.

use super::assert_call;
use std::test::Fail;

#[test]
fn each_cell_is_written_with_its_stratum(rt: HostRuntime) -> Result<(), Fail> {
    // The trace is not looked at.
    let input = b"signal a, b, c; if a else b || if b else c\n%%\nq\n".as_slice();
    let wanted = "0|accepted: 3 cells, 5 nodes, 3 strata\na 0\nb 1\nc 2\n|";
    assert_call(&rt, rt.alloc(), "check", input, wanted)
}

#[test]
fn a_program_without_cells_has_no_stratum(rt: HostRuntime) -> Result<(), Fail> {
    let wanted = "0|accepted: 0 cells, 1 nodes, 0 strata\n|";
    assert_call(&rt, rt.alloc(), "check", b"skip".as_slice(), wanted)
}

#[test]
fn hidden_and_local_cells_stand_behind_the_declared_ones(rt: HostRuntime) -> Result<(), Fail> {
    // `b` is told where the hidden cell is absent, and so lies above it.
    let input = b"signal a, b; new int x in 0..3 in if x=2 then when a do b".as_slice();
    let wanted = "0|accepted: 4 cells, 17 nodes, 2 strata\na 0\nb 1\nx 0\n$3 0\n|";
    assert_call(&rt, rt.alloc(), "check", input, wanted)
}

#[test]
fn what_depends_on_its_own_absence_is_refused(rt: HostRuntime) -> Result<(), Fail> {
    let input = b"signal a, b; if a else b || if b else a".as_slice();
    let wanted = "3||tdcc: program: not stratified, a guards b at node 1\n";
    assert_call(&rt, rt.alloc(), "check", input, wanted)
}

#[test]
fn ten_nested_always_are_accepted_and_eleven_are_not(rt: HostRuntime) -> Result<(), Fail> {
    let ten = "always always always always always always always always always always";
    let input = format!(in rt.alloc(); "signal a; {ten} a")?;
    let wanted = "0|accepted: 1 cells, 3070 nodes, 1 strata\na 0\n|";
    assert_call(&rt, rt.alloc(), "check", input.as_bytes(), wanted)?;
    let input = format!(in rt.alloc(); "signal a; {ten} always a")?;
    let wanted = "3||tdcc: program: over 4096 nodes\n";
    assert_call(&rt, rt.alloc(), "check", input.as_bytes(), wanted)
}

#[test]
fn cells_of_1024_starts_are_accepted_and_one_more_is_not(rt: HostRuntime) -> Result<(), Fail> {
    let ten = "always always always always always always always always always always";
    let input = format!(in rt.alloc(); "{ten} new signal s in s")?;
    let mut wanted = b"0|accepted: 1024 cells, 4094 nodes, 1 strata\n".to_vec(rt.alloc())?;
    for _ in 0..1024 {
        wanted.extend_from_slice(b"s 0\n")?;
    }
    wanted.push(b'|')?;
    let wanted = String::from_utf8(wanted)?;
    assert_call(&rt, rt.alloc(), "check", input.as_bytes(), wanted.as_str())?;
    let input = format!(in rt.alloc(); "signal a; {ten} new signal s in s")?;
    let wanted = "3||tdcc: program: over 1024 cells\n";
    assert_call(&rt, rt.alloc(), "check", input.as_bytes(), wanted)
}
