//! What programs leave for later instants, and the names of local cells.

use super::assert_run;
use std::test::Fail;

#[test]
fn a_default_is_asked_anew_at_each_instant(rt: HostRuntime) -> Result<(), Fail> {
    let input = b"signal a, b; if a else b || hence if a else b\n%%\n\na\n".as_slice();
    assert_run(&rt, rt.alloc(), input, "0|b\na\n|")
}

#[test]
fn an_instant_begins_with_its_input_alone(rt: HostRuntime) -> Result<(), Fail> {
    let input = b"signal a, b; a || next if a then b\n%%\n\n\na\n".as_slice();
    assert_run(&rt, rt.alloc(), input, "0|a\n\na\n|")
}

#[test]
fn what_is_absent_now_is_told_next(rt: HostRuntime) -> Result<(), Fail> {
    let input = b"signal a; if a else next a || hence if a else next a\n%%\n\n\n\n\n".as_slice();
    assert_run(&rt, rt.alloc(), input, "0|\na\n\na\n|")
}

#[test]
fn a_hence_below_a_hence_starts_from_the_third_instant_on(rt: HostRuntime) -> Result<(), Fail> {
    let input = b"signal a; hence hence a\n%%\n\n\n\n\n".as_slice();
    assert_run(&rt, rt.alloc(), input, "0|\n\na\na\n|")
}

#[test]
fn a_local_cell_is_a_new_one_at_each_start(rt: HostRuntime) -> Result<(), Fail> {
    // The cell that was told is another one than that which the next asks for only where both are of one start.
    let input = b"signal a, b; new signal s in {s || if s then a || next if s then b} ||
        hence new signal s in {s || if s then a || next if s then b}
%%



"
        .as_slice();
    assert_run(&rt, rt.alloc(), input, "0|a\na\na\n|")
}

#[test]
fn a_local_cell_is_one_at_all_instants_of_its_start(rt: HostRuntime) -> Result<(), Fail> {
    let input = b"signal a, b; new signal s in {next s || next if s then a} ||
        new signal s in next if s then b
%%


"
        .as_slice();
    assert_run(&rt, rt.alloc(), input, "0|\na\n|")
}

#[test]
fn local_cells_are_not_written(rt: HostRuntime) -> Result<(), Fail> {
    let input = b"signal a; new signal s in {s || hence {s || if s then a}}\n%%\n\n\n".as_slice();
    assert_run(&rt, rt.alloc(), input, "0|\na\n|")
}

#[test]
fn later_agents_may_rest_on_absence_where_the_program_is_stratified(
    rt: HostRuntime,
) -> Result<(), Fail> {
    let alloc = rt.alloc();
    let accepted = b"signal a; if a else next a\n%%\n\n\n".as_slice();
    assert_run(&rt, alloc, accepted, "0|\na\n|")?;
    let refused = b"signal a; hence if a else a".as_slice();
    let wanted = "3||tdcc: program: not stratified, a guards a at node 1\n";
    assert_run(&rt, alloc, refused, wanted)
}

#[test]
fn an_instant_with_too_many_leaves_ends_the_run(rt: HostRuntime) -> Result<(), Fail> {
    // From the second instant on each one starts an agent of 1,000 leaves that stays. So instant t has one leaf of the
    // outer hence and 1,000 for each start before: at instant 66 these are 65,001, and at 67 they are 66,001.
    let alloc = rt.alloc();
    let mut input = b"hence new signal s in hence {skip".to_vec(alloc)?;
    for _ in 1..1000 {
        input.extend_from_slice(b"||skip")?;
    }
    input.extend_from_slice(b"}\n%%\n")?;
    let mut wanted = b"6|".to_vec(alloc)?;
    for _ in 0..67 {
        input.push(b'\n')?;
        wanted.push(b'\n')?;
    }
    input.extend_from_slice(b"\n\n")?;
    wanted.extend_from_slice(b"|tdcc: net: instant 67: 66001 leaves\n")?;
    let wanted = String::from_utf8(wanted)?;
    assert_run(&rt, alloc, input.as_slice(), wanted.as_str())
}
