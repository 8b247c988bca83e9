//! Programs with derived forms.

use super::{assert_refused, assert_run};
use std::test::Fail;

#[test]
fn always_asks_at_each_instant(rt: HostRuntime) -> Result<(), Fail> {
    let input = b"signal a, b; always if a else b\n%%\n\na\n".as_slice();
    assert_run(&rt, rt.alloc(), input, "0|b\na\n|")
}

#[test]
fn always_tells_next_what_is_absent_now(rt: HostRuntime) -> Result<(), Fail> {
    let input = b"signal a; always if a else next a\n%%\n\n\n\n\n".as_slice();
    assert_run(&rt, rt.alloc(), input, "0|\na\n\na\n|")
}

#[test]
fn a_watching_tells_nothing_from_its_stop_on(rt: HostRuntime) -> Result<(), Fail> {
    let input = b"signal a, b; do always b watching a\n%%\n\na\n\n".as_slice();
    assert_run(&rt, rt.alloc(), input, "0|b\na\n\n|")
}

#[test]
fn a_clocked_agent_runs_at_the_instants_of_its_clock(rt: HostRuntime) -> Result<(), Fail> {
    let input = b"signal a, b; time always b on a\n%%\n\na\n\na\n".as_slice();
    assert_run(&rt, rt.alloc(), input, "0|\na b\n\na b\n|")
}

#[test]
fn a_local_cell_under_always_is_a_new_one_at_each_instant(rt: HostRuntime) -> Result<(), Fail> {
    let input = b"signal a, b; always new signal s in {s || if s then a || next if s then b}
%%



"
        .as_slice();
    assert_run(&rt, rt.alloc(), input, "0|a\na\na\n|")
}

#[test]
fn a_when_starts_its_body_once(rt: HostRuntime) -> Result<(), Fail> {
    let input = b"signal a, b; when a do b\n%%\n\na\n\na\n".as_slice();
    assert_run(&rt, rt.alloc(), input, "0|\na b\n\na\n|")
}

#[test]
fn the_feeder_of_a_copier_runs_and_stops(rt: HostRuntime) -> Result<(), Fail> {
    let input = b"signal start, jam, tick, motor, idle, done;
int left in 0..3;
always if motor else idle ||
when start do do {
  always motor ||
  time { left=3 || next { left=2 || next { left=1 || next { left=0 || done }}}} on tick
} watching jam
%%

start
tick

tick
tick

start
tick

jam

"
        .as_slice();
    let wanted = "0|idle
start motor
tick motor left=3
motor
tick motor left=2
tick motor left=1
motor
start motor
tick motor done left=0
motor
jam idle
idle
|";
    assert_run(&rt, rt.alloc(), input, wanted)
}

#[test]
fn a_line_that_gives_no_input_ends_a_run_over_time(rt: HostRuntime) -> Result<(), Fail> {
    let alloc = rt.alloc();
    let unknown = b"signal a; always a\n%%\n\n\nq\n".as_slice();
    let wanted = "4|a\na\n|tdcc: trace: instant 2: unknown name at offset 0\n";
    assert_run(&rt, alloc, unknown, wanted)?;
    let wrong = b"signal a; always a\n%%\n\n\na a>=1\n".as_slice();
    let wanted = "4|a\na\n|tdcc: trace: instant 2: wrong kind at offset 2\n";
    assert_run(&rt, alloc, wrong, wanted)?;
    let bad = b"signal a; always a\n%%\n\n\n a&\n".as_slice();
    let wanted = "4|a\na\n|tdcc: trace: instant 2: bad token at offset 1\n";
    assert_run(&rt, alloc, bad, wanted)
}

#[test]
fn a_mark_may_have_a_carriage_return_and_a_last_line_no_feed(rt: HostRuntime) -> Result<(), Fail> {
    let alloc = rt.alloc();
    let input = b"signal a, b; always if a then b\n%%\r\na\r\na".as_slice();
    assert_run(&rt, alloc, input, "0|a b\na b\n|")?;
    assert_run(
        &rt,
        alloc,
        b"signal a, b; always if a then b".as_slice(),
        "0||",
    )
}

#[test]
fn what_grows_past_the_limits_is_refused(rt: HostRuntime) -> Result<(), Fail> {
    let alloc = rt.alloc();
    let eleven =
        "signal a; always always always always always always always always always always always a";
    assert_refused(&rt, alloc, eleven, "over 4096 nodes")?;
    let cells =
        "signal a; always always always always always always always always always always new signal s in s";
    assert_refused(&rt, alloc, cells, "over 1024 cells")
}

#[test]
fn the_words_of_a_later_form_are_refused_in_their_place(rt: HostRuntime) -> Result<(), Fail> {
    let alloc = rt.alloc();
    assert_refused(&rt, alloc, "signal a; set", "not built yet at lexeme 3")?;
    assert_refused(
        &rt,
        alloc,
        "signal a; always a:",
        "not built yet at lexeme 5",
    )
}
