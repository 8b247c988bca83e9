//! Settings of a run: its workers, the agents that may run, and the leaves of an instant.

use super::assert_call;
use std::test::Fail;

#[test]
fn the_number_of_workers_changes_no_answer(rt: HostRuntime) -> Result<(), Fail> {
    for words in [
        "run",
        "run --workers 1",
        "run --workers 2",
        "run --workers 64",
    ] {
        let input = b"signal a, b, c; if a else b || if b else c\n%%\n\n".as_slice();
        assert_call(&rt, rt.alloc(), words, input, "0|b\n|")?;
        let input = b"signal a, b, c; if a else b || if b else c\n%%\na\n".as_slice();
        assert_call(&rt, rt.alloc(), words, input, "0|a c\n|")?;
    }
    Ok(())
}

#[test]
fn a_run_ends_before_the_instant_by_which_more_agents_ran_than_may(
    rt: HostRuntime,
) -> Result<(), Fail> {
    // Two agents run in the first instant, the tell and the hence, and the tell in the second.
    let input = b"signal a, b; always if a else b\n%%\n\n\n".as_slice();
    let cases = [
        ("run --fuel 3", "0|b\nb\n|"),
        (
            "run --fuel 2",
            "5|b\n|tdcc: fuel: instant 1: 3 agents run\n",
        ),
        ("run --fuel 1", "5||tdcc: fuel: instant 0: 2 agents run\n"),
        ("run --fuel 0", "5||tdcc: fuel: instant 0: 2 agents run\n"),
        ("run --fuel 3 --net 2", "0|b\nb\n|"),
    ];
    for (words, wanted) in cases {
        assert_call(&rt, rt.alloc(), words, input, wanted)?;
    }
    Ok(())
}

#[test]
fn only_what_the_output_runs_is_spent(rt: HostRuntime) -> Result<(), Fail> {
    // The else is refuted, and what stands below it does not run.
    let input = b"signal a, b; a || b || if a else b\n%%\n\n".as_slice();
    assert_call(&rt, rt.alloc(), "run --fuel 2", input, "0|a b\n|")
}

#[test]
fn a_run_ends_before_an_instant_with_more_leaves_than_it_may_have(
    rt: HostRuntime,
) -> Result<(), Fail> {
    // The leaves are 2, 2, 3, 4 and 5.
    let input = b"always new signal s in hence s\n%%\n\n\n\n\n\n\n".as_slice();
    let wanted = "6|\n\n\n\n|tdcc: net: instant 4: 5 leaves\n";
    assert_call(&rt, rt.alloc(), "run --net 4", input, wanted)
}

#[test]
fn leaves_are_counted_before_anything_runs(rt: HostRuntime) -> Result<(), Fail> {
    let input = b"signal a; a || a\n%%\n\n".as_slice();
    let wanted = "6||tdcc: net: instant 0: 2 leaves\n";
    assert_call(&rt, rt.alloc(), "run --net 1", input, wanted)?;
    assert_call(&rt, rt.alloc(), "run --net 1 --fuel 0", input, wanted)?;
    assert_call(&rt, rt.alloc(), "run --net 2", input, "0|a\n|")
}

#[test]
fn a_line_that_does_not_read_comes_before_the_limits(rt: HostRuntime) -> Result<(), Fail> {
    let input = b"signal a; a || a\n%%\nq\n".as_slice();
    let wanted = "4||tdcc: trace: instant 0: unknown name at offset 0\n";
    assert_call(&rt, rt.alloc(), "run --net 1 --fuel 0", input, wanted)
}
