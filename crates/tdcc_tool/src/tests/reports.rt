//! What `report` writes.

use super::assert_call;
use std::test::Fail;

#[test]
fn an_else_is_confirmed_where_its_ask_is_absent_and_else_refuted(
    rt: HostRuntime,
) -> Result<(), Fail> {
    let input = b"signal a, b; always if a else b\n%%\n\na\n".as_slice();
    let wanted =
        "0|0 ran 2 confirmed 1 refuted 0 parked 0 next 1\n1 ran 0 confirmed 0 refuted 1 parked 0 next 1\n|";
    assert_call(&rt, rt.alloc(), "report", input, wanted)
}

#[test]
fn an_else_whose_ask_is_told_beside_it_is_refuted(rt: HostRuntime) -> Result<(), Fail> {
    let input = b"signal a, b; a || b || if a else b\n%%\n\n".as_slice();
    let wanted = "0|0 ran 2 confirmed 0 refuted 1 parked 0 next 0\n|";
    assert_call(&rt, rt.alloc(), "report", input, wanted)
}

#[test]
fn a_then_is_parked_where_its_ask_is_not_told(rt: HostRuntime) -> Result<(), Fail> {
    // At instant 1 there is nothing left to run.
    let input = b"signal a, b; if a then b\n%%\n\na\n".as_slice();
    let wanted =
        "0|0 ran 0 confirmed 0 refuted 0 parked 1 next 0\n1 ran 0 confirmed 0 refuted 0 parked 0 next 0\n|";
    assert_call(&rt, rt.alloc(), "report", input, wanted)
}

#[test]
fn the_roots_of_the_next_instant_are_counted(rt: HostRuntime) -> Result<(), Fail> {
    let input = b"signal a; hence hence a\n%%\n\n\n\n\n".as_slice();
    let wanted = "0|0 ran 1 confirmed 0 refuted 0 parked 0 next 1
1 ran 1 confirmed 0 refuted 0 parked 0 next 2
2 ran 2 confirmed 0 refuted 0 parked 0 next 2
3 ran 2 confirmed 0 refuted 0 parked 0 next 2
|";
    assert_call(&rt, rt.alloc(), "report", input, wanted)
}

#[test]
fn a_report_ends_where_the_run_does(rt: HostRuntime) -> Result<(), Fail> {
    let first = "0 ran 2 confirmed 1 refuted 0 parked 0 next 1\n";
    for (words, lines, end) in [
        (
            "report",
            "\nq\n",
            "4|{}|tdcc: trace: instant 1: unknown name at offset 0\n",
        ),
        (
            "report --fuel 2",
            "\n\n",
            "5|{}|tdcc: fuel: instant 1: 3 agents run\n",
        ),
        (
            "report --net 1",
            "\n\n",
            "6||tdcc: net: instant 0: 2 leaves\n",
        ),
    ] {
        let input = format!(in rt.alloc(); "signal a, b; always if a else b\n%%\n{lines}")?;
        let wanted = end.replace(rt.alloc(), "{}", first)?;
        assert_call(&rt, rt.alloc(), words, input.as_bytes(), wanted.as_str())?;
    }
    Ok(())
}
