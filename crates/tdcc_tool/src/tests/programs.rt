//! Which programs run, and what they tell.

use super::{assert_refused, assert_run};
use std::alloc::Global;
use std::process::Abort;
use std::test::Fail;
use std::thread::Threads;
use token_system::Memory;

#[test]
fn an_ask_that_holds_tells_at_the_first_instant_alone(rt: HostRuntime) -> Result<(), Fail> {
    let input = b"signal a, b; if a then b\n%%\na\na\n".as_slice();
    assert_run(&rt, rt.alloc(), input, "0|a b\na\n|")
}

#[test]
fn a_program_without_lines_writes_nothing(rt: HostRuntime) -> Result<(), Fail> {
    let alloc = rt.alloc();
    assert_run(&rt, alloc, b"skip\n%%\n".as_slice(), "0||")?;
    assert_run(&rt, alloc, b"signal a; a".as_slice(), "0||")
}

#[test]
fn asks_hold_in_whatever_order_they_are_told(rt: HostRuntime) -> Result<(), Fail> {
    let input = b"signal a, b; signal c, d;
        if c then d || {if b then c || if a then {b || skip}} || a
%%

d
"
        .as_slice();
    assert_run(&rt, rt.alloc(), input, "0|a b c d\nd\n|")
}

#[test]
fn a_clash_entails_each_token_of_its_cell(rt: HostRuntime) -> Result<(), Fail> {
    let input =
        b"signal a, b, c; !a || #b || if b & !b then a || if a & !a then c\n%%\n\n".as_slice();
    assert_run(&rt, rt.alloc(), input, "0|#a #b c\n|")
}

#[test]
fn a_default_runs_where_the_final_store_lacks_its_ask(rt: HostRuntime) -> Result<(), Fail> {
    let alloc = rt.alloc();
    let input = b"signal a, b, c; if a else b || if b else c\n%%\n\n\n".as_slice();
    assert_run(&rt, alloc, input, "0|b\n\n|")?;
    let input = b"signal a, b, c; if a else b || if b else c\n%%\na\n".as_slice();
    assert_run(&rt, alloc, input, "0|a c\n|")?;
    let input = b"signal a, b; if a else b || a\n%%\n\n".as_slice();
    assert_run(&rt, alloc, input, "0|a\n|")?;
    let input = b"signal a, b; a || b || if a else b\n%%\n\n".as_slice();
    assert_run(&rt, alloc, input, "0|a b\n|")
}

#[test]
fn nothing_is_told_on_its_own_account(rt: HostRuntime) -> Result<(), Fail> {
    let input = b"signal a; if a then a\n%%\n\n".as_slice();
    assert_run(&rt, rt.alloc(), input, "0|\n|")
}

#[test]
fn a_program_that_depends_on_its_own_absence_is_refused(rt: HostRuntime) -> Result<(), Fail> {
    let alloc = rt.alloc();
    let itself = b"signal a; if a else a".as_slice();
    let wanted = "3||tdcc: program: not stratified, a guards a at node 0\n";
    assert_run(&rt, alloc, itself, wanted)?;
    let each_other = b"signal a, b; if a else b || if b else a".as_slice();
    let wanted = "3||tdcc: program: not stratified, a guards b at node 1\n";
    assert_run(&rt, alloc, each_other, wanted)
}

#[test]
fn texts_that_are_no_program_are_refused(rt: HostRuntime) -> Result<(), Fail> {
    for (text, reason) in [
        ("", "syntax at lexeme 0"),
        ("signal a;", "syntax at lexeme 3"),
        ("signal a; if a then", "syntax at lexeme 6"),
        ("signal a, b, c; if a then b else c", "syntax at lexeme 11"),
        ("signal a; {a", "syntax at lexeme 5"),
        ("signal a; a ? a", "bad byte at offset 12"),
        ("signal a, a; skip", "double name at lexeme 3"),
        ("signal a; new signal a in a", "double name at lexeme 5"),
        ("int x in 5..4; skip", "empty domain at lexeme 3"),
        ("b", "unknown name at lexeme 0"),
        ("signal a; a>=3", "wrong kind at lexeme 3"),
        ("int x in 0..1; x>=1000000000", "long number at lexeme 9"),
    ] {
        assert_refused(&rt, rt.alloc(), text, reason)?;
    }
    Ok(())
}

/// `before`, and then `part` so often, and then `after`.
fn repeated(
    alloc: Global,
    before: &[u8],
    part: &[u8],
    count: usize,
    after: &[u8],
) -> Result<Vec<u8>, Memory> {
    let mut text = before.to_vec(alloc)?;
    for _ in 0..count {
        text.extend_from_slice(part)?;
    }
    text.extend_from_slice(after)?;
    Ok(text)
}

/// A text of so many equal parts between a beginning and an end.
struct Parts<'a> {
    before: &'a [u8],
    part: &'a [u8],
    count: usize,
    after: &'a [u8],
}

/// Asserts that the text runs, and that one with a part more is refused, for this reason.
fn assert_limit<R: Threads + Sync + Abort>(
    rt: &R,
    alloc: Global,
    parts: Parts<'_>,
    reason: &str,
) -> Result<(), Fail> {
    let Parts {
        before,
        part,
        count,
        after,
    } = parts;
    let last = repeated(alloc, before, part, count, after)?;
    assert_run(rt, alloc, last.as_slice(), "0|a\n|")?;
    let more = repeated(alloc, before, part, count.saturating_add(1), after)?;
    let wanted = format!(in alloc; "3||tdcc: program: {reason}\n")?;
    assert_run(rt, alloc, more.as_slice(), wanted.as_str())
}

#[test]
fn a_text_has_up_to_65536_bytes(rt: HostRuntime) -> Result<(), Fail> {
    let parts = Parts {
        before: b"signal a;a",
        part: b" ",
        count: 65_525,
        after: b"\n%%\n\n",
    };
    assert_limit(&rt, rt.alloc(), parts, "text over 65536 bytes")
}

#[test]
fn a_constraint_has_up_to_eight_tokens(rt: HostRuntime) -> Result<(), Fail> {
    let parts = Parts {
        before: b"signal a; a",
        part: b"&a",
        count: 7,
        after: b"\n%%\n\n",
    };
    assert_limit(&rt, rt.alloc(), parts, "too many tokens at lexeme 19")
}

#[test]
fn units_are_nested_up_to_64_deep(rt: HostRuntime) -> Result<(), Fail> {
    let parts = Parts {
        before: b"signal a; ",
        part: b"if a then ",
        count: 63,
        after: b"a\n%%\na\n",
    };
    assert_limit(&rt, rt.alloc(), parts, "too deep at lexeme 195")
}

#[test]
fn names_have_up_to_32_bytes(rt: HostRuntime) -> Result<(), Fail> {
    let parts = Parts {
        before: b"signal a, n",
        part: b"n",
        count: 31,
        after: b"; a\n%%\n\n",
    };
    assert_limit(&rt, rt.alloc(), parts, "long name at lexeme 3")
}

#[test]
fn a_program_has_up_to_4096_nodes(rt: HostRuntime) -> Result<(), Fail> {
    let alloc = rt.alloc();
    let many = repeated(alloc, b"signal a; ", b"skip || ", 2_046, b"")?;
    let parts = Parts {
        before: many.as_slice(),
        part: b"if a then ",
        count: 1,
        after: b"a || a\n%%\n\n",
    };
    assert_limit(&rt, alloc, parts, "over 4096 nodes")
}

/// Declarations of the signal `a` and so many others, and a program that tells `a`.
fn declarations(alloc: Global, others: usize) -> Result<Vec<u8>, Memory> {
    let mut text = b"signal a".to_vec(alloc)?;
    for number in 0..others {
        let name = format!(in alloc; ", n{number}")?;
        text.extend_from_slice(name.as_bytes())?;
    }
    text.extend_from_slice(b"; a\n%%\n\n")?;
    Ok(text)
}

#[test]
fn up_to_256_cells_are_declared(rt: HostRuntime) -> Result<(), Fail> {
    let alloc = rt.alloc();
    let last = declarations(alloc, 255)?;
    assert_run(&rt, alloc, last.as_slice(), "0|a\n|")?;
    let more = declarations(alloc, 256)?;
    let wanted = "3||tdcc: program: over 256 declared cells\n";
    assert_run(&rt, alloc, more.as_slice(), wanted)
}
