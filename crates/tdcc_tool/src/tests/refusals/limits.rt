//! The last text within each limit, and the first beyond it.

use super::{assert_parts_accepted, assert_parts_refused, numbered};
use std::test::Fail;

#[test]
fn a_text_is_counted_with_its_white_space(rt: HostRuntime) -> Result<(), Fail> {
    let alloc = rt.alloc();
    let last = [("skip", 1), (" ", 65_532)];
    assert_parts_accepted(&rt, alloc, &last)?;
    let more = [("skip", 1), (" ", 65_533)];
    assert_parts_refused(&rt, alloc, &more, "text over 65536 bytes")?;
    // The line feed before the mark is a byte of the text, and the mark is none.
    let last = [(" ", 65_531), ("skip\n%%\n", 1)];
    assert_parts_accepted(&rt, alloc, &last)?;
    let more = [(" ", 65_532), ("skip\n%%\n", 1)];
    assert_parts_refused(&rt, alloc, &more, "text over 65536 bytes")
}

#[test]
fn the_first_unit_at_depth_65_is_named(rt: HostRuntime) -> Result<(), Fail> {
    let alloc = rt.alloc();
    // Braces are a unit, and `skip` within them another.
    let last = [("{", 63), ("skip", 1), ("}", 63)];
    assert_parts_accepted(&rt, alloc, &last)?;
    let more = [("{", 64), ("skip", 1), ("}", 64)];
    assert_parts_refused(&rt, alloc, &more, "too deep at lexeme 64")?;
    let last = [("next hence ", 31), ("next skip", 1)];
    assert_parts_accepted(&rt, alloc, &last)?;
    let more = [("next hence ", 32), ("skip", 1)];
    assert_parts_refused(&rt, alloc, &more, "too deep at lexeme 64")?;
    // Three lexemes declare, and each part is two units of the lexemes `if a else next`.
    let more = [("signal a; ", 1), ("if a else next ", 32), ("a", 1)];
    assert_parts_refused(&rt, alloc, &more, "too deep at lexeme 131")?;
    // Within 63 braces the parts of a par are at depth 64, and what stands in further braces is at depth 65.
    // Before it are the lexemes `skip || {`.
    let inner = [("{", 63), ("skip || {skip} || {skip}", 1), ("}", 63)];
    assert_parts_refused(&rt, alloc, &inner, "too deep at lexeme 66")?;
    let beside = [("skip || ", 200), ("{", 63), ("skip", 1), ("}", 63)];
    assert_parts_accepted(&rt, alloc, &beside)
}

#[test]
fn the_first_ninth_token_is_named(rt: HostRuntime) -> Result<(), Fail> {
    let alloc = rt.alloc();
    // A bound on both sides is one token, and each constraint has eight of its own.
    let int = ("int x in 0..9; ", 1);
    let last = [
        int,
        ("x=1 & ", 7),
        ("x=1 || ", 1),
        ("x=1 & ", 7),
        ("x=1", 1),
    ];
    assert_parts_accepted(&rt, alloc, &last)?;
    // Seven lexemes declare, and each of eight tokens has the lexemes `x = 1 &`.
    let more = [int, ("x=1 & ", 8), ("x=1", 1)];
    assert_parts_refused(&rt, alloc, &more, "too many tokens at lexeme 39")?;
    // Three lexemes declare, and each of eight tokens has the lexemes `! a &`.
    let more = [("signal a; ", 1), ("!a & ", 8), ("a", 1)];
    assert_parts_refused(&rt, alloc, &more, "too many tokens at lexeme 27")
}

#[test]
fn the_place_of_a_ninth_token_is_its_first_lexeme(rt: HostRuntime) -> Result<(), Fail> {
    let alloc = rt.alloc();
    // Three lexemes declare, and each of eight tokens has the lexemes `a &`.
    for ninth in ["!a", "#a", "a & a", "!a & !a || a"] {
        let text = [("signal a; ", 1), ("a & ", 8), (ninth, 1)];
        assert_parts_refused(&rt, alloc, &text, "too many tokens at lexeme 19")?;
    }
    for (before, reason) in [
        ("if ", "too many tokens at lexeme 20"),
        ("a || if ", "too many tokens at lexeme 22"),
        ("if a then if ", "too many tokens at lexeme 23"),
    ] {
        let text = [
            ("signal a; ", 1),
            (before, 1),
            ("a & ", 8),
            ("#a else a", 1),
        ];
        assert_parts_refused(&rt, alloc, &text, reason)?;
    }
    Ok(())
}

#[test]
fn up_to_256_cells_are_declared_besides_local_ones(rt: HostRuntime) -> Result<(), Fail> {
    let alloc = rt.alloc();
    let names = numbered(alloc, 255)?;
    let last = [(names.as_str(), 1), ("int x in 0..1; new signal s in s", 1)];
    assert_parts_accepted(&rt, alloc, &last)?;
    let more = [(names.as_str(), 1), ("int x in 0..1, y in 0..1; skip", 1)];
    assert_parts_refused(&rt, alloc, &more, "over 256 declared cells")
}

#[test]
fn up_to_4096_nodes_are_units_and_pars_but_no_braces(rt: HostRuntime) -> Result<(), Fail> {
    let alloc = rt.alloc();
    // Between 2,048 parts are 2,047 pars, and the last part has two nodes, and then three.
    let last = [("skip || ", 2_047), ("{{hence skip}}", 1)];
    assert_parts_accepted(&rt, alloc, &last)?;
    let more = [("skip || ", 2_047), ("{hence next skip}", 1)];
    assert_parts_refused(&rt, alloc, &more, "over 4096 nodes")
}

#[test]
fn up_to_1024_cells_are_declared_or_local(rt: HostRuntime) -> Result<(), Fail> {
    let alloc = rt.alloc();
    let local = "new signal s in skip || ";
    let reason = "over 1024 cells";
    assert_parts_accepted(&rt, alloc, &[(local, 1_024), ("skip", 1)])?;
    assert_parts_refused(&rt, alloc, &[(local, 1_025), ("skip", 1)], reason)?;
    let declared = ("signal a; ", 1);
    assert_parts_accepted(&rt, alloc, &[declared, (local, 1_023), ("a", 1)])?;
    assert_parts_refused(&rt, alloc, &[declared, (local, 1_024), ("a", 1)], reason)
}
