//! Declarations and names that don't fit one another.

use super::{assert_accepted, assert_places};
use std::test::Fail;

#[test]
fn a_name_that_is_in_scope_is_not_declared_again(rt: HostRuntime) -> Result<(), Fail> {
    let alloc = rt.alloc();
    for text in [
        "new signal a in a || new signal a in a",
        "new signal a in a || new int a in 0..1 in a=1",
        "{new signal a in a} || hence {skip || new signal a in a}",
        "signal a, A; A",
    ] {
        assert_accepted(&rt, alloc, text)?;
    }
    let rows = [
        ("signal a, b, c, b; skip", 7),
        ("signal a; signal a; skip", 4),
        ("signal a; int a in 0..1; skip", 4),
        ("int x in 0..1, x in 2..3; skip", 7),
        ("int x in 0..1; signal x; skip", 8),
        ("int x in 0..1; new int x in 0..1 in skip", 9),
        ("new signal a in new signal a in skip", 6),
        ("new signal a in new int a in 0..1 in skip", 6),
        ("new int x in 0..1 in new signal x in skip", 10),
        // `new signal a in {skip || new signal b in skip || new signal a`, of which the last is number 15.
        (
            "new signal a in {skip || new signal b in skip || new signal a in skip}",
            15,
        ),
        // Side by side with the first, and within the second.
        ("new signal b in b || new signal b in new signal b in b", 12),
    ];
    assert_places(&rt, alloc, "double name at lexeme", &rows)
}

#[test]
fn a_domain_has_a_number(rt: HostRuntime) -> Result<(), Fail> {
    let alloc = rt.alloc();
    assert_accepted(&rt, alloc, "int x in -0..0, y in 0..-0, z in 7..7; z=7")?;
    let rows = [
        ("int x in 0..-1; skip", 3),
        ("int x in -1..-2; skip", 3),
        ("int x in 1..-0; skip", 3),
        ("int x in 999999999..-999999999; skip", 3),
        ("int x in 0..1, y in 3..-3; skip", 9),
        ("signal a; int x in 1..0; skip", 6),
        ("new int x in 1..0 in skip", 4),
    ];
    assert_places(&rt, alloc, "empty domain at lexeme", &rows)
}

#[test]
fn a_name_without_a_declaration_in_scope_is_named(rt: HostRuntime) -> Result<(), Fail> {
    let rows = [
        ("!b", 1),
        ("#b", 1),
        ("b>=1", 0),
        ("signal a; A", 3),
        ("signal a; a & b", 5),
        ("signal a; if b then a", 4),
        ("signal a; if a else b", 6),
        ("signal a; a || hence next b", 7),
        // A prefix form binds tighter than a par, so the scope ends before it.
        ("new signal a in a || a", 6),
        ("{new signal a in a} || a", 8),
        ("a || new signal a in a", 0),
        ("if a then new signal a in a", 1),
        ("new int x in 0..1 in x=1 || x=1", 12),
        ("new signal a in if a then new signal b in b || b", 13),
        ("signal a; new signal b in {a & b} || a & !b", 16),
    ];
    assert_places(&rt, rt.alloc(), "unknown name at lexeme", &rows)
}

#[test]
fn a_token_is_of_the_kind_of_its_cell(rt: HostRuntime) -> Result<(), Fail> {
    let alloc = rt.alloc();
    assert_accepted(&rt, alloc, "signal a; int x in 0..1; #a || #x || x>=9")?;
    let rows = [
        ("signal a; a<=3", 3),
        ("signal a; a=3", 3),
        ("int x in 0..1; x", 7),
        ("int x in 0..1; !x", 8),
        ("int x in 0..1; x=1 & x", 11),
        ("int x in 0..1; if !x then skip", 9),
        // Seven lexemes, then `signal a ; if x = 1 else` are eight.
        ("int x in 0..1; signal a; if x=1 else a>=1", 15),
        ("new signal s in s=0", 4),
        ("new int x in 0..1 in x", 8),
        // The name has one kind in each of two scopes.
        ("new signal n in n || new int n in 0..1 in n", 14),
    ];
    assert_places(&rt, alloc, "wrong kind at lexeme", &rows)
}
