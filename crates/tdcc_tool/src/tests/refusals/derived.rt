//! Texts with derived forms that are refused.

use super::{assert_parts_refused, assert_places};
use std::test::Fail;

#[test]
fn a_derived_form_that_is_not_whole_is_refused_where_it_stops(rt: HostRuntime) -> Result<(), Fail> {
    let rows = [
        ("always", 1),
        ("when a", 2),
        ("when a b", 2),
        ("when do a", 1),
        ("when a & do a", 3),
        ("do a", 2),
        ("do a on a", 2),
        ("do watching a", 1),
        ("do a watching", 3),
        ("do a || b watching a &", 7),
        ("time a watching a", 2),
        ("time a on", 3),
        ("watching", 0),
        ("on a", 0),
        ("a on b", 1),
        ("signal a; always", 4),
        ("signal on; skip", 1),
        ("signal a; always a a", 5),
    ];
    assert_places(&rt, rt.alloc(), "syntax at lexeme", &rows)
}

#[test]
fn a_constraint_of_a_watching_or_a_clock_is_outside_the_body(rt: HostRuntime) -> Result<(), Fail> {
    let rows = [
        ("signal a; do new signal b in b watching b", 10),
        ("signal a; time new signal b in b on b", 10),
        ("signal a; when b do new signal b in b", 4),
        ("signal a; when a do b", 6),
        ("signal a; always b", 4),
    ];
    assert_places(&rt, rt.alloc(), "unknown name at lexeme", &rows)
}

#[test]
fn names_in_a_body_differ_from_those_around_the_form(rt: HostRuntime) -> Result<(), Fail> {
    let rows = [
        ("signal a; always new signal a in a", 6),
        ("signal a; do new signal a in a watching a", 6),
        ("signal a; when a do new signal a in a", 8),
        ("signal a; time new signal a in a on a", 6),
    ];
    assert_places(&rt, rt.alloc(), "double name at lexeme", &rows)
}

#[test]
fn units_in_derived_forms_are_counted_as_all_others(rt: HostRuntime) -> Result<(), Fail> {
    let alloc = rt.alloc();
    // The declaration has three lexemes, and the unit behind 64 others the next place.
    let deep = [("signal a; ", 1), ("always ", 64), ("a", 1)];
    assert_parts_refused(&rt, alloc, &deep, "too deep at lexeme 67")?;
    let deep = [("signal a; ", 1), ("when a do ", 64), ("a", 1)];
    assert_parts_refused(&rt, alloc, &deep, "too deep at lexeme 195")?;
    let deep = [
        ("signal a; ", 1),
        ("do ", 64),
        ("a", 1),
        (" watching a", 64),
    ];
    assert_parts_refused(&rt, alloc, &deep, "too deep at lexeme 67")?;
    let deep = [("signal a; ", 1), ("time ", 64), ("a", 1), (" on a", 64)];
    assert_parts_refused(&rt, alloc, &deep, "too deep at lexeme 67")?;
    let large = [("signal a; ", 1), ("always ", 63), ("a", 1)];
    assert_parts_refused(&rt, alloc, &large, "over 4096 nodes")
}

#[test]
fn constraints_of_derived_forms_have_eight_tokens_at_most(rt: HostRuntime) -> Result<(), Fail> {
    let rows = [
        ("signal a; do a watching a&a&a&a&a&a&a&a&a", 22),
        ("signal a; time a on a&a&a&a&a&a&a&a&a", 22),
        ("signal a; when a&a&a&a&a&a&a&a&a do a", 20),
    ];
    assert_places(&rt, rt.alloc(), "too many tokens at lexeme", &rows)
}
