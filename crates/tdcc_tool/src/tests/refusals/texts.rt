//! Texts that are no program: bytes that begin no lexeme, long lexemes, words of later forms, and faults of syntax.

use super::{assert_accepted, assert_places, assert_refused};
use std::test::Fail;

#[test]
fn the_first_byte_that_begins_no_lexeme_is_named(rt: HostRuntime) -> Result<(), Fail> {
    let rows = [
        ("?", 0),
        ("_a", 0),
        ("\0", 0),
        ("%% a", 0),
        ("skip %%\n", 5),
        ("skip // all", 5),
        ("skip.", 4),
        ("signal a;\r\n\t$", 12),
        ("signal a; \u{e9}", 10),
        // The vertical tab and the form feed are no white space.
        ("a \u{b} b", 2),
        ("a\u{c}", 1),
        ("a | b", 2),
        // After the two bars of one symbol.
        ("a ||| b", 4),
        ("int x in 0.1; skip", 10),
        // After the two points of one symbol.
        ("int x in 0...1; skip", 12),
        ("x > 1", 2),
        ("x < 1", 2),
        // `=` is a symbol, and `>` alone is none.
        ("x => 1", 3),
        // A `-` belongs to a number only where a digit follows it directly.
        ("a-b", 1),
        ("x= - 1", 3),
        ("x=--1", 2),
        ("x=-", 2),
    ];
    assert_places(&rt, rt.alloc(), "bad byte at offset", &rows)
}

#[test]
fn the_first_name_of_more_than_32_bytes_is_named(rt: HostRuntime) -> Result<(), Fail> {
    let alloc = rt.alloc();
    let last = "signal abcdefghijklmnopqrstuvwxyz_01234; abcdefghijklmnopqrstuvwxyz_01234";
    assert_accepted(&rt, alloc, last)?;
    let rows = [
        ("abcdefghijklmnopqrstuvwxyz_012345", 0),
        ("signal a; !abcdefghijklmnopqrstuvwxyz_012345", 4),
        ("skip || skip abcdefghijklmnopqrstuvwxyz_012345", 3),
        ("new signal abcdefghijklmnopqrstuvwxyz_012345 in skip", 2),
        // Before a long number.
        ("abcdefghijklmnopqrstuvwxyz_012345 1234567890", 0),
    ];
    assert_places(&rt, alloc, "long name at lexeme", &rows)
}

#[test]
fn the_first_number_of_more_than_nine_digits_is_named(rt: HostRuntime) -> Result<(), Fail> {
    let alloc = rt.alloc();
    // Leading zeros count as digits, and the sign does not.
    assert_accepted(&rt, alloc, "int x in -000000001..000000009; x=000000000")?;
    assert_accepted(&rt, alloc, "int x in -123456789..123456789; x=-123456789")?;
    let rows = [
        ("1234567890", 0),
        ("int x in -1234567890..1; skip", 3),
        ("int x in 0000000000..1; skip", 3),
        ("int x in 0..1000000000; skip", 5),
        // The declaration has seven lexemes, and `x = 1 ||` four.
        ("int x in 0..1; x=1 || x>=-0000000000", 13),
        // Before a long name.
        ("1234567890 abcdefghijklmnopqrstuvwxyz_012345", 0),
    ];
    assert_places(&rt, alloc, "long number at lexeme", &rows)
}

#[test]
fn the_first_word_of_a_form_not_built_is_named(rt: HostRuntime) -> Result<(), Fail> {
    let alloc = rt.alloc();
    // Names that only begin with such a word, or have capitals.
    assert_accepted(&rt, alloc, "signal always1, whenever, on_, Set; on_ || Set")?;
    let rows = [
        ("set", 0),
        (":", 0),
        ("signal a; set a", 3),
        ("signal a; if a then set a", 6),
        ("signal set; skip", 1),
        ("signal a; a set", 4),
        ("signal a: skip", 2),
        ("signal a; set s in 0..3; skip", 3),
        ("signal a, b; {a} set b", 8),
        ("signal a, b; a || {b || a : b}", 11),
        ("always set", 1),
        ("do a watching :", 3),
        ("a : set", 1),
    ];
    assert_places(&rt, alloc, "not built yet at lexeme", &rows)
}

#[test]
fn a_text_that_begins_no_program_is_refused_at_its_first_lexeme(
    rt: HostRuntime,
) -> Result<(), Fail> {
    let alloc = rt.alloc();
    for text in [
        " \t\r\n", "|| a", "}", "= 1", "12", "9a", "in", "then a", "else a", "; skip", ", a",
        ".. 1", "& a", ">= 1", "<= 1",
    ] {
        assert_refused(&rt, alloc, text, "syntax at lexeme 0")?;
    }
    Ok(())
}

#[test]
fn an_agent_is_refused_where_no_program_goes_on_so(rt: HostRuntime) -> Result<(), Fail> {
    let rows = [
        ("a b", 1),
        ("a; b", 1),
        ("a || || b", 2),
        ("{}", 1),
        ("{a}}", 3),
        ("{a} {b}", 3),
        ("{a; b}", 2),
        ("skip & skip", 1),
        ("a & skip", 2),
        ("a & & b", 2),
        ("!skip", 1),
        ("!!a", 1),
        ("#!a", 1),
        ("!x>=1", 2),
        ("#x=1", 2),
        ("x>=y", 2),
        ("x==1", 2),
        ("x=1=2", 3),
        ("x=1..2", 3),
        // `5` and `-3` are two numbers, and `a` and `-1` a name and a number.
        ("x=5-3", 3),
        ("a-1", 1),
        ("hence || a", 1),
        ("next then", 1),
        ("if skip then a", 1),
        ("if {a} then b", 1),
        ("if a b", 2),
        ("if a || b then c", 2),
        ("if a then then b", 3),
        ("if a then b else c", 4),
        ("if a then b || else c", 5),
        ("new a in a", 1),
        ("new signal a a", 3),
        ("new signal a, b in a", 3),
        ("new signal a in || a", 4),
        ("new int x; x=1", 3),
        // `new int x in 0 .. 1` are seven lexemes.
        ("new int x in 0..1; x=1", 7),
    ];
    assert_places(&rt, rt.alloc(), "syntax at lexeme", &rows)
}

#[test]
fn a_declaration_is_refused_where_no_program_goes_on_so(rt: HostRuntime) -> Result<(), Fail> {
    let rows = [
        ("signal ; skip", 1),
        ("signal skip; skip", 1),
        ("signal a b; a", 2),
        ("signal a in 0..1; skip", 2),
        ("signal a, ; a", 3),
        ("signal a; , a", 3),
        ("signal a; a; signal b; b", 4),
        ("signal a; a || signal b; b", 5),
        ("int int in 0..1; skip", 1),
        ("int x; skip", 2),
        ("int x in a..b; skip", 3),
        ("int x in 0; skip", 4),
        ("int x in 0 1; skip", 4),
        ("int x in 1-2; skip", 4),
        ("int x in 0..; skip", 5),
        ("int x in 0..1..2; skip", 6),
        ("int x in 0..1, signal y; skip", 7),
    ];
    assert_places(&rt, rt.alloc(), "syntax at lexeme", &rows)
}

#[test]
fn a_text_that_breaks_off_is_refused_behind_its_last_lexeme(rt: HostRuntime) -> Result<(), Fail> {
    let rows = [
        ("signal", 1),
        ("signal a", 2),
        ("signal a,", 3),
        ("int x in", 3),
        ("int x in 0..", 5),
        ("int x in 0..1", 6),
        ("int x in 0..1;", 7),
        ("a || \n\n", 2),
        ("a &", 2),
        ("!", 1),
        ("#", 1),
        ("x>=", 2),
        ("if", 1),
        ("if a", 2),
        ("if a else", 3),
        ("hence", 1),
        ("next", 1),
        ("new", 1),
        ("new signal a in", 4),
        ("new int x in 0..1 in", 8),
        ("{", 1),
        ("{a ||", 3),
        ("{{a}", 4),
    ];
    assert_places(&rt, rt.alloc(), "syntax at lexeme", &rows)
}
