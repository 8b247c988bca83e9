//! Texts with two faults, and which of them is answered.

use super::{assert_parts_refused, assert_places, assert_refused, numbered};
use std::test::Fail;

#[test]
fn the_length_of_a_text_comes_before_its_bytes(rt: HostRuntime) -> Result<(), Fail> {
    let alloc = rt.alloc();
    assert_parts_refused(&rt, alloc, &[("?", 65_537)], "text over 65536 bytes")?;
    assert_parts_refused(&rt, alloc, &[("?", 65_536)], "bad byte at offset 0")?;
    let last = [(" ", 65_535), ("?", 1)];
    assert_parts_refused(&rt, alloc, &last, "bad byte at offset 65535")?;
    assert_parts_refused(&rt, alloc, &[(" ", 65_537)], "text over 65536 bytes")?;
    assert_parts_refused(&rt, alloc, &[(" ", 65_536)], "syntax at lexeme 0")
}

#[test]
fn a_bad_byte_comes_before_faults_of_lexemes_in_front_of_it(rt: HostRuntime) -> Result<(), Fail> {
    let alloc = rt.alloc();
    let rows = [
        ("? ?", 0),
        ("abcdefghijklmnopqrstuvwxyz_012345 ?", 34),
        ("? abcdefghijklmnopqrstuvwxyz_012345", 0),
        ("1234567890 ?", 11),
        ("set ?", 4),
        ("|| ?", 3),
        ("a b ?", 4),
        ("a&a&a&a&a&a&a&a&a ?", 18),
        ("signal a, a; ?", 13),
        ("int x in 5..4; x ?", 17),
        ("b ?", 2),
    ];
    assert_places(&rt, alloc, "bad byte at offset", &rows)?;
    assert_parts_refused(&rt, alloc, &[("{", 64), ("a?", 1)], "bad byte at offset 65")
}

#[test]
fn a_long_name_or_number_comes_before_faults_in_front_of_it(rt: HostRuntime) -> Result<(), Fail> {
    let alloc = rt.alloc();
    let rows = [
        ("set abcdefghijklmnopqrstuvwxyz_012345", 1),
        ("a b abcdefghijklmnopqrstuvwxyz_012345", 2),
        ("|| abcdefghijklmnopqrstuvwxyz_012345", 1),
        ("signal a, a; abcdefghijklmnopqrstuvwxyz_012345", 5),
        ("b || abcdefghijklmnopqrstuvwxyz_012345", 2),
        // It is the tenth token, and each of nine before it has the lexemes `a &`.
        ("a&a&a&a&a&a&a&a&a&abcdefghijklmnopqrstuvwxyz_012345", 18),
    ];
    assert_places(&rt, alloc, "long name at lexeme", &rows)?;
    let rows = [
        ("set 1234567890", 1),
        ("signal a; a>=1234567890", 5),
        ("b || x=1234567890", 4),
        ("int x in 1234567890..0; skip", 3),
        ("int x in 5..4; x=1234567890", 9),
    ];
    assert_places(&rt, alloc, "long number at lexeme", &rows)?;
    let deep = [("{", 64), ("abcdefghijklmnopqrstuvwxyz_012345", 1)];
    assert_parts_refused(&rt, alloc, &deep, "long name at lexeme 64")
}

#[test]
fn a_word_of_a_form_not_built_comes_before_faults_in_front_of_it(
    rt: HostRuntime,
) -> Result<(), Fail> {
    let alloc = rt.alloc();
    let rows = [
        ("set a b", 0),
        ("a b set", 2),
        ("|| set", 1),
        ("a :", 1),
        ("if a then b else : c", 5),
        ("on set", 1),
        (": set", 0),
        ("a&a&a&a&a&a&a&a&a || set a", 18),
        ("signal a, a; set", 5),
        ("int x in 5..4; set", 7),
        ("b || set b", 2),
        ("signal a; a>=3 set", 6),
        ("signal on; set", 3),
    ];
    assert_places(&rt, alloc, "not built yet at lexeme", &rows)?;
    let deep = [("{", 64), ("set a", 1), ("}", 64)];
    assert_parts_refused(&rt, alloc, &deep, "not built yet at lexeme 64")
}

#[test]
fn a_fault_of_syntax_comes_before_faults_in_front_of_it(rt: HostRuntime) -> Result<(), Fail> {
    let alloc = rt.alloc();
    let rows = [
        ("a&a&a&a&a&a&a&a&a b", 17),
        ("signal a, a;", 5),
        ("signal a, a; a b", 6),
        ("int x in 5..4; x=", 9),
        ("b ||", 2),
        ("signal a; a>=3 3", 6),
        ("new signal a in new signal a in", 8),
    ];
    assert_places(&rt, alloc, "syntax at lexeme", &rows)?;
    assert_parts_refused(&rt, alloc, &[("{", 64), ("a", 1)], "syntax at lexeme 65")?;
    let names = numbered(alloc, 257)?;
    assert_refused(&rt, alloc, names.as_str(), "syntax at lexeme 515")?;
    assert_parts_refused(&rt, alloc, &[("skip || ", 2_049)], "syntax at lexeme 4098")
}

#[test]
fn of_depth_and_tokens_the_first_lexeme_counts(rt: HostRuntime) -> Result<(), Fail> {
    let alloc = rt.alloc();
    let nine = "a&a&a&a&a&a&a&a&a";
    // The unit at depth 65 is itself a constraint of nine tokens, the last of them at lexeme 80.
    let both = [("{", 64), (nine, 1), ("}", 64)];
    assert_parts_refused(&rt, alloc, &both, "too deep at lexeme 64")?;
    // The ask of the unit at depth 64 has nine tokens from lexeme 64 on, and its body is at depth 65.
    let ask = [("hence ", 63), ("if ", 1), (nine, 1), (" then a", 1)];
    assert_parts_refused(&rt, alloc, &ask, "too many tokens at lexeme 80")?;
    let tokens_first = [(nine, 1), (" || ", 1), ("hence ", 64), ("a", 1)];
    assert_parts_refused(&rt, alloc, &tokens_first, "too many tokens at lexeme 16")?;
    let depth_first = [("hence ", 64), ("a || ", 1), (nine, 1)];
    assert_parts_refused(&rt, alloc, &depth_first, "too deep at lexeme 64")
}

#[test]
fn depth_and_tokens_come_before_names_in_front_of_them(rt: HostRuntime) -> Result<(), Fail> {
    let alloc = rt.alloc();
    let rows = [
        ("signal a, a; a&a&a&a&a&a&a&a&a", 21),
        ("signal a; b || a&a&a&a&a&a&a&a&a", 21),
        ("int x in 5..4; x&x&x&x&x&x&x&x&x", 23),
        ("b&b&b&b&b&b&b&b&b", 16),
    ];
    assert_places(&rt, alloc, "too many tokens at lexeme", &rows)?;
    let unknown = [("b || ", 1), ("hence ", 64), ("b", 1)];
    assert_parts_refused(&rt, alloc, &unknown, "too deep at lexeme 66")?;
    let empty = [("int x in 5..4; ", 1), ("hence ", 64), ("x", 1)];
    assert_parts_refused(&rt, alloc, &empty, "too deep at lexeme 71")?;
    // Each part declares the name again that the one before it has declared.
    let double = [("new signal a in ", 64), ("a", 1)];
    assert_parts_refused(&rt, alloc, &double, "too deep at lexeme 256")?;
    // The declaration has 515 lexemes.
    let names = numbered(alloc, 257)?;
    let many = [(names.as_str(), 1), ("a&a&a&a&a&a&a&a&a", 1)];
    assert_parts_refused(&rt, alloc, &many, "too many tokens at lexeme 531")
}

#[test]
fn of_two_names_the_first_is_answered(rt: HostRuntime) -> Result<(), Fail> {
    let alloc = rt.alloc();
    let rows = [
        ("signal a, a; b", 3),
        ("signal a, a; a=1", 3),
        ("signal a, a; int x in 5..4; skip", 3),
        ("signal a; int a in 1..0; skip", 4),
        ("signal a; new signal a in b", 5),
        ("int x in 0..1, x in 5..4; skip", 7),
        ("new signal a in {new signal a in a || b}", 7),
    ];
    assert_places(&rt, alloc, "double name at lexeme", &rows)?;
    let rows = [
        ("int x in 5..4, x in 0..1; skip", 3),
        ("int x in 5..4; x", 3),
        ("new int x in 5..4 in b", 4),
        ("signal a; int x in 1..0, a in 0..1; skip", 6),
        ("int x in 0..1; new int y in 1..0 in x", 11),
    ];
    assert_places(&rt, alloc, "empty domain at lexeme", &rows)?;
    let rows = [
        ("b || new int x in 5..4 in x=4", 0),
        ("signal a; b & a=1", 3),
        ("new signal a in {b || new signal a in a}", 5),
        ("int x in 0..1; #b & !x", 8),
    ];
    assert_places(&rt, alloc, "unknown name at lexeme", &rows)?;
    let rows = [
        ("signal a; a=1 & b", 3),
        ("signal a; a=1 || new signal a in a", 3),
        ("int x in 0..1; x || new int y in 1..0 in skip", 7),
        ("int x in 0..1; !x & #b", 8),
    ];
    assert_places(&rt, alloc, "wrong kind at lexeme", &rows)
}

#[test]
fn names_come_before_counts(rt: HostRuntime) -> Result<(), Fail> {
    let alloc = rt.alloc();
    // 257 signals are declared by 515 lexemes.
    let names = numbered(alloc, 257)?;
    let unknown = [(names.as_str(), 1), ("b", 1)];
    assert_parts_refused(&rt, alloc, &unknown, "unknown name at lexeme 515")?;
    let kind = [(names.as_str(), 1), ("skip || n256=1", 1)];
    assert_parts_refused(&rt, alloc, &kind, "wrong kind at lexeme 517")?;
    let double = [(names.as_str(), 1), ("signal n256; skip", 1)];
    assert_parts_refused(&rt, alloc, &double, "double name at lexeme 516")?;
    // 4,097 nodes.
    let nodes = [("skip || ", 2_048), ("b", 1)];
    assert_parts_refused(&rt, alloc, &nodes, "unknown name at lexeme 4096")?;
    // 1,025 local cells, each of which has six lexemes and is out of scope at the end.
    let cells = [("new signal s in skip || ", 1_025), ("s", 1)];
    assert_parts_refused(&rt, alloc, &cells, "unknown name at lexeme 6150")
}

#[test]
fn declared_cells_come_before_nodes_and_nodes_before_cells(rt: HostRuntime) -> Result<(), Fail> {
    let alloc = rt.alloc();
    let names = numbered(alloc, 257)?;
    let declared = (names.as_str(), 1);
    let local = "new signal s in skip || ";
    let both = [declared, ("skip || ", 2_048), ("skip", 1)];
    assert_parts_refused(&rt, alloc, &both, "over 256 declared cells")?;
    let both = [declared, (local, 768), ("skip", 1)];
    assert_parts_refused(&rt, alloc, &both, "over 256 declared cells")?;
    // 1,365 parts have three nodes each, with the par behind them, and the last one has two: 4,097. With one part less
    // and one node more they are 4,095.
    let both = [(local, 1_365), ("hence skip", 1)];
    assert_parts_refused(&rt, alloc, &both, "over 4096 nodes")?;
    let cells = [(local, 1_364), ("hence hence skip", 1)];
    assert_parts_refused(&rt, alloc, &cells, "over 1024 cells")
}

#[test]
fn strata_come_last(rt: HostRuntime) -> Result<(), Fail> {
    let alloc = rt.alloc();
    let own = ("signal a; if a else a || ", 1);
    let unknown = [own, ("b", 1)];
    assert_parts_refused(&rt, alloc, &unknown, "unknown name at lexeme 8")?;
    // The first of 2,048 parts has two nodes and each other one has one: with the pars these are 4,096. Another part and
    // its par make 4,098.
    let last = [own, ("skip || ", 2_046), ("skip", 1)];
    assert_parts_refused(&rt, alloc, &last, "not stratified, a guards a at node 1")?;
    let more = [own, ("skip || ", 2_047), ("skip", 1)];
    assert_parts_refused(&rt, alloc, &more, "over 4096 nodes")?;
    let local = "new signal s in skip || ";
    let last = [own, (local, 1_023), ("skip", 1)];
    assert_parts_refused(&rt, alloc, &last, "not stratified, a guards a at node 1")?;
    let more = [own, (local, 1_024), ("skip", 1)];
    assert_parts_refused(&rt, alloc, &more, "over 1024 cells")
}
