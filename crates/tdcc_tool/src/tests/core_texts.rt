//! What `core` writes.

use super::assert_call;
use std::test::Fail;

#[test]
fn a_program_is_written_with_a_line_for_each_cell(rt: HostRuntime) -> Result<(), Fail> {
    let input = b"signal a, b; if a else b || hence if a else b\n%%\nq\n".as_slice();
    let wanted = "0|signal a;\nsignal b;\nif a else b || hence if a else b\n|";
    assert_call(&rt, rt.alloc(), "core", input, wanted)
}

#[test]
fn a_left_part_that_is_a_par_stands_in_braces(rt: HostRuntime) -> Result<(), Fail> {
    let input =
        b"signal a; int x in -3..007; {a || !a} || {#a || new int y in 0..1 in {y=1 & x>=-2}}".as_slice();
    let wanted =
        "0|signal a;\nint x in -3..7;\n{ a || !a } || #a || new int y in 0..1 in y>=1 & y<=1 & x>=-2\n|";
    assert_call(&rt, rt.alloc(), "core", input, wanted)
}

#[test]
fn the_text_is_that_of_a_program_that_is_not_stratified_too(rt: HostRuntime) -> Result<(), Fail> {
    let input = b"signal a; if a else a".as_slice();
    assert_call(
        &rt,
        rt.alloc(),
        "core",
        input,
        "0|signal a;\nif a else a\n|",
    )
}

#[test]
fn a_text_that_is_refused_has_no_core_text(rt: HostRuntime) -> Result<(), Fail> {
    let input = b"signal a; b".as_slice();
    let wanted = "3||tdcc: program: unknown name at lexeme 3\n";
    assert_call(&rt, rt.alloc(), "core", input, wanted)
}

#[test]
fn a_hidden_cell_has_a_dollar_and_its_number(rt: HostRuntime) -> Result<(), Fail> {
    let input = b"signal a, b; when a do b".as_slice();
    let wanted =
        "0|signal a;\nsignal b;\nnew signal $2 in { if a then { if $2 else b || hence $2 } || hence if a then { if $2 else b || hence $2 } }\n|";
    assert_call(&rt, rt.alloc(), "core", input, wanted)
}

#[test]
fn always_is_written_as_its_two_parts(rt: HostRuntime) -> Result<(), Fail> {
    let input = b"signal a, b; always if a else b".as_slice();
    let wanted = "0|signal a;\nsignal b;\nif a else b || hence if a else b\n|";
    assert_call(&rt, rt.alloc(), "core", input, wanted)
}
