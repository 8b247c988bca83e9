//! Tokens of signals and of numbers, in programs, in trace lines and in store lines.

use super::assert_run;
use std::test::Fail;

#[test]
fn bounds_of_a_number_meet(rt: HostRuntime) -> Result<(), Fail> {
    let alloc = rt.alloc();
    let apart = b"int x in 0..10; x>=3 || x<=5\n%%\n\n".as_slice();
    assert_run(&rt, alloc, apart, "0|x>=3 x<=5\n|")?;
    let exact = b"int x in 0..10; x>=5 || x<=5\n%%\n\n".as_slice();
    assert_run(&rt, alloc, exact, "0|x=5\n|")
}

#[test]
fn a_clash_of_one_number_says_nothing_of_another(rt: HostRuntime) -> Result<(), Fail> {
    let input = b"int x in 0..10; signal a, b; int y in 0..10;
        x>=6 || x<=5 || if x=0 then a || y=2 || if b then y=3\n%%\n\n"
        .as_slice();
    assert_run(&rt, rt.alloc(), input, "0|#x a y=2\n|")
}

#[test]
fn a_bound_outside_the_domain_clashes(rt: HostRuntime) -> Result<(), Fail> {
    let input = b"int x in 0..10; signal b; x>=11 || if x>=0 then b\n%%\n\n".as_slice();
    assert_run(&rt, rt.alloc(), input, "0|#x b\n|")
}

#[test]
fn the_bounds_of_the_domain_are_entailed(rt: HostRuntime) -> Result<(), Fail> {
    let alloc = rt.alloc();
    let then = b"int x in 0..10; signal b; if x>=0 then b\n%%\n\n".as_slice();
    assert_run(&rt, alloc, then, "0|b\n|")?;
    let not = b"int x in 0..10; signal b; if x<=10 else b\n%%\n\n".as_slice();
    assert_run(&rt, alloc, not, "0|\n|")
}

#[test]
fn a_number_has_up_to_nine_digits(rt: HostRuntime) -> Result<(), Fail> {
    let alloc = rt.alloc();
    let last = b"int x in -999999999..999999999; x>=999999999\n%%\n\n".as_slice();
    assert_run(&rt, alloc, last, "0|x=999999999\n|")?;
    let low = b"int x in -999999999..999999999; skip\n%%\nx<=-999999999\n".as_slice();
    assert_run(&rt, alloc, low, "0|x=-999999999\n|")
}

#[test]
fn lines_have_all_tokens(rt: HostRuntime) -> Result<(), Fail> {
    let input =
        b"signal s; int x in 0..10; skip\n%%\n!s x>=2 x<=9 x>=1\ns !s\n#x x=4\nx=4\n".as_slice();
    assert_run(&rt, rt.alloc(), input, "0|!s x>=2 x<=9\n#s\n#x\nx=4\n|")
}

#[test]
fn the_first_field_that_is_refused_is_named_at_its_place(rt: HostRuntime) -> Result<(), Fail> {
    let alloc = rt.alloc();
    let unknown = b"signal a; a || hence a\n%%\n\n\nq\n".as_slice();
    let wanted = "4|a\na\n|tdcc: trace: instant 2: unknown name at offset 0\n";
    assert_run(&rt, alloc, unknown, wanted)?;
    let kind = b"signal a; a || hence a\n%%\n\n\na a>=1\n".as_slice();
    let wanted = "4|a\na\n|tdcc: trace: instant 2: wrong kind at offset 2\n";
    assert_run(&rt, alloc, kind, wanted)?;
    let bad = b"signal a; a || hence a\n%%\n\n a&\n".as_slice();
    let wanted = "4|a\n|tdcc: trace: instant 1: bad token at offset 1\n";
    assert_run(&rt, alloc, bad, wanted)
}

#[test]
fn local_numbers_are_told_apart_by_their_starts(rt: HostRuntime) -> Result<(), Fail> {
    let input = b"signal a; new int x in 0..3 in {x>=2 || next if x>=2 then a} ||
        hence new int x in 0..3 in {x<=1 || next if x=2 then a}\n%%\n\n\n\n"
        .as_slice();
    assert_run(&rt, rt.alloc(), input, "0|\n\n\n|")
}
