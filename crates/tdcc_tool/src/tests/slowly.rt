//! What `run` writes is what the evaluator of the definitions finds, which walks the whole history at each instant.
ghost use Rattle.std.specs.Prelude.{◌≤◌, All, IfOk, length};
ghost use Rattle.agent_core.specs.Limits.{most_instants};
ghost use Rattle.agent_core.specs.Stores.{IsInput};

use super::assert_run;
use crate::program_text::program_of;
use agent_core::Program;
use denotation_laws::slow_run;
use std::alloc::Global;
use std::process::Abort;
use std::test::Fail;
use std::thread::Threads;
use strata::strata;
use token_system::Store;
use trace_text::{generate, read_input, write_store};

/// The inputs that these lines give.
fn inputs_of(alloc: Global, program: &Program, lines: &[&str]) -> Result<Vec<Store>, Fail>
    requires { length lines.now ≤ most_instants }
    ensures inputs { IfOk result (λ ins. All (IsInput program.now) ins.items) }
    ensures bounded { IfOk result (λ ins. length ins.items ≤ most_instants) }
{
    let mut ins = Vec::new(alloc);
    for line in lines {
        match read_input(alloc, program, line.as_bytes()) {
            Ok(input) => ins.push(input)?,
            Err(_) => return Err(Fail::from("no input")),
        }
    }
    Ok(ins)
}

/// The store lines of the program's run on these lines, as the evaluator finds them.
fn found_slowly(alloc: Global, text: &[u8], lines: &[&str]) -> Result<Vec<u8>, Fail>
    requires { length lines.now ≤ most_instants }
{
    let Ok(program) = program_of(alloc, text) else {
        return Err(Fail::from("no program"));
    };
    let Ok(levels) = strata(alloc, &program) else {
        return Err(Fail::from("not stratified"));
    };
    let ins = inputs_of(alloc, &program, lines)?;
    let mut lines = Vec::new(alloc);
    for store in slow_run(alloc, &program, &levels, &ins)?.iter() {
        write_store(&program, store, &mut lines)?;
        lines.push(b'\n')?;
    }
    Ok(lines)
}

/// Asserts that `run` writes what the evaluator finds.
fn assert_same<R: Threads + Sync + Abort>(
    rt: &R,
    alloc: Global,
    text: &str,
    lines: &[&str],
) -> Result<(), Fail>
    requires { length lines.now ≤ most_instants }
{
    let mut input = text.as_bytes().to_vec(alloc)?;
    input.extend_from_slice(b"\n%%\n")?;
    for line in lines {
        input.extend_from_slice(line.as_bytes())?;
        input.push(b'\n')?;
    }
    let mut wanted = b"0|".to_vec(alloc)?;
    wanted.extend_from_slice(&found_slowly(alloc, text.as_bytes(), lines)?)?;
    wanted.push(b'|')?;
    let wanted = String::from_utf8(wanted)?;
    assert_run(rt, alloc, input.as_slice(), wanted.as_str())
}

#[test]
fn programs_of_each_form_run_as_the_evaluator_says(rt: HostRuntime) -> Result<(), Fail> {
    let lines = ["", "a", "b", ""];
    for text in [
        "signal a, b; skip",
        "signal a, b; a || hence a",
        "signal a, b, c, d; if c then d || {if b then c || if a then {b || skip}} || a",
        "signal a, b; if a then b",
        "signal a, b; a || b || if a else b",
        "signal a, b, c; if a else b || if b else c",
        "signal a, b; if a then a",
        "signal a, b; if a else b || a",
        "signal a, b; if a else b || hence if a else b",
        "signal a, b; if a else next a || hence if a else next a",
        "signal a, b; hence hence a",
        "signal a, b; next next {a || next b}",
        "signal a, b; new signal s in {s || if s then a || next if s then b} ||
            hence new signal s in {s || if s then a || next if s then b}",
        "signal a, b; hence new signal s in hence {if b then s || if s then a}",
        "signal a, b; int x in 0..10; x>=3 || x<=5 || hence if x<=10 else b",
        "signal a, b; int x in 0..10, y in 0..10; x>=6 || x<=5 || if x=0 then a || y=2 || if b then y=3",
        "signal a, b; int x in 0..10; x>=11 || if x>=0 then b",
        "signal a, b; int x in 0..10; if x>=0 then b || if x<=10 else a",
        "signal a, b; int x in -999999999..999999999; x>=999999999",
        "signal a, b; new int x in 0..3 in {x>=2 || next if x>=2 then a} ||
            hence new int x in 0..3 in {x<=1 || next if x=2 then a}",
        "signal a, b; always if a else b",
        "signal a, b; always if a else next a",
        "signal a, b; when a do b",
        "signal a, b; always when a do next b",
        "signal a, b; do always b watching a",
        "signal a, b, c, d; do {c || next when a do always d} watching b",
        "signal a, b; time always b on a",
        "signal a, b; time {b || next b} on a",
        "signal a, b, c; time do always {c || next c} watching b on a",
        "signal a, b; always new signal s in {s || if s then a || next if s then b}",
        "signal a, b; !a || #b || if b & !b then a || hence {if a & b else new int z in 0..1 in z=1}",
    ] {
        assert_same(&rt, rt.alloc(), text, &lines)?;
    }
    Ok(())
}

/// What stands before a tell: asks of `a` and `x`, and forms for later or with a cell of their own.
const BEFORE: [&str; 8] = [
    "if a then ",
    "if a else ",
    "if !a then ",
    "if x>=2 then ",
    "if x<=1 else ",
    "if #x then ",
    "next ",
    "new signal s in if a else ",
];

/// What is told, of `b` and `y`.
const TOLD: [&str; 7] = ["b", "!b", "#b", "y>=2", "y<=1", "#y", "b & y=2"];

#[test]
fn fifty_six_programs_run_as_the_evaluator_says(rt: HostRuntime) -> Result<(), Fail> {
    // Each form before each tell, and again at later instants behind another form. What is asked for by an else is told
    // by no body of it, so each of these is stratified: `a` and `x` first, then `b` and `y`, then `c`.
    let alloc = rt.alloc();
    let lines = ["", "a", "x=2", "a !a x>=3 x<=0"];
    for now in 0..BEFORE.len() {
        for (told, tell) in TOLD.iter().enumerate() {
            let first = BEFORE[now];
            let later = BEFORE[(now + told + 1) % 8];
            let text = format!(in alloc;
                "signal a, b, c; int x in 0..3, y in 0..3; {first}{tell} || if b then c ||
                hence {later}{{{tell} || if y>=2 else next a}}"
            )?;
            assert_same(&rt, alloc, text.as_str(), &lines)?;
        }
    }
    Ok(())
}

#[test]
fn a_generated_program_runs_as_the_evaluator_says(rt: HostRuntime) -> Result<(), Fail> {
    let (program, trace) = generate(rt.alloc(), 8)?;
    let text = String::from_utf8(program)?;
    let trace = String::from_utf8(trace)?;
    let mut lines = Vec::new(rt.alloc());
    for line in trace.as_str().lines() {
        lines.push(line)?;
    }
    assert!(rt; lines.len() == 8);
    assert_same(&rt, rt.alloc(), text.as_str(), &lines)
}
