//! Words, and the commands that they call.
use super::*;
use std::alloc::{AllocError, Global};
use std::test::Fail;

/// The command that the words of a line call.
fn called(alloc: Global, line: &str) -> Result<Option<Command>, AllocError> {
    let mut words = Vec::new(alloc);
    for word in line.split(' ') {
        words.push(String::from_str(alloc, word)?)?;
    }
    Ok(command_of(&words))
}

#[test]
fn a_run_has_the_limits_that_are_set_and_else_the_default_ones(
    rt: HostRuntime,
) -> Result<(), Fail> {
    for (line, fuel, net) in [
        ("run", 100_000_000, 65_536),
        ("run --workers 1", 100_000_000, 65_536),
        ("run --workers 2", 100_000_000, 65_536),
        ("run --workers 64", 100_000_000, 65_536),
        ("run --fuel 0", 0, 65_536),
        ("run --fuel 999999999", 999_999_999, 65_536),
        ("run --fuel 000000012", 12, 65_536),
        ("run --net 1", 100_000_000, 1),
        ("run --net 65536", 100_000_000, 65_536),
        ("run --fuel 5 --net 7", 5, 7),
        ("run --net 7 --workers 3 --fuel 5", 5, 7),
    ] {
        let limits = Limits { fuel, net };
        assert_eq!(rt;
            called(rt.alloc(), line)?,
            Some(Command::Run(limits)),
            "{line}"
        );
    }
    Ok(())
}

#[test]
fn a_report_takes_the_settings_of_a_run_and_the_others_take_none(
    rt: HostRuntime,
) -> Result<(), Fail> {
    let limits = Limits { fuel: 0, net: 1 };
    let report = called(rt.alloc(), "report --net 1 --fuel 0 --workers 064")?;
    assert_eq!(rt; report, Some(Command::Report(limits)));
    assert_eq!(rt; called(rt.alloc(), "check")?, Some(Command::Check));
    assert_eq!(rt; called(rt.alloc(), "core")?, Some(Command::Core));
    Ok(())
}

#[test]
fn a_number_of_lines_stands_behind_gen_and_then_at_most_the_workers(
    rt: HostRuntime,
) -> Result<(), Fail> {
    for (line, lines) in [
        ("gen 1", 1),
        ("gen 1000", 1000),
        ("gen 65536", 65_536),
        ("gen 00012", 12),
        ("gen 000000007", 7),
        ("gen 1000 --workers 1", 1000),
        ("gen 1000 --workers 8", 1000),
        ("gen 1000 --workers 64", 1000),
    ] {
        assert_eq!(rt;
            called(rt.alloc(), line)?,
            Some(Command::Generate(lines)),
            "{line}"
        );
    }
    Ok(())
}

#[test]
fn all_other_words_call_no_command(rt: HostRuntime) -> Result<(), Fail> {
    assert_eq!(rt; command_of(&[]), None);
    for line in [
        "",
        "walk",
        "Run",
        "run ",
        "run run",
        "run --workers 0",
        "run --workers 65",
        "run --net 0",
        "run --net 65537",
        "run --fuel 1 --fuel 1",
        "run --workers 1 --fuel 1 --workers 2",
        "run --fuel",
        "run --fuel 1 --net",
        "run --fuel --net 1",
        "run 1 --fuel",
        "run --fuel 0000000001",
        "run --fuel 1000000000",
        "run --fuel +1",
        "run --fuel -1",
        "run --fuel 1k",
        "run --fuel ",
        "run --fuel=1",
        "run --speed 1",
        "run -fuel 1",
        "--fuel 1 run",
        "check --fuel 1",
        "check check",
        "core --workers 1",
        "gen",
        "gen ",
        "gen 0",
        "gen 65537",
        "gen 0000000005",
        "gen +5",
        "gen -5",
        "gen five",
        "Gen 5",
        "5 gen",
        "gen 5 6",
        "gen --workers 8",
        "gen --workers 8 1000",
        "gen 5 --workers",
        "gen 5 --workers 0",
        "gen 5 --workers 65",
        "gen 5 --workers 2 --workers 2",
        "gen 5 --fuel 1",
        "gen 5 --net 1",
        "gen 5 --workers 2 --fuel 1",
    ] {
        assert_eq!(rt; called(rt.alloc(), line)?, None, "{line}");
    }
    Ok(())
}
