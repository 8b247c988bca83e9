//! Generating a program and a trace from a number.
ghost use Rattle.std.specs.Prelude.{◌≡◌, ◌+◌, ◌++◌, ◌∷◌, [], codes, flat_map, IfOk, OnOk};
ghost use Rattle.trace_text.specs.Draws.{draw_after, drawn};
ghost use Rattle.trace_text.specs.Generated.{bounds, joined_by, line_text, lines_after, numbers_text, program_text, rules, signals_text, trace_text};
ghost use Rattle.trace_text.specs.Writing.{before, separated};

use crate::draws::Draws;
use crate::units::{NUMBERS, SIGNALS, write_bound, write_numbered, write_rule, write_signal};
use std::alloc::Global;
use token_system::Memory;

#[cfg(test)]
mod tests;

/// Appends the separator that stands before the element at this place: none before the first.
fn write_separator(place: u32, separator: &[u8], into: &mut Vec<u8>) -> Result<(), Memory>
    ensures { OnOk result (into.new.items ≡ into.old.items ++ before place separator.now) }
{
    if place > 0 {
        into.extend_from_slice(separator)?;
    }
    Ok(())
}

/// Appends the declaration of the signals.
fn write_signals(into: &mut Vec<u8>) -> Result<(), Memory>
    ensures { OnOk result (into.new.items ≡ into.old.items ++ signals_text 32) }
{
    into.extend_from_slice(b"signal ")?;
    for number in 0..SIGNALS {
        write_separator(number, b", ", into)?;
        write_signal(b"", number, into)?;
    }
    into.extend_from_slice(b"; ")?;
    Ok(())
}

/// Appends the declaration of the numbers.
fn write_numbers(into: &mut Vec<u8>) -> Result<(), Memory>
    ensures { OnOk result (into.new.items ≡ into.old.items ++ numbers_text 8) }
{
    into.extend_from_slice(b"int ")?;
    for number in 0..NUMBERS {
        write_separator(number, b", ", into)?;
        write_numbered(b"n", number, into)?;
        into.extend_from_slice(b" in 0..99")?;
    }
    into.extend_from_slice(b"; ")?;
    Ok(())
}

/// Appends the rules.
fn write_rules(draws: &mut Draws, into: &mut Vec<u8>) -> Result<(), Memory>
    ensures text { OnOk result (into.new.items ≡ into.old.items ++ joined_by (codes " || ") (rules draws.old.last 31)) }
    ensures draws { OnOk result (draws.new.last ≡ draw_after draws.old.last 93) }
{
    for told in 1..SIGNALS {
        write_separator(told - 1, b" || ", into)?;
        write_rule(draws, told, into)?;
    }
    Ok(())
}

/// Appends the bounds, each behind a separator.
fn write_bounds(draws: &mut Draws, into: &mut Vec<u8>) -> Result<(), Memory>
    ensures text { OnOk result (into.new.items ≡ into.old.items ++ separated (codes " || ") (bounds draws.old.last 8)) }
    ensures draws { OnOk result (draws.new.last ≡ draw_after draws.old.last 16) }
{
    for number in 0..NUMBERS {
        into.extend_from_slice(b" || ")?;
        write_bound(draws, number, into)?;
    }
    Ok(())
}

/// Appends the program.
fn write_program(draws: &mut Draws, into: &mut Vec<u8>) -> Result<(), Memory>
    ensures text { OnOk result (into.new.items ≡ into.old.items ++ program_text draws.old.last) }
    ensures draws { OnOk result (draws.new.last ≡ draw_after draws.old.last 109) }
{
    write_signals(into)?;
    write_numbers(into)?;
    write_rules(draws, into)?;
    write_bounds(draws, into)
}

/// Appends a line of the trace, with its line feed.
fn write_line(draws: &mut Draws, into: &mut Vec<u8>) -> Result<(), Memory>
    ensures text { OnOk result (into.new.items ≡ into.old.items ++ (line_text draws.old.last ++ codes "\n")) }
    ensures draws { OnOk result (draws.new.last ≡ draw_after draws.old.last (1 + drawn draws.old.last 0 4)) }
{
    let count = draws.draw(4);
    for place in 0..count {
        write_separator(place, b" ", into)?;
        let signal = draws.draw(SIGNALS);
        write_signal(b"", signal, into)?;
    }
    into.push(b'\n')?;
    Ok(())
}

/// Appends so many lines of the trace.
fn write_lines(draws: &mut Draws, count: u32, into: &mut Vec<u8>) -> Result<(), Memory>
    ensures { OnOk result (into.new.items
        ≡ into.old.items ++ flat_map (λ line. line ++ codes "\n") (lines_after draws.old.last count)) }
{
    for _ in 0..count {
        write_line(draws, into)?;
    }
    Ok(())
}

/// Generates the text of a program and the lines of a trace, as many as the number says. The draws
/// of the trace follow those of the program. The text has no line feed, and each line ends with one.
pub fn generate(alloc: Global, n: u32) -> Result<(Vec<u8>, Vec<u8>), Memory>
    ensures program { IfOk result (λ pair. pair.0.items ≡ program_text n) }
    ensures trace { IfOk result (λ pair. pair.1.items ≡ trace_text n) }
{
    let mut draws = Draws::new(n);
    let mut program = Vec::new(alloc);
    write_program(&mut draws, &mut program)?;
    let mut trace = Vec::new(alloc);
    write_lines(&mut draws, n, &mut trace)?;
    Ok((program, trace))
}
