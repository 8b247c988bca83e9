//! Writing the units of generated programs.
ghost use Rattle.std.specs.Prelude.{◌≡◌, ◌++◌, ◌<◌, decimal, OnOk};
ghost use Rattle.trace_text.specs.Draws.{draw_after};
ghost use Rattle.trace_text.specs.Generated.{bound_text, drawn_form, form_text, rule_text, signal_name};

use crate::draws::Draws;
use itoa::Buffer;
use token_system::Memory;

/// How many signals a program has.
pub(crate) const SIGNALS: u32 = 32;

/// How many numbers a program has.
pub(crate) const NUMBERS: u32 = 8;

/// How a unit tells a signal by another.
#[derive(Clone, Copy, Debug, PartialEq, Eq)]
enum Form {
    /// Where the other holds.
    Then,
    /// Where the other does not hold.
    Else,
    /// At the instant after one at which the other holds.
    Next,
    /// From the first instant on at which the other holds.
    When,
    /// Where the other does not hold, until a third one does.
    Watch,
}

/// The form with this number.
fn numbered_form(number: u32) -> Form
    ensures { result ≡ drawn_form number }
{
    match number {
        0 => Form::Then,
        1 => Form::Else,
        2 => Form::Next,
        3 => Form::When,
        _ => Form::Watch,
    }
}

/// Appends the words and the number.
pub(crate) fn write_numbered(words: &[u8], number: u32, into: &mut Vec<u8>) -> Result<(), Memory>
    ensures { OnOk result (into.new.items ≡ into.old.items ++ (words.now ++ decimal number)) }
{
    let mut digits = Buffer::new();
    into.extend_from_slice(words)?;
    into.extend_from_slice(digits.format(number).as_bytes())?;
    Ok(())
}

/// Appends the words and the name of the signal.
pub(crate) fn write_signal(words: &[u8], signal: u32, into: &mut Vec<u8>) -> Result<(), Memory>
    ensures { OnOk result (into.new.items ≡ into.old.items ++ (words.now ++ signal_name signal)) }
{
    into.extend_from_slice(words)?;
    write_numbered(b"s", signal, into)
}

/// Appends two signals, each behind its words.
fn write_pair(
    before: &[u8],
    guard: u32,
    between: &[u8],
    told: u32,
    into: &mut Vec<u8>,
) -> Result<(), Memory>
    ensures { OnOk result (into.new.items
        ≡ into.old.items ++ (before.now ++ signal_name guard ++ between.now ++ signal_name told)) }
{
    write_signal(before, guard, into)?;
    write_signal(between, told, into)
}

/// Appends the unit of this form.
fn write_form(
    form: Form,
    guard: u32,
    told: u32,
    stop: u32,
    into: &mut Vec<u8>,
) -> Result<(), Memory>
    ensures { OnOk result (into.new.items ≡ into.old.items ++ form_text form guard told stop) }
{
    match form {
        Form::Then => write_pair(b"always if ", guard, b" then ", told, into),
        Form::Else => write_pair(b"always if ", guard, b" else ", told, into),
        Form::Next => write_pair(b"always if ", guard, b" then next ", told, into),
        Form::When => write_pair(b"when ", guard, b" do always ", told, into),
        Form::Watch => {
            write_pair(b"do always if ", guard, b" else ", told, into)?;
            write_signal(b" watching ", stop, into)
        }
    }
}

/// Appends the rule for this signal, by three draws.
pub(crate) fn write_rule(draws: &mut Draws, told: u32, into: &mut Vec<u8>) -> Result<(), Memory>
    requires { 0 < told }
    ensures text { OnOk result (into.new.items ≡ into.old.items ++ rule_text draws.old.last told) }
    ensures draws { OnOk result (draws.new.last ≡ draw_after draws.old.last 3) }
{
    let guard = draws.draw(told);
    let form = numbered_form(draws.draw(5));
    let stop = draws.draw(told);
    write_form(form, guard, told, stop, into)
}

/// Appends the bound of this number, by two draws.
pub(crate) fn write_bound(draws: &mut Draws, number: u32, into: &mut Vec<u8>) -> Result<(), Memory>
    ensures text { OnOk result (into.new.items ≡ into.old.items ++ bound_text draws.old.last number) }
    ensures draws { OnOk result (draws.new.last ≡ draw_after draws.old.last 2) }
{
    let guard = draws.draw(SIGNALS);
    let bound = draws.draw(100);
    write_signal(b"always if ", guard, into)?;
    write_numbered(b" then n", number, into)?;
    write_numbered(b">=", bound, into)
}
