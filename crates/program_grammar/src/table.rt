//! The table of the reading machine: what is to come after a word, where a part of the grammar takes it.
ghost use Rattle.std.specs.Prelude.{◌≡◌, option_copied};
ghost use Rattle.program_grammar.specs.Table.{stack_after, after_bound, after_branch, after_declaration, after_items, after_kind, after_names, after_token, after_tokens, after_unit, after_units};

use crate::stack_symbols::StackSymbol;
use crate::words::Word;

/// What is to come where a declaration begins with the word.
fn after_declaration(word: Word) -> Option<&'static [StackSymbol]>
    ensures { option_copied result ≡ after_declaration word }
{
    match word {
        Word::Signal => Some(&[
            StackSymbol::DeclaredName,
            StackSymbol::MoreNames,
            StackSymbol::Declarations,
        ]),
        Word::Int => Some(&[
            StackSymbol::DeclaredIntName,
            StackSymbol::DomainIn,
            StackSymbol::LowNumber,
            StackSymbol::TheRange,
            StackSymbol::HighNumber,
            StackSymbol::MoreItems,
            StackSymbol::Declarations,
        ]),
        _ => None,
    }
}

/// What is to come where the word follows a name that `signal` declares.
fn after_names(word: Word) -> Option<&'static [StackSymbol]>
    ensures { option_copied result ≡ after_names word }
{
    match word {
        Word::Comma => Some(&[StackSymbol::DeclaredName, StackSymbol::MoreNames]),
        Word::Semicolon => Some(&[]),
        _ => None,
    }
}

/// What is to come where the word follows a domain of `int`.
fn after_items(word: Word) -> Option<&'static [StackSymbol]>
    ensures { option_copied result ≡ after_items word }
{
    match word {
        Word::Comma => Some(&[
            StackSymbol::DeclaredIntName,
            StackSymbol::DomainIn,
            StackSymbol::LowNumber,
            StackSymbol::TheRange,
            StackSymbol::HighNumber,
            StackSymbol::MoreItems,
        ]),
        Word::Semicolon => Some(&[]),
        _ => None,
    }
}

/// What is to come where a unit begins with the word.
fn after_unit(word: Word) -> Option<&'static [StackSymbol]>
    ensures { option_copied result ≡ after_unit word }
{
    match word {
        Word::Skip => Some(&[]),
        Word::Name => Some(&[
            StackSymbol::Bound,
            StackSymbol::MoreTokens,
            StackSymbol::EndTell,
        ]),
        Word::Bang => Some(&[
            StackSymbol::DeniedName,
            StackSymbol::MoreTokens,
            StackSymbol::EndTell,
        ]),
        Word::Hash => Some(&[
            StackSymbol::ClashingName,
            StackSymbol::MoreTokens,
            StackSymbol::EndTell,
        ]),
        Word::OpenBrace => Some(&[
            StackSymbol::OneUnit,
            StackSymbol::MoreUnits,
            StackSymbol::TheClose,
        ]),
        Word::If => Some(&[
            StackSymbol::OneToken,
            StackSymbol::MoreTokens,
            StackSymbol::Branch,
        ]),
        Word::Hence => Some(&[StackSymbol::OneUnit, StackSymbol::EndBody]),
        Word::New => Some(&[StackSymbol::NewKind]),
        Word::Next | Word::Always => Some(&[StackSymbol::OneUnit, StackSymbol::EndBody]),
        Word::When => Some(&[
            StackSymbol::OneToken,
            StackSymbol::MoreTokens,
            StackSymbol::TheDo,
            StackSymbol::OneUnit,
            StackSymbol::EndBody,
        ]),
        Word::Do => Some(&[
            StackSymbol::OneUnit,
            StackSymbol::MoreUnits,
            StackSymbol::TheWatching,
            StackSymbol::OneToken,
            StackSymbol::MoreTokens,
            StackSymbol::EndWatch,
        ]),
        Word::Time => Some(&[
            StackSymbol::OneUnit,
            StackSymbol::MoreUnits,
            StackSymbol::TheOn,
            StackSymbol::OneToken,
            StackSymbol::MoreTokens,
            StackSymbol::EndTimed,
        ]),
        _ => None,
    }
}

/// What is to come where the word follows a unit of an agent.
fn after_units(word: Word) -> Option<&'static [StackSymbol]>
    ensures { option_copied result ≡ after_units word }
{
    match word {
        Word::Bars => Some(&[StackSymbol::OneUnit, StackSymbol::MoreUnits]),
        _ => None,
    }
}

/// What is to come where a token begins with the word.
fn after_token(word: Word) -> Option<&'static [StackSymbol]>
    ensures { option_copied result ≡ after_token word }
{
    match word {
        Word::Name => Some(&[StackSymbol::Bound]),
        Word::Bang => Some(&[StackSymbol::DeniedName]),
        Word::Hash => Some(&[StackSymbol::ClashingName]),
        _ => None,
    }
}

/// What is to come where the word follows a token of a constraint.
fn after_tokens(word: Word) -> Option<&'static [StackSymbol]>
    ensures { option_copied result ≡ after_tokens word }
{
    match word {
        Word::Ampersand => Some(&[StackSymbol::OneToken, StackSymbol::MoreTokens]),
        _ => None,
    }
}

/// What is to come where the word follows the name that a token begins with.
fn after_bound(word: Word) -> Option<&'static [StackSymbol]>
    ensures { option_copied result ≡ after_bound word }
{
    match word {
        Word::GreaterEqual => Some(&[StackSymbol::LeastNumber]),
        Word::LessEqual => Some(&[StackSymbol::MostNumber]),
        Word::Equal => Some(&[StackSymbol::ExactNumber]),
        _ => None,
    }
}

/// What is to come where the word follows the ask of `if`.
fn after_branch(word: Word) -> Option<&'static [StackSymbol]>
    ensures { option_copied result ≡ after_branch word }
{
    match word {
        Word::Then => Some(&[StackSymbol::OneUnit, StackSymbol::EndBody]),
        Word::Else => Some(&[StackSymbol::OneUnit, StackSymbol::EndBody]),
        _ => None,
    }
}

/// What is to come where the word follows `new`.
fn after_kind(word: Word) -> Option<&'static [StackSymbol]>
    ensures { option_copied result ≡ after_kind word }
{
    match word {
        Word::Signal => Some(&[
            StackSymbol::LocalName,
            StackSymbol::TheIn,
            StackSymbol::OneUnit,
            StackSymbol::EndLocal,
        ]),
        Word::Int => Some(&[
            StackSymbol::LocalIntName,
            StackSymbol::DomainIn,
            StackSymbol::LowNumber,
            StackSymbol::TheRange,
            StackSymbol::HighNumber,
            StackSymbol::TheIn,
            StackSymbol::OneUnit,
            StackSymbol::EndLocal,
        ]),
        _ => None,
    }
}

/// What is to come after the word, where the part takes it.
pub fn parts_after(part: StackSymbol, word: Word) -> Option<&'static [StackSymbol]>
    ensures { option_copied result ≡ stack_after part word }
{
    match part {
        StackSymbol::Declarations => after_declaration(word),
        StackSymbol::MoreNames => after_names(word),
        StackSymbol::MoreItems => after_items(word),
        StackSymbol::OneUnit => after_unit(word),
        StackSymbol::MoreUnits => after_units(word),
        StackSymbol::OneToken => after_token(word),
        StackSymbol::MoreTokens => after_tokens(word),
        StackSymbol::Bound => after_bound(word),
        StackSymbol::Branch => after_branch(word),
        StackSymbol::NewKind => after_kind(word),
        StackSymbol::DeclaredName
        | StackSymbol::DeniedName
        | StackSymbol::ClashingName
        | StackSymbol::LocalName
        | StackSymbol::DeclaredIntName
        | StackSymbol::LocalIntName => match word {
            Word::Name => Some(&[]),
            _ => None,
        },
        StackSymbol::LeastNumber
        | StackSymbol::MostNumber
        | StackSymbol::ExactNumber
        | StackSymbol::LowNumber
        | StackSymbol::HighNumber => match word {
            Word::Number => Some(&[]),
            _ => None,
        },
        StackSymbol::TheIn | StackSymbol::DomainIn => match word {
            Word::In => Some(&[]),
            _ => None,
        },
        StackSymbol::TheRange => match word {
            Word::Range => Some(&[]),
            _ => None,
        },
        StackSymbol::TheDo => match word {
            Word::Do => Some(&[]),
            _ => None,
        },
        StackSymbol::TheWatching => match word {
            Word::Watching => Some(&[]),
            _ => None,
        },
        StackSymbol::TheOn => match word {
            Word::On => Some(&[]),
            _ => None,
        },
        StackSymbol::TheClose => match word {
            Word::CloseBrace => Some(&[]),
            _ => None,
        },
        StackSymbol::EndTell
        | StackSymbol::EndBody
        | StackSymbol::EndLocal
        | StackSymbol::EndWatch
        | StackSymbol::EndTimed => None,
    }
}
