//! Places of faults and steps, worked out by hand from the grammar.
use super::Word::{
    Always, Ampersand, Bang, Bars, CloseBrace, Colon, Comma, Do, Else, Equal, GreaterEqual, Hash,
    Hence, If, In, Int, LessEqual, Name, New, Next, Number, On, OpenBrace, Range, Semicolon, Set,
    Signal, Skip, Then, Time, Watching, When,
};
use super::*;
use std::alloc::Global;
use std::test::Fail;

/// The place of the fault, or none where the words are a program.
fn fault(alloc: Global, language: Language, words: &[Word]) -> Result<Option<u32>, ParseFault> {
    if words.len() > 100 {
        return Ok(None);
    }
    match parse(alloc, language, words) {
        Ok(_) => Ok(None),
        Err(ParseFault::Syntax { place }) => Ok(Some(place)),
        Err(ParseFault::Memory) => Err(ParseFault::Memory),
    }
}

#[test]
fn a_par_of_three_is_read_from_left_to_right(rt: HostRuntime) -> Result<(), Fail> {
    let steps = parse(rt.alloc(), Language::Core, &[Skip, Bars, Name, Bars, Skip])?;
    let expected = [
        Step::Skipped(StackSymbol::Declarations),
        Step::Matched(StackSymbol::OneUnit, 0),
        Step::Matched(StackSymbol::MoreUnits, 1),
        Step::Matched(StackSymbol::OneUnit, 2),
        Step::Skipped(StackSymbol::Bound),
        Step::Skipped(StackSymbol::MoreTokens),
        Step::Skipped(StackSymbol::EndTell),
        Step::Matched(StackSymbol::MoreUnits, 3),
        Step::Matched(StackSymbol::OneUnit, 4),
        Step::Skipped(StackSymbol::MoreUnits),
    ];
    assert_eq!(rt; steps.as_slice(), expected.as_slice());
    Ok(())
}

#[test]
fn each_form_is_a_program(rt: HostRuntime) -> Result<(), Fail> {
    let core: [&[Word]; 9] = [
        &[Skip],
        &[Name, Ampersand, Bang, Name, Ampersand, Hash, Name],
        &[
            Name,
            GreaterEqual,
            Number,
            Ampersand,
            Name,
            LessEqual,
            Number,
            Ampersand,
            Name,
            Equal,
            Number,
        ],
        &[OpenBrace, Skip, Bars, Skip, CloseBrace, Bars, Skip],
        &[If, Name, Then, Skip, Bars, If, Name, Else, Skip],
        &[New, Signal, Name, In, Hence, Name],
        &[New, Int, Name, In, Number, Range, Number, In, Next, Name],
        &[
            Signal, Name, Comma, Name, Semicolon, Signal, Name, Semicolon, Skip,
        ],
        &[
            Int, Name, In, Number, Range, Number, Comma, Name, In, Number, Range, Number,
            Semicolon, Skip,
        ],
    ];
    for words in core {
        assert_eq!(rt; fault(rt.alloc(), Language::Whole, words)?, None);
        assert_eq!(rt; fault(rt.alloc(), Language::Core, words)?, None);
    }
    Ok(())
}

#[test]
fn a_derived_form_is_of_the_whole_language_alone(rt: HostRuntime) -> Result<(), Fail> {
    let derived: [&[Word]; 4] = [
        &[Always, Name],
        &[When, Name, Do, Skip],
        &[Do, Skip, Bars, Name, Watching, Name, Ampersand, Name],
        &[Time, Skip, On, Name],
    ];
    for words in derived {
        assert_eq!(rt; fault(rt.alloc(), Language::Whole, words)?, None);
        assert_eq!(rt; fault(rt.alloc(), Language::Core, words)?, Some(0));
    }
    assert_eq!(rt;
        fault(
            rt.alloc(),
            Language::Core,
            &[Name, Bars, Next, Always, Name]
        )?,
        Some(3)
    );
    Ok(())
}

#[test]
fn a_fault_is_at_the_end_of_the_longest_beginning(rt: HostRuntime) -> Result<(), Fail> {
    let faults: [(&[Word], u32); 16] = [
        (&[], 0),
        (&[Signal, Name, Semicolon], 3),
        (&[Signal, Semicolon, Skip], 1),
        (&[Name, Name], 1),
        (&[Name, Bars], 2),
        (&[Bars, Name], 0),
        (&[Name, Ampersand, Ampersand, Name], 2),
        (&[Name, Equal, Name], 2),
        (&[If, Name, Do, Skip], 2),
        (&[OpenBrace, Skip, Bars, Skip], 4),
        (&[Skip, CloseBrace], 1),
        (&[New, Signal, Name, Skip], 3),
        (&[Int, Name, In, Number, Number], 4),
        (&[Do, Name, Bars, Name], 4),
        (&[Skip, Semicolon, Signal, Name, Semicolon], 1),
        (&[Signal, Name, Semicolon, Set, Colon], 3),
    ];
    for (words, place) in faults {
        assert_eq!(rt; fault(rt.alloc(), Language::Whole, words)?, Some(place));
    }
    Ok(())
}
