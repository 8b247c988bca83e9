//! Refusals and their places, worked out by hand from the grammar.
use super::*;
use std::alloc::Global;
use std::test::Fail;
use token_system::Token;

/// The refusal of the text.
fn refusal(alloc: Global, text: &[u8]) -> Option<ReadFault> {
    read_program(alloc, text).err()
}

#[test]
fn a_text_is_refused_at_its_first_fault(rt: HostRuntime) {
    let alloc = rt.alloc();
    assert_eq!(rt;
        refusal(alloc, b"signal a; a ? a"),
        Some(ReadFault::Lex { offset: 12 })
    );
    assert_eq!(rt;
        refusal(alloc, b"signal abcdefghijklmnopqrstuvwxyz0123456; skip"),
        Some(ReadFault::LongName { lexeme: 1 })
    );
    assert_eq!(rt;
        refusal(alloc, b"int x in -999999999..999999999; x>=1000000000"),
        Some(ReadFault::LongNumber { lexeme: 9 })
    );
    assert_eq!(rt;
        refusal(alloc, b"signal a; set"),
        Some(ReadFault::Later { lexeme: 3 })
    );
    assert_eq!(rt;
        refusal(alloc, b"signal a; if a then"),
        Some(ReadFault::Syntax { lexeme: 6 })
    );
    assert_eq!(rt;
        refusal(alloc, b"signal a, b, c; if a then b else c"),
        Some(ReadFault::Syntax { lexeme: 11 })
    );
    assert_eq!(rt; refusal(alloc, b"signal a; a || skip"), None);
}

/// A program of so many asks around a unit.
fn nested(alloc: Global, asks: usize, unit: &[u8]) -> Result<Vec<u8>, Fail> {
    let mut text = b"signal a;".to_vec(alloc)?;
    for _ in 0..asks {
        text.extend_from_slice(b" if a then ")?;
    }
    text.extend_from_slice(unit)?;
    Ok(text)
}

#[test]
fn the_lesser_lexeme_past_a_limit_decides(rt: HostRuntime) -> Result<(), Fail> {
    let alloc = rt.alloc();
    assert_eq!(rt;
        refusal(alloc, b"signal a; a & a & a & a & a & a & a & a & a"),
        Some(ReadFault::TooManyTokens { lexeme: 19 })
    );
    assert_eq!(rt;
        refusal(alloc, b"signal a; a & a & a & a & a & a & a & a & !a"),
        Some(ReadFault::TooManyTokens { lexeme: 19 })
    );
    assert_eq!(rt;
        refusal(alloc, &nested(alloc, 64, b"a")?),
        Some(ReadFault::TooDeep { lexeme: 195 })
    );
    assert_eq!(rt;
        refusal(alloc, &nested(alloc, 63, b"")?),
        Some(ReadFault::Syntax { lexeme: 192 })
    );
    Ok(())
}

#[test]
fn the_first_fault_of_names_decides(rt: HostRuntime) {
    let alloc = rt.alloc();
    assert_eq!(rt;
        refusal(alloc, b"signal a, a; skip"),
        Some(ReadFault::DoubleName { lexeme: 3 })
    );
    assert_eq!(rt;
        refusal(alloc, b"signal a; new signal a in a"),
        Some(ReadFault::DoubleName { lexeme: 5 })
    );
    assert_eq!(rt;
        refusal(alloc, b"int x in 5..4; skip"),
        Some(ReadFault::EmptyDomain { lexeme: 3 })
    );
    assert_eq!(rt;
        refusal(alloc, b"b"),
        Some(ReadFault::UnknownName { lexeme: 0 })
    );
    assert_eq!(rt;
        refusal(alloc, b"signal a; a>=3"),
        Some(ReadFault::WrongKind { lexeme: 3 })
    );
    assert_eq!(rt;
        refusal(alloc, b"int x in 0..1; x=1 & !x"),
        Some(ReadFault::WrongKind { lexeme: 12 })
    );
    assert_eq!(rt;
        refusal(alloc, b"new signal s in s || s"),
        Some(ReadFault::UnknownName { lexeme: 6 })
    );
    assert_eq!(rt;
        refusal(alloc, b"new signal s in s || new int s in 0..0 in #s"),
        None
    );
}

#[test]
fn a_par_of_three_groups_to_the_right(rt: HostRuntime) -> Result<(), Fail> {
    let read = read_program(rt.alloc(), b"signal a; a || skip || hence a")?;
    assert_eq!(rt; read.declared(), 1);
    assert_eq!(rt; read.cells().len(), 1);
    assert_eq!(rt; read.forms().len(), 6);
    assert!(rt; matches!(read.forms().get(0), Some(Form::Par { left: 1, right: 2 })));
    assert!(rt; matches!(read.forms().get(2), Some(Form::Par { left: 3, right: 4 })));
    assert!(rt; matches!(read.forms().get(4), Some(Form::Hence { body: 5 })));
    Ok(())
}

#[test]
fn an_equation_is_two_bounds(rt: HostRuntime) -> Result<(), Fail> {
    let read = read_program(
        rt.alloc(),
        b"int x in 0..10; signal a; {new int y in -1..1 in y=1 || a} || if x<=2 & #a else !a",
    )?;
    assert_eq!(rt; read.declared(), 2);
    assert_eq!(rt; read.cells().len(), 3);
    if let Some(local) = read.cells().get(2) {
        assert_eq!(rt; local.name.bytes(), b"y".as_slice());
        assert_eq!(rt; local.cell.lo, -1);
    }
    assert!(rt; matches!(read.forms().get(0), Some(Form::Par { left: 1, right: 5 })));
    assert!(rt; matches!(read.forms().get(1), Some(Form::Par { left: 2, right: 4 })));
    assert!(rt; matches!(read.forms().get(2), Some(Form::New { cell: 2, body: 3 })));
    if let Some(Form::Tell(told)) = read.forms().get(3) {
        assert_eq!(rt;
            told.list(),
            [(2, Token::AtLeast(1)), (2, Token::AtMost(1))].as_slice()
        );
    }
    if let Some(Form::Else { ask, body }) = read.forms().get(5) {
        assert_eq!(rt;
            ask.list(),
            [(0, Token::AtMost(2)), (1, Token::Clash)].as_slice()
        );
        assert_eq!(rt; *body, 6);
    }
    Ok(())
}

#[test]
fn a_derived_form_has_its_body_behind_it(rt: HostRuntime) -> Result<(), Fail> {
    let read = read_program(
        rt.alloc(),
        b"signal a, b; do always a || next a watching b || time when a do b on b",
    )?;
    assert_eq!(rt; read.forms().len(), 10);
    assert!(rt; matches!(read.forms().get(0), Some(Form::Par { left: 1, right: 7 })));
    assert!(rt; matches!(read.forms().get(1), Some(Form::Watch { body: 2, .. })));
    assert!(rt; matches!(read.forms().get(2), Some(Form::Par { left: 3, right: 5 })));
    assert!(rt; matches!(read.forms().get(3), Some(Form::Always { body: 4 })));
    assert!(rt; matches!(read.forms().get(7), Some(Form::Time { body: 8, .. })));
    assert!(rt; matches!(read.forms().get(8), Some(Form::When { body: 9, .. })));
    Ok(())
}

/// The refusal of the core text.
fn core_refusal(alloc: Global, text: &[u8]) -> Option<ReadFault> {
    read_text(alloc, Dialect::Core, text).err()
}

#[test]
fn a_core_text_has_core_forms_alone(rt: HostRuntime) {
    let alloc = rt.alloc();
    assert_eq!(rt;
        core_refusal(alloc, b"new signal $1 in { $1 || hence $1 }"),
        None
    );
    assert_eq!(rt;
        refusal(alloc, b"new signal $1 in { $1 || hence $1 }"),
        Some(ReadFault::Lex { offset: 11 })
    );
    assert_eq!(rt;
        core_refusal(alloc, b"signal a; always a"),
        Some(ReadFault::Syntax { lexeme: 3 })
    );
    assert_eq!(rt; refusal(alloc, b"signal a; always a"), None);
    assert_eq!(rt;
        core_refusal(alloc, b"signal a; set"),
        Some(ReadFault::Later { lexeme: 3 })
    );
}

#[test]
fn too_many_cells_are_told_last(rt: HostRuntime) -> Result<(), Fail> {
    let alloc = rt.alloc();
    let mut text = Vec::new(alloc);
    text.extend_from_slice(b"signal z")?;
    for first in b'a'..=b'p' {
        for second in b'a'..=b'p' {
            text.extend_from_slice(b", x")?;
            text.push(first)?;
            text.push(second)?;
        }
    }
    text.extend_from_slice(b"; z")?;
    assert_eq!(rt; refusal(alloc, &text), Some(ReadFault::TooManyDeclared));
    text.push(b'z')?;
    assert_eq!(rt;
        refusal(alloc, &text),
        Some(ReadFault::UnknownName { lexeme: 515 })
    );
    Ok(())
}
