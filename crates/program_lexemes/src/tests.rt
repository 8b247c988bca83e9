//! Lexemes of short texts, worked out by hand from their forms.
use super::*;
use std::alloc::Global;
use std::test::Fail;

/// The lexemes of a short text, or the offset of its bad byte.
fn read(alloc: Global, form: TextForm, text: &[u8]) -> Result<Result<Vec<Lexeme>, u32>, Fail> {
    if text.len() > 100 {
        return Ok(Err(100));
    }
    match lexemes(alloc, form, text) {
        Ok(found) => Ok(Ok(found)),
        Err(LexFault::Bad { offset }) => Ok(Err(offset)),
        Err(LexFault::Memory) => Err(LexFault::Memory)?,
    }
}

fn lexeme(kind: LexKind, start: u32, end: u32) -> Lexeme {
    Lexeme { kind, start, end }
}

#[test]
fn each_lexeme_has_its_kind_and_place(rt: HostRuntime) -> Result<(), Fail> {
    let found = lexemes(
        rt.alloc(),
        TextForm::Program,
        b"int x in -05..9;\tif !a_1 & x>=3\r\nthen Skip",
    )?;
    let expected = [
        lexeme(LexKind::Keyword, 0, 3),
        lexeme(LexKind::Name, 4, 5),
        lexeme(LexKind::Keyword, 6, 8),
        lexeme(LexKind::Number, 9, 12),
        lexeme(LexKind::Symbol, 12, 14),
        lexeme(LexKind::Number, 14, 15),
        lexeme(LexKind::Symbol, 15, 16),
        lexeme(LexKind::Keyword, 17, 19),
        lexeme(LexKind::Symbol, 20, 21),
        lexeme(LexKind::Name, 21, 24),
        lexeme(LexKind::Symbol, 25, 26),
        lexeme(LexKind::Name, 27, 28),
        lexeme(LexKind::Symbol, 28, 30),
        lexeme(LexKind::Number, 30, 31),
        lexeme(LexKind::Keyword, 33, 37),
        lexeme(LexKind::Name, 38, 42),
    ];
    assert_eq!(rt; found.as_slice(), expected.as_slice());
    Ok(())
}

#[test]
fn the_longest_lexeme_is_taken(rt: HostRuntime) -> Result<(), Fail> {
    let texts: [(&[u8], &[u32]); 9] = [
        (b"", &[]),
        (b" \t\r\n", &[]),
        (b"signals", &[7]),
        (b"5-3", &[1, 3]),
        (b"a-1", &[1, 3]),
        (b"12ab", &[2, 4]),
        (b">==", &[2, 3]),
        (b"||||", &[2, 4]),
        (b"a:{b}", &[1, 2, 3, 4, 5]),
    ];
    for (text, ends) in texts {
        let Ok(found) = read(rt.alloc(), TextForm::Program, text)? else {
            return Err("a bad byte")?;
        };
        assert_eq!(rt; found.len(), ends.len());
        assert!(rt;
            found
                .iter()
                .zip(ends.iter())
                .all(|(lexeme, end)| lexeme.end == *end)
        );
    }
    Ok(())
}

#[test]
fn a_bad_byte_is_at_its_offset(rt: HostRuntime) -> Result<(), Fail> {
    let texts: [(&[u8], u32); 11] = [
        (b".", 0),
        (b"a | b", 2),
        (b"x<3", 1),
        (b"x>3", 1),
        (b"a - 1", 2),
        (b"skip ?", 5),
        (b"0...9", 3),
        (b"_a", 0),
        (b"a\x0bb", 1),
        (b"$1", 0),
        (b"a \xff", 2),
    ];
    for (text, offset) in texts {
        assert_eq!(rt;
            read(rt.alloc(), TextForm::Program, text)?.err(),
            Some(offset)
        );
    }
    Ok(())
}

#[test]
fn a_core_text_has_names_with_a_dollar(rt: HostRuntime) -> Result<(), Fail> {
    let found = lexemes(rt.alloc(), TextForm::Core, b"$12 $1234567890")?;
    let expected = [
        lexeme(LexKind::Name, 0, 3),
        lexeme(LexKind::Name, 4, 14),
        lexeme(LexKind::Number, 14, 15),
    ];
    assert_eq!(rt; found.as_slice(), expected.as_slice());
    assert_eq!(rt; read(rt.alloc(), TextForm::Core, b"a $b")?.err(), Some(2));
    Ok(())
}

#[test]
fn a_lexeme_says_its_bytes(rt: HostRuntime) {
    let name = Lexeme {
        kind: LexKind::Name,
        start: 2,
        end: 4,
    };
    assert_eq!(rt; lexeme_bytes(b"a&bc", &name), b"bc".as_slice());
    assert_eq!(rt; keyword_of(b"watching"), Some(Keyword::Watching));
    assert_eq!(rt; keyword_of(b"watch"), None);
    assert_eq!(rt; symbol_of(b"<="), Some(Symbol::LessEqual));
    assert_eq!(rt; symbol_of(b"<"), None);
}

#[test]
fn a_long_lexeme_is_told(rt: HostRuntime) {
    assert!(rt; !is_long(LexKind::Number, b"-123456789"));
    assert!(rt; is_long(LexKind::Number, b"0123456789"));
    assert!(rt; !is_long(LexKind::Name, b"abcdefghijklmnopqrstuvwxyz_45678"));
    assert!(rt; is_long(LexKind::Name, b"abcdefghijklmnopqrstuvwxyz_456789"));
}
