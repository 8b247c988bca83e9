//! Names and numbers, worked out by hand.
use super::*;

#[test]
fn a_name_is_a_letter_and_then_word_bytes(rt: HostRuntime) {
    for name in [
        b"s".as_slice(),
        b"Z_1".as_slice(),
        b"if".as_slice(),
        b"a2345678901234567890123456789_12".as_slice(),
    ] {
        assert!(rt; is_name(name), "{name:?}");
        assert_eq!(rt; word_len(name), name.len());
    }
    for bytes in [
        b"".as_slice(),
        b"1x".as_slice(),
        b"_x".as_slice(),
        b"a b".as_slice(),
        b"$1".as_slice(),
        b"a2345678901234567890123456789_123".as_slice(),
    ] {
        assert!(rt; !is_name(bytes), "{bytes:?}");
    }
}

#[test]
fn a_number_has_its_value(rt: HostRuntime) {
    for (bytes, value) in [
        (b"-0".as_slice(), 0),
        (b"007".as_slice(), 7),
        (b"-12".as_slice(), -12),
        (b"999999999".as_slice(), 999_999_999),
        (b"-999999999".as_slice(), -999_999_999),
    ] {
        assert_eq!(rt; read_number(bytes), Some(value), "{bytes:?}");
    }
    for bytes in [
        b"".as_slice(),
        b"-".as_slice(),
        b"+2".as_slice(),
        b"2a".as_slice(),
        b"--1".as_slice(),
        b"1000000000".as_slice(),
        b"0000000000".as_slice(),
    ] {
        assert_eq!(rt; read_number(bytes), None, "{bytes:?}");
    }
}

#[test]
fn a_number_of_digits_alone_has_no_sign(rt: HostRuntime) {
    for (bytes, value) in [
        (b"0".as_slice(), Some(0)),
        (b"007".as_slice(), Some(7)),
        (b"999999999".as_slice(), Some(999_999_999)),
        (b"".as_slice(), None),
        (b"-0".as_slice(), None),
        (b"1000000000".as_slice(), None),
    ] {
        assert_eq!(rt; read_natural(bytes), value, "{bytes:?}");
    }
}
