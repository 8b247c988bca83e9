//! Numbers: digits, or a minus and digits.
ghost use Rattle.std.specs.Prelude.{◌≡◌, ◌≤◌, ◌<◌, ◌^◌, length, nat_abs, true, IfSome};
ghost use Rattle.std.specs.List.{list_all};
ghost use Rattle.std.specs.Str.Parse.{digits_value};
ghost use Rattle.names_and_numbers.specs.Limits.{most_digits};
ghost use Rattle.names_and_numbers.specs.Names.{is_digit};
ghost use Rattle.names_and_numbers.specs.Numbers.{are_digits, are_few_digits, digits_of, is_number_text, natural_of_text, value_of_number, number_of_text};

use crate::letters::is_digit;
use crate::limits::MOST_DIGITS;

/// The digits of a number: its bytes without a minus in front.
pub fn digits_of(number: &[u8]) -> &[u8]
    ensures { result.now ≡ digits_of number.now }
{
    match number.split_first() {
        Some((b'-', digits)) => digits,
        _ => number,
    }
}

/// The number that at most nine digits write.
fn digits_value(digits: &[u8]) -> u32
    requires all { are_digits digits.now ≡ true }
    requires few { length digits.now ≤ most_digits }
    ensures value { result ≡ digits_value 10 digits.now }
    ensures bound { result < 10 ^ 9 }
{
    let mut value = 0;
    for digit in digits {
        value = value * 10 + u32::from(*digit - b'0');
    }
    value
}

/// The value of a number of at most [`MOST_DIGITS`] digits.
pub fn number_value(bytes: &[u8]) -> i64
    requires number { is_number_text bytes.now ≡ true }
    requires short { length (digits_of bytes.now) ≤ most_digits }
    ensures value { result ≡ value_of_number bytes.now }
    ensures bound { nat_abs result < 10 ^ 9 }
{
    let value = i64::from(digits_value(digits_of(bytes)));
    if bytes.first() == Some(&b'-') {
        -value
    } else {
        value
    }
}

/// Whether each byte is a digit.
fn are_all_digits(bytes: &[u8]) -> bool
    ensures { result ≡ list_all is_digit bytes.now }
{
    bytes.iter().all(|byte| is_digit(*byte))
}

/// Whether the bytes are digits, one at least and nine at most.
fn are_few_digits(bytes: &[u8]) -> bool
    ensures { result ≡ are_few_digits bytes.now }
{
    !bytes.is_empty() && are_all_digits(bytes) && bytes.len() <= MOST_DIGITS
}

/// The number that the bytes write, if they are one to [`MOST_DIGITS`] digits, or a minus and such digits.
pub fn read_number(bytes: &[u8]) -> Option<i64>
    ensures { result ≡ number_of_text bytes.now }
{
    if are_few_digits(digits_of(bytes)) {
        Some(number_value(bytes))
    } else {
        None
    }
}

/// The number that the bytes write, if they are one to [`MOST_DIGITS`] digits.
pub fn read_natural(bytes: &[u8]) -> Option<u32>
    ensures value { result ≡ natural_of_text bytes.now }
    ensures bound { IfSome result (λ n. n < 10 ^ 9) }
{
    if are_few_digits(bytes) {
        Some(digits_value(bytes))
    } else {
        None
    }
}
