//! The order of values by what they entail, and their join.
ghost use Rattle.std.specs.Prelude.{◌≡◌, ◌↔◌, List, ◌++◌, IsTrue};
ghost use Rattle.token_system.specs.Values.{IsProper, IsValueOf, StandsFor};
ghost use Rattle.token_system.specs.Joins.{AreOfOneKind, IsBelow, number_between, signal_of, value_join, value_leq};
ghost use Rattle.token_system.specs.declared.cell.Cell.{Cell};
ghost use Rattle.token_system.specs.declared.cell.Token.{Token};

use crate::cell::Value;

/// Whether the second value entails all that the first entails.
pub fn leq(a: Value, b: Value) -> bool
    requires kinds { AreOfOneKind a b }
    requires proper_a { IsProper a }
    requires proper_b { IsProper b }
    ensures value { result ≡ value_leq a b }
    ensures as_entailed { (c : Cell) → IsValueOf c a → IsValueOf c b
        → (IsTrue result) ↔ (IsBelow c a b) }
{
    is_below(a, b)
}

/// The least value that entails all that either entails: it stands for the tokens of both.
pub fn join(a: Value, b: Value) -> Value
    requires kinds { AreOfOneKind a b }
    requires proper_a { IsProper a }
    requires proper_b { IsProper b }
    ensures value { result ≡ value_join a b }
    ensures proper { IsProper result }
    ensures tokens_of_both { (c : Cell) (ts us : List Token) → IsValueOf c a → IsValueOf c b
        → StandsFor c a ts → StandsFor c b us → StandsFor c result (ts ++ us) }
{
    with_both(a, b)
}

/// `leq`, case by case.
fn is_below(a: Value, b: Value) -> bool
    ensures { result ≡ value_leq a b }
{
    match (a, b) {
        (_, Value::Clash) => true,
        (
            Value::Signal { on, off },
            Value::Signal {
                on: b_on,
                off: b_off,
            },
        ) => { (!on || b_on) && (!off || b_off) }
        (Value::Number { lo, hi }, Value::Number { lo: b_lo, hi: b_hi }) => lo <= b_lo
            && b_hi <= hi,
        _ => false,
    }
}

/// `join`, case by case.
fn with_both(a: Value, b: Value) -> Value
    ensures value { result ≡ value_join a b }
    ensures proper { IsProper result }
{
    match (a, b) {
        (
            Value::Signal { on, off },
            Value::Signal {
                on: b_on,
                off: b_off,
            },
        ) => { signal(on || b_on, off || b_off) }
        (Value::Number { lo, hi }, Value::Number { lo: b_lo, hi: b_hi }) => {
            number(lo.max(b_lo), hi.min(b_hi))
        }
        _ => Value::Clash,
    }
}

/// A signal of which this is told.
fn signal(on: bool, off: bool) -> Value
    ensures value { result ≡ signal_of on off }
    ensures proper { IsProper result }
{
    if on && off {
        Value::Clash
    } else {
        Value::Signal { on, off }
    }
}

/// A number between these bounds.
fn number(lo: i64, hi: i64) -> Value
    ensures value { result ≡ number_between lo hi }
    ensures proper { IsProper result }
{
    if hi < lo {
        Value::Clash
    } else {
        Value::Number { lo, hi }
    }
}
