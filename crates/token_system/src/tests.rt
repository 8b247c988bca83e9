//! Worked examples of what tokens entail, and of what a store keeps.
ghost use Rattle.std.specs.Prelude.{IsTrue};
ghost use Rattle.token_system.specs.Joins.{AreOfOneKind};
ghost use Rattle.token_system.specs.Stores.{CanHold};
ghost use Rattle.token_system.specs.Values.{IsProper, OfOneKind};

use super::*;
use std::alloc::Global;
use std::process::Abort;
use std::test::Fail;

const SIGNAL: Cell = Cell {
    kind: Kind::Signal,
    lo: 0,
    hi: 0,
};

const ZERO_TO_TEN: Cell = Cell {
    kind: Kind::Number,
    lo: 0,
    hi: 10,
};

const WIDEST: Cell = Cell {
    kind: Kind::Number,
    lo: -999_999_999,
    hi: 999_999_999,
};

fn takes(value: Value, token: Token) -> bool
    ensures kinds { IsTrue result → OfOneKind value token }
    ensures proper { IsTrue result → IsProper value }
{
    match value {
        Value::Clash => true,
        Value::Signal { on, off } => match token {
            Token::AtLeast(_) => false,
            Token::AtMost(_) => false,
            _ => !(on && off),
        },
        Value::Number { lo, hi } => match token {
            Token::On => false,
            Token::Off => false,
            _ => lo <= hi,
        },
    }
}

fn can_hold(store: &Store, name: &CellName, cell: Cell, token: Token) -> bool
    ensures { IsTrue result → CanHold store.now name.now cell token }
{
    let value = match store.get(name) {
        Some(value) => value,
        None => bottom(cell),
    };
    fits(cell, token) && takes(value, token)
}

fn told(
    rt: &impl Abort,
    store: &mut Store,
    name: CellName,
    cell: Cell,
    tokens: &[Token],
) -> Result<(), Fail> {
    for token in tokens {
        assert!(rt; can_hold(store, &name, cell, *token));
        store.tell(name.copy()?, cell, *token)?;
    }
    Ok(())
}

fn shown(rt: &impl Abort, store: &Store, name: &CellName, cell: Cell, token: Token) -> bool {
    assert!(rt; can_hold(store, name, cell, token));
    store.entails(name, cell, token)
}

fn sum(rt: &impl Abort, cell: Cell, tokens: &[Token]) -> Value {
    let mut value = bottom(cell);
    for token in tokens {
        assert!(rt; takes(value, *token));
        value = add(value, *token);
    }
    value
}

fn local(alloc: Global, node: u32, births: &[u32]) -> Result<CellName, Fail> {
    let mut list = Vec::new(alloc);
    list.extend_from_slice(births)?;
    Ok(CellName::Local {
        node,
        births: Births::make(list),
    })
}

#[test]
fn a_token_fits_the_cells_of_its_kind(rt: HostRuntime) {
    for (cell, token, want) in [
        (SIGNAL, Token::On, true),
        (SIGNAL, Token::Off, true),
        (SIGNAL, Token::AtLeast(0), false),
        (SIGNAL, Token::Clash, true),
        (ZERO_TO_TEN, Token::On, false),
        (ZERO_TO_TEN, Token::AtMost(-999_999_999), true),
        (ZERO_TO_TEN, Token::AtMost(-1_000_000_000), false),
        (ZERO_TO_TEN, Token::AtLeast(999_999_999), true),
        (ZERO_TO_TEN, Token::AtLeast(1_000_000_000), false),
        (ZERO_TO_TEN, Token::Clash, true),
    ] {
        assert_eq!(rt; fits(cell, token), want, "{token:?} at {cell:?}");
    }
}

#[test]
fn tokens_sum_up_to_a_value(rt: HostRuntime) {
    for (cell, tokens, want) in [
        (
            SIGNAL,
            [Token::On, Token::On],
            Value::Signal {
                on: true,
                off: false,
            },
        ),
        (SIGNAL, [Token::On, Token::Off], Value::Clash),
        (
            ZERO_TO_TEN,
            [Token::AtLeast(0), Token::AtMost(10)],
            Value::Number { lo: 0, hi: 10 },
        ),
        (
            ZERO_TO_TEN,
            [Token::AtLeast(5), Token::AtMost(5)],
            Value::Number { lo: 5, hi: 5 },
        ),
        (
            ZERO_TO_TEN,
            [Token::AtLeast(-3), Token::AtLeast(10)],
            Value::Number { lo: 10, hi: 10 },
        ),
        (
            ZERO_TO_TEN,
            [Token::AtLeast(11), Token::AtMost(3)],
            Value::Clash,
        ),
        (
            ZERO_TO_TEN,
            [Token::AtMost(6), Token::AtLeast(7)],
            Value::Clash,
        ),
        (
            WIDEST,
            [Token::AtMost(-999_999_999), Token::AtMost(2)],
            Value::Number {
                lo: -999_999_999,
                hi: -999_999_999,
            },
        ),
    ] {
        assert_eq!(rt;
            sum(&rt, cell, tokens.as_slice()),
            want,
            "{tokens:?} at {cell:?}"
        );
    }
}

#[test]
fn a_value_entails_what_its_tokens_do(rt: HostRuntime) {
    let five = sum(
        &rt,
        ZERO_TO_TEN,
        [Token::AtLeast(5), Token::AtMost(5)].as_slice(),
    );
    for (value, token, want) in [
        (bottom(ZERO_TO_TEN), Token::AtLeast(0), true),
        (bottom(ZERO_TO_TEN), Token::AtLeast(1), false),
        (bottom(ZERO_TO_TEN), Token::AtMost(10), true),
        (bottom(ZERO_TO_TEN), Token::AtMost(9), false),
        (bottom(ZERO_TO_TEN), Token::Clash, false),
        (five, Token::AtLeast(5), true),
        (five, Token::AtMost(7), true),
        (five, Token::AtLeast(6), false),
        (bottom(SIGNAL), Token::Off, false),
        (
            Value::Signal {
                on: true,
                off: false,
            },
            Token::On,
            true,
        ),
        (Value::Clash, Token::Off, true),
    ] {
        assert!(rt; takes(value, token));
        assert_eq!(rt; entails(value, token), want, "{token:?} at {value:?}");
    }
}

#[test]
fn a_clash_is_of_one_cell_alone(rt: HostRuntime) -> Result<(), Fail> {
    let mut store = Store::new(rt.alloc());
    told(
        &rt,
        &mut store,
        CellName::Declared(0),
        SIGNAL,
        [Token::On].as_slice(),
    )?;
    told(
        &rt,
        &mut store,
        CellName::Declared(1),
        ZERO_TO_TEN,
        [Token::AtLeast(11)].as_slice(),
    )?;
    for (number, cell, token, want) in [
        (1, ZERO_TO_TEN, Token::Clash, true),
        (1, ZERO_TO_TEN, Token::AtMost(-5), true),
        (0, SIGNAL, Token::On, true),
        (0, SIGNAL, Token::Off, false),
        (0, SIGNAL, Token::Clash, false),
        (2, ZERO_TO_TEN, Token::AtLeast(1), false),
    ] {
        let name = CellName::Declared(number);
        assert_eq!(rt;
            shown(&rt, &store, &name, cell, token),
            want,
            "{token:?} of {number}"
        );
    }
    Ok(())
}

#[test]
fn a_store_keeps_names_in_order_and_no_bottom(rt: HostRuntime) -> Result<(), Fail> {
    let mut store = Store::new(rt.alloc());
    assert!(rt; store.is_empty());
    for name in [
        local(rt.alloc(), 7, [2].as_slice())?,
        CellName::Declared(3),
        local(rt.alloc(), 7, [1, 5].as_slice())?,
        local(rt.alloc(), 4, [9].as_slice())?,
        CellName::Declared(1),
        local(rt.alloc(), 7, [1].as_slice())?,
    ] {
        told(&rt, &mut store, name, SIGNAL, [Token::On].as_slice())?;
    }
    told(
        &rt,
        &mut store,
        CellName::Declared(2),
        ZERO_TO_TEN,
        [Token::AtLeast(0), Token::AtMost(11)].as_slice(),
    )?;
    let wanted = [
        CellName::Declared(1),
        CellName::Declared(3),
        local(rt.alloc(), 4, [9].as_slice())?,
        local(rt.alloc(), 7, [1].as_slice())?,
        local(rt.alloc(), 7, [1, 5].as_slice())?,
        local(rt.alloc(), 7, [2].as_slice())?,
    ];
    assert_eq!(rt; store.len(), 6);
    let copy = store.copy()?;
    assert_eq!(rt; copy.len(), 6);
    for (place, name) in wanted.iter().enumerate() {
        assert!(rt; place < store.len());
        assert_eq!(rt; store.name_at(place), name, "at {place}");
        assert_eq!(rt;
            copy.get(name),
            Some(Value::Signal {
                on: true,
                off: false
            }),
            "at {place}"
        );
    }
    Ok(())
}

#[test]
fn the_value_at_a_place_is_that_of_the_name_there(rt: HostRuntime) -> Result<(), Fail> {
    let mut store = Store::new(rt.alloc());
    for (number, cell, token) in [
        (5, SIGNAL, Token::Clash),
        (2, ZERO_TO_TEN, Token::AtLeast(3)),
        (2, ZERO_TO_TEN, Token::AtMost(4)),
    ] {
        let name = CellName::Declared(number);
        told(&rt, &mut store, name, cell, [token].as_slice())?;
    }
    for (place, value) in [(0, Value::Number { lo: 3, hi: 4 }), (1, Value::Clash)] {
        assert!(rt; place < store.len());
        assert_eq!(rt; store.kept_at(place), value, "at {place}");
    }
    Ok(())
}

#[test]
fn values_join_to_what_either_says(rt: HostRuntime) {
    for (a, b, joined, below) in [
        (
            Value::Number { lo: 2, hi: 10 },
            Value::Number { lo: 0, hi: 9 },
            Value::Number { lo: 2, hi: 9 },
            false,
        ),
        (
            Value::Number { lo: 0, hi: 9 },
            Value::Number { lo: 3, hi: 3 },
            Value::Number { lo: 3, hi: 3 },
            true,
        ),
        (
            Value::Number { lo: 0, hi: 1 },
            Value::Number { lo: 2, hi: 3 },
            Value::Clash,
            false,
        ),
        (
            Value::Signal {
                on: true,
                off: false,
            },
            Value::Signal {
                on: false,
                off: true,
            },
            Value::Clash,
            false,
        ),
        (
            Value::Signal {
                on: false,
                off: false,
            },
            Value::Signal {
                on: false,
                off: true,
            },
            Value::Signal {
                on: false,
                off: true,
            },
            true,
        ),
        (
            Value::Clash,
            Value::Number { lo: 2, hi: 3 },
            Value::Clash,
            false,
        ),
    ] {
        assert!(rt; meet(a, b));
        assert_eq!(rt; join(a, b), joined, "{a:?} and {b:?}");
        assert_eq!(rt; leq(a, b), below, "{a:?} and {b:?}");
    }
}

#[test]
fn an_empty_store_is_below_each_and_adds_nothing(rt: HostRuntime) -> Result<(), Fail> {
    let mut store = Store::new(rt.alloc());
    let name = CellName::Declared(3);
    told(
        &rt,
        &mut store,
        name.copy()?,
        ZERO_TO_TEN,
        [Token::AtLeast(4)].as_slice(),
    )?;
    let empty = Store::new(rt.alloc());
    assert!(rt; empty.leq(&store));
    let both = empty.joined(&store)?;
    assert_eq!(rt; both.get(&name), Some(Value::Number { lo: 4, hi: 10 }));
    assert_eq!(rt; both.len(), 1);
    Ok(())
}

fn meet(a: Value, b: Value) -> bool
    ensures { IsTrue result → AreOfOneKind a b }
{
    match (a, b) {
        (
            Value::Signal { on, off },
            Value::Signal {
                on: b_on,
                off: b_off,
            },
        ) => { !(on && off) && !(b_on && b_off) }
        (Value::Number { lo, hi }, Value::Number { lo: b_lo, hi: b_hi }) => lo <= hi
            && b_lo <= b_hi,
        (Value::Clash, Value::Number { lo, hi }) => lo <= hi,
        _ => false,
    }
}
