//! Nets whose signals share words, with a number between them and a local signal behind.
ghost use Rattle.std.specs.Prelude.{IfOk};
ghost use Rattle.instant_net.specs.Opened.{IsNet};
ghost use Rattle.instant_net.specs.Words.{AreWords};

use super::reading::UP_TO_SEVEN;
use super::telling::{ZERO, told_by, untold_words};
use super::{SIGNAL, all, first_roots, on, over_cells, rising_levels};
use crate::{How, Net, Told, Words, open_net, open_words, put, tell, value, words_store};
use agent_core::Node;
use std::alloc::Global;
use std::test::Fail;
use token_system::{Cell, Token, Value};

pub(super) const UNTOLD: Value = Value::Signal {
    on: false,
    off: false,
};

pub(super) const ON: Value = Value::Signal {
    on: true,
    off: false,
};

const OFF: Value = Value::Signal {
    on: false,
    off: true,
};

/// So many signals, a number, so many signals more, and a local signal.
fn signals_around(alloc: Global, before: u32, after: u32) -> Result<Vec<Cell>, Fail> {
    let mut kinds = Vec::new(alloc);
    for _signal in 0..before {
        kinds.push(SIGNAL)?;
    }
    kinds.push(UP_TO_SEVEN)?;
    for _signal in 0..after {
        kinds.push(SIGNAL)?;
    }
    kinds.push(SIGNAL)?;
    Ok(kinds)
}

/// The net of `a || b || n >= 5 || new signal s in s` over these cells, where `a` and `b` are these two tokens, and the
/// number n and the local signal s have these places.
fn net_around(
    alloc: Global,
    kinds: &[Cell],
    tokens: [(u32, Token); 2],
    number: u32,
    local: u32,
) -> Result<Net, Fail> {
    let mut nodes = Vec::new(alloc);
    nodes.push(Node::Par { left: 1, right: 2 })?;
    nodes.push(Node::Tell(all(alloc, &[tokens[0]])?))?;
    nodes.push(Node::Par { left: 3, right: 4 })?;
    nodes.push(Node::Tell(all(alloc, &[tokens[1]])?))?;
    nodes.push(Node::Par { left: 5, right: 6 })?;
    nodes.push(Node::Tell(all(alloc, &[(number, Token::AtLeast(5))])?))?;
    nodes.push(Node::New {
        cell: local,
        body: 7,
    })?;
    nodes.push(Node::Tell(on(alloc, local)?))?;
    let program = over_cells(alloc, kinds, local, nodes)?;
    let levels = rising_levels(alloc, &program)?;
    let roots = first_roots(alloc, &program)?;
    match open_net(alloc, &program, &levels, &roots, 7, 4) {
        Ok(net) => Ok(net),
        Err(_) => Err(Fail::from("no net")),
    }
}

/// 33 signals: 16, the number, 16 more, and the local one. Cell 32 is signal 31, and cell 33 signal 32.
pub(super) fn net_of_33(alloc: Global, tokens: [(u32, Token); 2]) -> Result<Net, Fail> {
    let kinds = signals_around(alloc, 16, 16)?;
    net_around(alloc, kinds.as_slice(), tokens, 16, 33)
}

/// How many words the net of so many signals has, and where its local signal, the last, and its number are told.
fn told_around(
    alloc: Global,
    before: u32,
    after: u32,
    local: u32,
) -> Result<(u32, Vec<Told>, Vec<Told>), Fail> {
    let kinds = signals_around(alloc, before, after)?;
    let tokens = [(0, Token::On), (0, Token::Off)];
    let net = net_around(alloc, kinds.as_slice(), tokens, before, local)?;
    if net.leaves() != 4 {
        return Err(Fail::from("not four leaves"));
    }
    let signal = told_by(alloc, &net, 3)?;
    let number = told_by(alloc, &net, 2)?;
    Ok((net.words(), signal, number))
}

/// What is told where a signal is on whose bits begin with this one.
fn on_at(word: u32, bits: u64) -> Told {
    Told {
        word,
        how: How::Or,
        bits,
    }
}

/// What is told where a number is at least 5.
fn five_at(word: u32) -> Told {
    Told {
        word,
        how: How::Max,
        bits: ZERO + 5,
    }
}

/// The last of 31, 32, 33, 64 and 256 signals has part 30, 31, 32, 63 and 255. The number's words follow all of theirs.
#[test]
fn signals_stand_32_to_a_word_and_numbers_behind(rt: HostRuntime) -> Result<(), Fail> {
    let (words, signal, number) = told_around(rt.alloc(), 15, 15, 31)?;
    assert_eq!(rt; words, 3);
    assert_eq!(rt; signal.as_slice(), [on_at(0, 1 << 60)].as_slice());
    assert_eq!(rt; number.as_slice(), [five_at(1)].as_slice());
    let (words, signal, number) = told_around(rt.alloc(), 16, 15, 32)?;
    assert_eq!(rt; words, 3);
    assert_eq!(rt; signal.as_slice(), [on_at(0, 1 << 62)].as_slice());
    assert_eq!(rt; number.as_slice(), [five_at(1)].as_slice());
    let (words, signal, number) = told_around(rt.alloc(), 16, 16, 33)?;
    assert_eq!(rt; words, 4);
    assert_eq!(rt; signal.as_slice(), [on_at(1, 1)].as_slice());
    assert_eq!(rt; number.as_slice(), [five_at(2)].as_slice());
    let (words, signal, number) = told_around(rt.alloc(), 32, 31, 64)?;
    assert_eq!(rt; words, 4);
    assert_eq!(rt; signal.as_slice(), [on_at(1, 1 << 62)].as_slice());
    assert_eq!(rt; number.as_slice(), [five_at(2)].as_slice());
    let (words, signal, number) = told_around(rt.alloc(), 128, 127, 256)?;
    assert_eq!(rt; words, 10);
    assert_eq!(rt; signal.as_slice(), [on_at(7, 1 << 62)].as_slice());
    assert_eq!(rt; number.as_slice(), [five_at(8)].as_slice());
    Ok(())
}

/// The words of the store that the words are.
fn reopened(alloc: Global, net: &Net, words: &Words) -> Result<Words, Fail>
    requires net { IsNet net.now }
    requires words { AreWords net.now.cells words.now }
    ensures { IfOk result (AreWords net.now.cells) }
{
    let store = words_store(alloc, net, words)?;
    Ok(open_words(alloc, net, &store)?)
}

/// Signal 0 is told on, signal 31 off, and signal 32, which is local, on.
#[test]
fn the_first_the_last_and_the_next_signal_are_told_and_read(rt: HostRuntime) -> Result<(), Fail> {
    let net = net_of_33(rt.alloc(), [(0, Token::On), (32, Token::Off)])?;
    assert_eq!(rt; (net.leaves(), net.cells()), (4, 34));
    let mut words = untold_words(rt.alloc(), &net)?;
    assert_eq!(rt; words.list(), [0, 0, ZERO, ZERO + 7].as_slice());
    tell(&net, &mut words, 0);
    tell(&net, &mut words, 1);
    tell(&net, &mut words, 2);
    tell(&net, &mut words, 3);
    assert_eq!(rt;
        words.list(),
        [1 + (1 << 63), 1, ZERO + 5, ZERO + 7].as_slice()
    );
    assert_eq!(rt; value(&net, &words, 0), ON);
    assert_eq!(rt; value(&net, &words, 1), UNTOLD);
    assert_eq!(rt; value(&net, &words, 16), Value::Number { lo: 5, hi: 7 });
    assert_eq!(rt; value(&net, &words, 31), UNTOLD);
    assert_eq!(rt; value(&net, &words, 32), OFF);
    assert_eq!(rt; value(&net, &words, 33), ON);
    let again = reopened(rt.alloc(), &net, &words)?;
    assert_eq!(rt; again.list(), words.list());
    Ok(())
}

/// Word 0 is put with signal 0 off and signal 31 on, and word 1 with signal 32 off.
#[test]
fn a_put_word_is_read_by_each_of_its_signals(rt: HostRuntime) -> Result<(), Fail> {
    let net = net_of_33(rt.alloc(), [(0, Token::On), (32, Token::Off)])?;
    assert_eq!(rt; (net.leaves(), net.cells()), (4, 34));
    let mut told = untold_words(rt.alloc(), &net)?;
    tell(&net, &mut told, 0);
    tell(&net, &mut told, 1);
    tell(&net, &mut told, 3);
    let mut words = untold_words(rt.alloc(), &net)?;
    assert_eq!(rt; (words.list().len(), told.list().len()), (4, 4));
    put(&net, &mut words, 0, told.list()[0]);
    assert_eq!(rt; words.list(), [1 + (1 << 63), 0, ZERO, ZERO + 7].as_slice());
    assert_eq!(rt;
        (value(&net, &words, 0), value(&net, &words, 32)),
        (ON, OFF)
    );
    assert_eq!(rt; value(&net, &words, 33), UNTOLD);
    put(&net, &mut words, 1, told.list()[1]);
    assert_eq!(rt;
        (value(&net, &words, 0), value(&net, &words, 32)),
        (ON, OFF)
    );
    assert_eq!(rt; value(&net, &words, 33), ON);
    Ok(())
}

/// How many of the cells are signals of which nothing is told.
fn count_untold(net: &Net, words: &Words) -> u32
    requires { AreWords net.now.cells words.now }
{
    let mut count = 0u32;
    for cell in 0..net.cells() {
        if value(net, words, cell) == UNTOLD {
            count = count.wrapping_add(1);
        }
    }
    count
}

/// Signal 5 is told to be a clash, and after it signal 6 on.
#[test]
fn a_clash_leaves_the_other_signals_of_the_word(rt: HostRuntime) -> Result<(), Fail> {
    let net = net_of_33(rt.alloc(), [(5, Token::Clash), (6, Token::On)])?;
    assert_eq!(rt; (net.leaves(), net.cells()), (4, 34));
    let mut words = untold_words(rt.alloc(), &net)?;
    tell(&net, &mut words, 0);
    assert_eq!(rt; words.list(), [3 << 10, 0, ZERO, ZERO + 7].as_slice());
    assert_eq!(rt; value(&net, &words, 5), Value::Clash);
    assert_eq!(rt; count_untold(&net, &words), 32);
    tell(&net, &mut words, 1);
    assert_eq!(rt;
        (value(&net, &words, 5), value(&net, &words, 6)),
        (Value::Clash, ON)
    );
    assert_eq!(rt; count_untold(&net, &words), 31);
    Ok(())
}
