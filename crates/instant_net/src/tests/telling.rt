//! What words become, and what they say.
ghost use Rattle.std.specs.Prelude.{◌<◌, IfOk, length};
ghost use Rattle.instant_net.specs.Words.{AreWords};

use super::reading::net_of_each_kind;
use crate::{
    How, Net, Told, Words, holds, open_words, put, reaches, runs, tell, value, words_store,
};
use std::alloc::Global;
use std::test::Fail;
use token_system::{Births, CellName, Store, Value};

/// What stands for the bound 0 in a word of a number.
pub(super) const ZERO: u64 = 2_147_483_648;

/// What is told to the lower bound of a number that clashes.
const CLASH: u64 = 4_294_967_296;

/// Where and how the tokens of the leaf are told.
pub(super) fn told_by(alloc: Global, net: &Net, leaf: u32) -> Result<Vec<Told>, Fail>
    requires { leaf < length net.now.leaves }
{
    let mut list = Vec::new(alloc);
    for atom in net.tells(leaf) {
        list.push(net.told(*atom))?;
    }
    Ok(list)
}

/// The words of which nothing is told.
pub(super) fn untold_words(alloc: Global, net: &Net) -> Result<Words, Fail>
    ensures { IfOk result (AreWords net.now.cells) }
{
    Ok(open_words(alloc, net, &Store::new(alloc))?)
}

#[test]
fn words_rise_each_in_its_way(rt: HostRuntime) {
    assert_eq!(rt; How::Or.lub(5, 3), 7);
    assert_eq!(rt; (How::Max.lub(5, 3), How::Max.lub(3, 5)), (5, 5));
    assert_eq!(rt; (How::Min.lub(5, 3), How::Min.lub(3, 5)), (3, 3));
}

/// Word 0 is that of the signal a, words 1 and 2 are those of n, and word 3 is the lower bound of m. The leaves tell `a`,
/// `#m & n <= 4` and `n >= 5`.
#[test]
fn tokens_are_told_to_the_words_of_their_cells(rt: HostRuntime) -> Result<(), Fail> {
    let net = net_of_each_kind(rt.alloc())?;
    assert_eq!(rt; net.leaves(), 6);
    let a = Told {
        word: 0,
        how: How::Or,
        bits: 1,
    };
    let clash = Told {
        word: 3,
        how: How::Max,
        bits: CLASH,
    };
    let most = Told {
        word: 2,
        how: How::Min,
        bits: ZERO + 4,
    };
    let least = Told {
        word: 1,
        how: How::Max,
        bits: ZERO + 5,
    };
    assert_eq!(rt; told_by(rt.alloc(), &net, 1)?.as_slice(), [a].as_slice());
    assert_eq!(rt;
        told_by(rt.alloc(), &net, 2)?.as_slice(),
        [clash, most].as_slice()
    );
    assert_eq!(rt;
        told_by(rt.alloc(), &net, 5)?.as_slice(),
        [least].as_slice()
    );
    Ok(())
}

/// At first only what no guard stands above runs, and the else in the then is not reached. With a the then lets run what
/// is below it, the else too. With n >= 5 the else is refuted.
#[test]
fn what_is_told_changes_which_leaves_run(rt: HostRuntime) -> Result<(), Fail> {
    let net = net_of_each_kind(rt.alloc())?;
    assert_eq!(rt; (net.leaves(), net.guards(), net.cells()), (6, 2, 3));
    let mut words = untold_words(rt.alloc(), &net)?;
    assert_eq!(rt;
        (holds(&net, &words, 0), holds(&net, &words, 1)),
        (false, false)
    );
    assert_eq!(rt;
        (reaches(&net, &words, 0), reaches(&net, &words, 1)),
        (true, false)
    );
    assert_eq!(rt;
        (
            runs(&net, &words, 1),
            runs(&net, &words, 2),
            runs(&net, &words, 5)
        ),
        (true, false, false)
    );
    tell(&net, &mut words, 1);
    assert_eq!(rt;
        (holds(&net, &words, 0), holds(&net, &words, 1)),
        (true, false)
    );
    assert_eq!(rt;
        (reaches(&net, &words, 0), reaches(&net, &words, 1)),
        (true, true)
    );
    assert_eq!(rt;
        (
            runs(&net, &words, 1),
            runs(&net, &words, 2),
            runs(&net, &words, 5)
        ),
        (true, true, true)
    );
    tell(&net, &mut words, 5);
    assert_eq!(rt;
        (holds(&net, &words, 0), holds(&net, &words, 1)),
        (true, true)
    );
    assert_eq!(rt;
        (
            runs(&net, &words, 1),
            runs(&net, &words, 2),
            runs(&net, &words, 5)
        ),
        (true, false, true)
    );
    Ok(())
}

/// n >= 5 leaves 5 to 7 of 0 to 7. With n <= 4 too it clashes, and with #m so does m.
#[test]
fn values_follow_what_is_told(rt: HostRuntime) -> Result<(), Fail> {
    let net = net_of_each_kind(rt.alloc())?;
    assert_eq!(rt; (net.leaves(), net.cells()), (6, 3));
    let mut words = untold_words(rt.alloc(), &net)?;
    assert_eq!(rt;
        words.list(),
        [0, ZERO, ZERO + 7, ZERO, ZERO + 7].as_slice()
    );
    tell(&net, &mut words, 1);
    tell(&net, &mut words, 5);
    let on = Value::Signal {
        on: true,
        off: false,
    };
    assert_eq!(rt; value(&net, &words, 0), on);
    assert_eq!(rt; value(&net, &words, 1), Value::Number { lo: 5, hi: 7 });
    assert_eq!(rt; value(&net, &words, 2), Value::Number { lo: 0, hi: 7 });
    tell(&net, &mut words, 2);
    assert_eq!(rt; value(&net, &words, 0), on);
    assert_eq!(rt; value(&net, &words, 1), Value::Clash);
    assert_eq!(rt; value(&net, &words, 2), Value::Clash);
    assert_eq!(rt;
        words.list(),
        [1, ZERO + 5, ZERO + 4, CLASH, ZERO + 7].as_slice()
    );
    Ok(())
}

/// The clash of n was told by bounds that cross, and in the words of the store it is that of the token.
#[test]
fn words_of_the_store_of_words_say_the_same(rt: HostRuntime) -> Result<(), Fail> {
    let net = net_of_each_kind(rt.alloc())?;
    assert_eq!(rt; net.leaves(), 6);
    let mut words = untold_words(rt.alloc(), &net)?;
    tell(&net, &mut words, 5);
    tell(&net, &mut words, 2);
    let store = words_store(rt.alloc(), &net, &words)?;
    let local = CellName::Local {
        node: 7,
        births: Births::make([9].to_vec(rt.alloc())?),
    };
    assert_eq!(rt; store.len(), 2);
    assert_eq!(rt; store.get(&CellName::Declared(1)), Some(Value::Clash));
    assert_eq!(rt; store.get(&local), Some(Value::Clash));
    let again = open_words(rt.alloc(), &net, &store)?;
    assert_eq!(rt;
        again.list(),
        [0, CLASH, ZERO + 7, CLASH, ZERO + 7].as_slice()
    );
    Ok(())
}

#[test]
fn one_word_is_put_and_the_others_stay(rt: HostRuntime) -> Result<(), Fail> {
    let net = net_of_each_kind(rt.alloc())?;
    assert_eq!(rt; net.leaves(), 6);
    let mut told = untold_words(rt.alloc(), &net)?;
    tell(&net, &mut told, 5);
    tell(&net, &mut told, 2);
    let mut words = untold_words(rt.alloc(), &net)?;
    assert_eq!(rt; (words.list().len(), told.list().len()), (5, 5));
    put(&net, &mut words, 1, told.list()[1]);
    assert_eq!(rt;
        words.list(),
        [0, ZERO + 5, ZERO + 7, ZERO, ZERO + 7].as_slice()
    );
    Ok(())
}
