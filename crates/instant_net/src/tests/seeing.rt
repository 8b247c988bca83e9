//! What is seen of words, what of it is settled, and what it decides.

use super::packing::{ON, UNTOLD, net_of_33};
use super::reading::net_of_each_kind;
use super::telling::ZERO;
use crate::Seen;
use std::test::Fail;
use token_system::{Token, Value};

/// Signals 0 and 1 share word 0, and their strata are 0 and 1. Only what is loaded is settled, and while one stratum is
/// known to be at rest, only signal 0.
#[test]
fn of_two_signals_of_a_word_the_one_at_rest_is_settled(rt: HostRuntime) -> Result<(), Fail> {
    let net = net_of_33(rt.alloc(), [(0, Token::On), (32, Token::Off)])?;
    assert_eq!(rt; (net.cells(), net.words()), (34, 4));
    let mut seen = Seen::open(rt.alloc(), &net)?;
    seen.know(1);
    seen.take(&net, 0, 1, false);
    assert_eq!(rt;
        (seen.is_settled(&net, 0), seen.is_settled(&net, 1)),
        (false, false)
    );
    seen.take(&net, 0, 4, true);
    assert_eq!(rt; (seen.value(&net, 0), seen.value(&net, 1)), (ON, ON));
    assert_eq!(rt;
        (seen.is_settled(&net, 0), seen.is_settled(&net, 1)),
        (true, false)
    );
    seen.know(2);
    seen.take(&net, 0, 0, true);
    assert_eq!(rt; (seen.value(&net, 0), seen.value(&net, 1)), (ON, ON));
    assert_eq!(rt;
        (seen.is_settled(&net, 1), seen.is_settled(&net, 2)),
        (true, false)
    );
    Ok(())
}

/// The number is cell 16, of stratum 16, and has words 2 and 3.
#[test]
fn a_number_is_settled_with_both_its_words(rt: HostRuntime) -> Result<(), Fail> {
    let net = net_of_33(rt.alloc(), [(0, Token::On), (32, Token::Off)])?;
    assert_eq!(rt; (net.cells(), net.words()), (34, 4));
    let mut seen = Seen::open(rt.alloc(), &net)?;
    assert_eq!(rt; seen.value(&net, 16), Value::Number { lo: 0, hi: 7 });
    seen.know(17);
    seen.take(&net, 2, ZERO + 5, true);
    assert_eq!(rt; seen.value(&net, 16), Value::Number { lo: 5, hi: 7 });
    assert_eq!(rt; seen.is_settled(&net, 16), false);
    seen.take(&net, 3, ZERO + 7, true);
    assert_eq!(rt; seen.value(&net, 16), Value::Number { lo: 5, hi: 7 });
    assert_eq!(rt; seen.is_settled(&net, 16), true);
    Ok(())
}

/// One saw signal 0 settled, and the other the number's lower bound, while it knew of more strata at rest.
#[test]
fn merged_views_know_what_each_knows(rt: HostRuntime) -> Result<(), Fail> {
    let net = net_of_33(rt.alloc(), [(0, Token::On), (32, Token::Off)])?;
    assert_eq!(rt; (net.cells(), net.words()), (34, 4));
    let mut one = Seen::open(rt.alloc(), &net)?;
    let mut other = Seen::open(rt.alloc(), &net)?;
    one.know(1);
    one.take(&net, 0, 1, true);
    other.know(3);
    other.take(&net, 2, ZERO + 5, false);
    one.merge(&net, &other);
    assert_eq!(rt; one.known(), 3);
    assert_eq!(rt; (one.value(&net, 0), one.value(&net, 1)), (ON, UNTOLD));
    assert_eq!(rt; one.value(&net, 16), Value::Number { lo: 5, hi: 7 });
    assert_eq!(rt;
        (one.is_settled(&net, 0), one.is_settled(&net, 1)),
        (true, false)
    );
    Ok(())
}

/// Leaf 2 is below `if a then` and in it `if n >= 5 & a else`, where a has stratum 3 and n stratum 1. The then needs a
/// alone; the else needs four strata at rest, and both cells loaded since.
#[test]
fn below_an_else_a_leaf_is_decided_once_its_stratum_is_at_rest(
    rt: HostRuntime,
) -> Result<(), Fail> {
    let net = net_of_each_kind(rt.alloc())?;
    assert_eq!(rt; (net.leaves(), net.guards(), net.words()), (6, 2, 5));
    let mut seen = Seen::open(rt.alloc(), &net)?;
    assert_eq!(rt;
        (
            net.decided(&seen, 1),
            net.decided(&seen, 5),
            net.reached(&seen, 1)
        ),
        (true, false, false)
    );
    seen.take(&net, 0, 1, false);
    assert_eq!(rt;
        (
            net.decided(&seen, 2),
            net.decided(&seen, 5),
            net.reached(&seen, 1)
        ),
        (false, true, true)
    );
    seen.know(3);
    seen.take(&net, 0, 1, true);
    seen.take(&net, 1, ZERO, true);
    seen.take(&net, 2, ZERO + 7, true);
    assert_eq!(rt; net.decided(&seen, 2), false);
    seen.know(4);
    assert_eq!(rt; net.decided(&seen, 2), false);
    seen.take(&net, 0, 1, true);
    assert_eq!(rt; net.decided(&seen, 2), true);
    Ok(())
}
