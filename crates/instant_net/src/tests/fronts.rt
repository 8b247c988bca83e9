//! What words say of the first cells of a net.
ghost use Rattle.std.specs.Prelude.{IfOk};
ghost use Rattle.instant_net.specs.Words.{AreWords};

use super::making::nested;
use super::{first_roots, rising_levels};
use crate::{Net, Words, declared_store, open_net, open_words, tell, words_store};
use std::alloc::Global;
use std::test::Fail;
use token_system::{CellName, Store, Value};

/// The words of the net after each of its leaves has told, where the input tells nothing.
fn told(alloc: Global, net: &Net) -> Result<Words, Fail>
    ensures { IfOk result (AreWords net.now.cells) }
{
    let mut words = open_words(alloc, net, &Store::new(alloc))?;
    for leaf in 0..net.leaves() {
        tell(net, &mut words, leaf);
    }
    Ok(words)
}

/// The local cell and `b` are told; of the two declared cells only `b` is.
#[test]
fn the_front_of_the_declared_cells_has_no_local_one(rt: HostRuntime) -> Result<(), Fail> {
    let program = nested(rt.alloc())?;
    let levels = rising_levels(rt.alloc(), &program)?;
    let roots = first_roots(rt.alloc(), &program)?;
    let net = match open_net(rt.alloc(), &program, &levels, &roots, 7, 2) {
        Ok(net) => net,
        Err(_) => return Err(Fail::from("no net")),
    };
    let words = told(rt.alloc(), &net)?;
    let whole = words_store(rt.alloc(), &net, &words)?;
    assert_eq!(rt; net.cells(), 3);
    let front = declared_store(rt.alloc(), &net, &words, 2)?;
    assert_eq!(rt; (whole.len(), front.len()), (2, 1));
    let on = Value::Signal {
        on: true,
        off: false,
    };
    assert!(rt; front.get(&CellName::Declared(1)) == Some(on));
    Ok(())
}
