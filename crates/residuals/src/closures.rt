//! Closures in their order.
ghost use Rattle.std.specs.Prelude.{◌≡◌, ◌++◌, IfOk, IsTrue, OnOk};
ghost use Rattle.agent_core.specs.Closures.{closure_cmp, sorted};

use agent_core::Closure;
use std::cmp::Ordering;
use token_system::Memory;

/// The order of closures: by node, and then by births.
fn closure_order(a: &Closure, b: &Closure) -> Ordering
    ensures { result ≡ closure_cmp a.now b.now }
{
    match a.node.cmp(&b.node) {
        Ordering::Equal => a.births.list().cmp(b.births.list()),
        order => order,
    }
}

/// An equal closure.
pub(crate) fn copy(closure: &Closure) -> Result<Closure, Memory>
    ensures { IfOk result (λ c. c ≡ closure.now) }
{
    Ok(Closure {
        node: closure.node,
        births: closure.births.copy()?,
    })
}

/// Appends equal closures.
pub(crate) fn add_copies(list: &mut Vec<Closure>, closures: &[Closure]) -> Result<(), Memory>
    ensures { OnOk result (list.new.items ≡ list.old.items ++ closures.now) }
{
    list.reserve(closures.len())?;
    for closure in closures {
        list.push(copy(closure)?)?;
    }
    Ok(())
}

/// Whether each closure comes before the one behind it.
fn is_in_order(closures: &[Closure]) -> bool
    ensures { IsTrue result → closures.now ≡ sorted closures.now }
{
    for place in 1..closures.len() {
        if closure_order(&closures[place - 1], &closures[place]) != Ordering::Less {
            return false;
        }
    }
    true
}

/// Puts the closures in their order, each once. What a net's leaves start mostly comes in order.
pub(crate) fn sort(closures: &mut Vec<Closure>) -> Result<(), Memory>
    ensures { OnOk result (closures.new.items ≡ sorted closures.old.items) }
{
    if is_in_order(closures) {
        return Ok(());
    }
    closures.sort_by(|a, b| closure_order(a, b))?;
    closures.dedup_by(|a, b| closure_order(a, b) == Ordering::Equal);
    Ok(())
}
