//! The least numbers that satisfy bounds.
ghost use Rattle.std.specs.Prelude.{◌≡◌, ◌<◌, ◌^◌, ℕ, List, All, IfOk, length};
ghost use Rattle.order_tables.specs.Bounds.{needs, Satisfies, Within, HasTable, IsLeast, IsRaised, IsPassed};

use crate::bound::Bound;
use std::alloc::{AllocError, Global};

/// Raises the number of the bound's high end to what the bound asks for. Whether it was less.
fn raise(bound: Bound, table: &mut [u32]) -> bool
    requires within { Within (length table.old) bound }
    requires room { needs table.old bound < length table.old }
    requires few { length table.old < 2 ^ 31 }
    ensures { IsRaised bound table.old table.new result }
{
    let more: u32 = if bound.negative { 1 } else { 0 };
    let least = table[bound.low as usize] + more;
    if least <= table[bound.high as usize] {
        return false;
    }
    table[bound.high as usize] = least;
    true
}

/// Raises a number for each bound in turn. Whether any was raised.
fn pass(bounds: &[Bound], table: &mut [u32]) -> bool
    requires within { All (Within (length table.old)) bounds.now }
    requires few { length table.old < 2 ^ 31 }
    requires some { HasTable bounds.now }
    requires least { IsLeast bounds.now table.old }
    ensures { IsPassed bounds.now table.old table.new result }
{
    let mut changed = false;
    for bound in bounds {
        if raise(*bound, table) {
            changed = true;
        }
    }
    changed
}

/// The least numbers of `size` items that satisfy each of the bounds, where some numbers do. Each is
/// less than `size`.
pub fn least_table(alloc: Global, size: u32, bounds: &[Bound]) -> Result<Vec<u32>, AllocError>
    requires within { All (Within size) bounds.now }
    requires few { size < 2 ^ 31 }
    requires some { HasTable bounds.now }
    ensures long { IfOk result (λ t. length t.items ≡ size) }
    ensures satisfies { IfOk result (λ t. All (Satisfies t.items) bounds.now) }
    ensures least { IfOk result (λ t. IsLeast bounds.now t.items) }
{
    let mut table = vec![in alloc; 0u32; size as usize]?;
    while pass(bounds, &mut table) {}
    Ok(table)
}
