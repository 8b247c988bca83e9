//! What each item leads to along the bounds.
ghost use Rattle.std.specs.Prelude.{◌≡◌, ◌≤◌, ◌<◌, ◌^◌, ◌↔◌, [], ℕ, List, All, IfOk, IsTrue, length};
ghost use Rattle.order_tables.specs.Bounds.{Within};
ghost use Rattle.order_tables.specs.Reaching.{list_at, has, AreNexts, AreItems, AreReaching, LeadsTo, IsMarked};

use crate::bound::Bound;
use std::alloc::{AllocError, Global};

/// So many empty lists.
fn empty_lists(alloc: Global, size: u32) -> Result<Vec<Vec<u32>>, AllocError>
    ensures long { IfOk result (λ v. length v.items ≡ size) }
    ensures each { IfOk result (λ v. (a : ℕ) → list_at v.items a ≡ []) }
{
    let mut lists = Vec::new(alloc);
    for _ in 0..size {
        lists.push(Vec::new(alloc))?;
    }
    Ok(lists)
}

/// For each item, those to which the bounds lead.
fn nexts_of(alloc: Global, size: u32, bounds: &[Bound]) -> Result<Vec<Vec<u32>>, AllocError>
    requires { All (Within size) bounds.now }
    ensures { IfOk result (λ v. AreNexts size bounds.now v.items) }
{
    let mut nexts = empty_lists(alloc, size)?;
    for bound in bounds {
        nexts[bound.low as usize].push(bound.high)?;
    }
    Ok(nexts)
}

/// Marks the item and all to which it leads, unless it is marked.
fn mark(nexts: &[Vec<u32>], item: u32, marks: &mut [bool])
    requires long { length nexts.now ≡ length marks.old }
    requires items { AreItems nexts.now (length marks.old) }
    requires item { item < length marks.old }
    ensures { IsMarked nexts.now item marks.old marks.new }
{
    if marks[item as usize] {
        return;
    }
    marks[item as usize] = true;
    for next in &nexts[item as usize] {
        mark(nexts, *next, marks);
    }
}

/// Which items the item leads to.
fn reached(alloc: Global, nexts: &[Vec<u32>], item: u32) -> Result<Vec<bool>, AllocError>
    requires items { AreItems nexts.now (length nexts.now) }
    requires item { item < length nexts.now }
    ensures long { IfOk result (λ v. length v.items ≡ length nexts.now) }
    ensures each { IfOk result (λ v. (a : ℕ) → IsTrue (has v.items a) ↔ LeadsTo nexts.now item a) }
{
    let mut marks = vec![in alloc; false; nexts.len()]?;
    mark(nexts, item, &mut marks);
    Ok(marks)
}

/// Which of `size` items each of the first `count` items reaches. It goes over the bounds once for
/// each of these.
pub fn reaching(
    alloc: Global,
    size: u32,
    bounds: &[Bound],
    count: u32,
) -> Result<Vec<Vec<bool>>, AllocError>
    requires within { All (Within size) bounds.now }
    requires count { count ≤ size }
    ensures { IfOk result (λ rows. AreReaching bounds.now size count rows.items) }
{
    let nexts = nexts_of(alloc, size, bounds)?;
    let mut rows = Vec::new(alloc);
    for item in 0..count {
        rows.push(reached(alloc, &nexts, item)?)?;
    }
    Ok(rows)
}
