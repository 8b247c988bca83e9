//! The outputs of a run, by walks over the whole history at each instant.
ghost use Rattle.std.specs.Prelude.{◌≡◌, ◌+◌, ◌<◌, ◌≤◌, ◌^◌, ℕ, List, All, IfOk, OnOk, length};
ghost use Rattle.token_system.specs.Stores.{StoreMap};
ghost use Rattle.agent_core.specs.Limits.{most_instants};
ghost use Rattle.agent_core.specs.WellFormed.{IsWellFormed};
ghost use Rattle.agent_core.specs.Outputs.{IsOutput, IsRun};
ghost use Rattle.agent_core.specs.Stores.{IsInput, IsStore};
ghost use Rattle.agent_core.specs.Strata.{Stratifies};
ghost use Rattle.agent_laws.specs.Ways.{AreBelow, IsOnWay};

use crate::levels::strata_of;
use crate::walk::tell_first;
use agent_core::{Levels, Program};
use std::alloc::Global;
use token_system::{Memory, Store};

/// Completes the stratum after these closed stores: from a store on the way to an output of the program that has all of
/// the strata below this one, to one on that way that has this stratum too.
fn complete_stratum(
    alloc: Global,
    program: &Program,
    levels: &Levels,
    stratum: u32,
    closed: &[Store],
    store: &mut Store,
) -> Result<(), Memory>
    requires program { IsWellFormed program.now }
    requires stratified { Stratifies program.now levels.now }
    requires closed { All (IsStore program.now) closed.now }
    requires few { length closed.now < 2 ^ 32 }
    requires store { IsStore program.now store.old }
    ensures store { OnOk result (IsStore program.now store.new) }
    ensures completed { OnOk result ((input output : StoreMap) → IsOutput program.now closed.now input output
        → IsOnWay program.now levels.now input output stratum store.old
        → IsOnWay program.now levels.now input output (stratum + 1) store.new) }
{
    let mut told = true;
    while told {
        told = tell_first(alloc, program, levels, stratum, closed, store)?;
    }
    Ok(())
}

/// The output of the program on the input after these closed stores, where the table has so many strata.
fn output(
    alloc: Global,
    program: &Program,
    levels: &Levels,
    strata: u32,
    closed: &[Store],
    input: &Store,
) -> Result<Store, Memory>
    requires program { IsWellFormed program.now }
    requires strata { AreBelow program.now levels.now strata }
    requires stratified { Stratifies program.now levels.now }
    requires closed { All (IsStore program.now) closed.now }
    requires few { length closed.now < 2 ^ 32 }
    requires input { IsStore program.now input.now }
    ensures { IfOk result (λ store. IsOutput program.now closed.now input.now store) }
{
    let mut store = input.copy()?;
    for stratum in 0..strata {
        complete_stratum(alloc, program, levels, stratum, closed, &mut store)?;
    }
    Ok(store)
}

/// The outputs of the run of the program on these inputs, where the table stratifies the program. At each instant the
/// whole program is walked over the whole history again, once for each leaf that tells, so it is plain and slow, and meant
/// for tests that compare a runtime with it.
pub fn slow_run(
    alloc: Global,
    program: &Program,
    levels: &Levels,
    ins: &[Store],
) -> Result<Vec<Store>, Memory>
    requires stratified { Stratifies program.now levels.now }
    requires inputs { All (IsInput program.now) ins.now }
    requires few { length ins.now ≤ most_instants }
    ensures run { IfOk result (λ outs. IsRun program.now ins.now outs.items) }
    ensures complete { IfOk result (λ outs. (others : List StoreMap)
        → IsRun program.now ins.now others → others ≡ outs.items) }
{
    let strata = strata_of(program, levels);
    let mut outs = Vec::new(alloc);
    for input in ins {
        let store = output(alloc, program, levels, strata, &outs, input)?;
        outs.push(store)?;
    }
    Ok(outs)
}
