//! The lines for err.
ghost use Rattle.std.specs.Prelude.{◌≡◌, ◌≢◌, IfOk, slice_get};
ghost use Rattle.tdcc_reader.specs.declared.fault.ReadFault.TheVariants.{Memory as NoReading};
ghost use Rattle.tdcc_tool.specs.Messages as messages;
ghost use Rattle.tdcc_tool.specs.RunEnds as ends;
ghost use Rattle.tdcc_tool.specs.Steps.{IsNotOutOfMemory};

use crate::run_end::RunEnd;
use agent_core::{MAX_INSTANTS, Program};
use std::alloc::Global;
use tdcc_reader::ReadFault;
use token_system::Memory;

/// The line of a program text that has this fault.
pub fn program_line(alloc: Global, fault: ReadFault) -> Result<Vec<u8>, Memory>
    requires { fault ≢ NoReading }
    ensures { IfOk result (λ line. line.items ≡ messages.program_line fault) }
{
    let line = format!(in alloc; "tdcc: program: {fault}\n")?;
    Ok(line.as_bytes().to_vec(alloc)?)
}

/// The name of the cell, where there is one of this number.
pub fn name_of(program: &Program, cell: u32) -> &[u8]
    ensures { result.now ≡ messages.cell_name (slice_get program.now.cells cell) }
{
    match program.cells().get(cell as usize) {
        Some(decl) => decl.name.bytes(),
        None => b"".as_slice(),
    }
}

/// The line of a program that depends on its own absence, by the first case that shows it.
pub fn strata_line(
    alloc: Global,
    program: &Program,
    guard: u32,
    told: u32,
    node: u32,
) -> Result<Vec<u8>, Memory>
    ensures { IfOk result (λ line. line.items ≡ messages.strata_line program.now guard told node) }
{
    let place = format!(in alloc; " at node {node}\n")?;
    let mut line = b"tdcc: program: not stratified, ".to_vec(alloc)?;
    line.extend_from_slice(name_of(program, guard))?;
    line.extend_from_slice(b" guards ")?;
    line.extend_from_slice(name_of(program, told))?;
    line.extend_from_slice(place.as_bytes())?;
    Ok(line)
}

/// The line for err where the line of this instant stops the run, for this reason.
fn instant_line(alloc: Global, instant: u32, reason: &str) -> Result<Vec<u8>, Memory>
    ensures { IfOk result (λ line. line.items ≡ messages.instant_line instant reason.now) }
{
    let line = format!(in alloc; "tdcc: trace: instant {instant}: {reason}\n")?;
    Ok(line.as_bytes().to_vec(alloc)?)
}

/// The line for err where a run ends so at this instant.
pub fn end_line(alloc: Global, instant: u32, end: RunEnd) -> Result<Vec<u8>, Memory>
    requires { IsNotOutOfMemory end }
    ensures { IfOk result (λ line. line.items ≡ ends.end_line instant end) }
{
    match end {
        RunEnd::Completed => Ok(Vec::new(alloc)),
        RunEnd::BadLine { fault } => {
            let reason = fault.to_string(alloc)?;
            instant_line(alloc, instant, reason.as_str())
        }
        RunEnd::TooManyLines => {
            let reason = format!(in alloc; "over {MAX_INSTANTS} instants")?;
            instant_line(alloc, instant, reason.as_str())
        }
        RunEnd::NetFull { leaves } => {
            let line = format!(in alloc; "tdcc: net: instant {instant}: {leaves} leaves\n")?;
            Ok(line.as_bytes().to_vec(alloc)?)
        }
        RunEnd::FuelSpent { agents } => {
            let line = format!(in alloc; "tdcc: fuel: instant {instant}: {agents} agents run\n")?;
            Ok(line.as_bytes().to_vec(alloc)?)
        }
    }
}
