//! The laws of rest: two worked programs, proved as the contract of a function with no body.
ghost use Rattle.agent_core.specs.Worked.{RestsUnderItsTell, TellsAfterAbsence};

/// What the definitions of rest say of two small programs, within an instant and after one.
pub fn worked_law()
    ensures within { RestsUnderItsTell }
    ensures later { TellsAfterAbsence }
{}
