//! Laws of certificates. A certificate of an instant is an order in which leaves tell, each with its
//! grounds: whoever has one can check an output without looking for a fixpoint, of programs that are
//! stratified and of others. Nothing here is to be run; the laws stand on the contracts.
#![tactic(auto)]

mod laws;

pub use laws::{certified_law, outputs_law, reasons_law, runs_law, worked_law};
