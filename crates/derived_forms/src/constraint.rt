//! Constraints of the nodes that an expansion adds.
ghost use Rattle.std.specs.Prelude.{◌≡◌, IfOk};
ghost use Rattle.expansion_laws.specs.Table.{signal_on};

use agent_core::Constraint;
use std::alloc::{AllocError, Global};
use token_system::Token;

/// The constraint with memory of its own.
pub(crate) fn constraint_copy(alloc: Global, ask: &Constraint) -> Result<Constraint, AllocError>
    ensures { IfOk result (λ copy. copy ≡ ask.now) }
{
    Ok(Constraint::make(ask.list().to_vec(alloc)?))
}

/// The constraint that the signal with this binder is on.
pub(crate) fn signal_on(alloc: Global, binder: u32) -> Result<Constraint, AllocError>
    ensures { IfOk result (λ ask. ask ≡ signal_on binder) }
{
    Ok(Constraint::make(vec![in alloc; (binder, Token::On)]?))
}
