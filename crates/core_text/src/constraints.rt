//! The text of a constraint.
ghost use Rattle.std.specs.Prelude.{◌≡◌, ◌++◌, OnOk};
ghost use Rattle.core_text.specs.CoreTexts.{name_at, constraint_text};
ghost use Rattle.token_system.specs.Texts.{text_of};

use crate::cells::name_at;
use agent_core::{CellDecl, Constraint};
use token_system::{Memory, Token, token_text};

/// Appends the token of the cell with this number.
fn write_token(
    cells: &[CellDecl],
    cell: u32,
    token: Token,
    into: &mut Vec<u8>,
) -> Result<(), Memory>
    ensures { OnOk result (into.new.items ≡ into.old.items ++ text_of (name_at cells.now cell) token) }
{
    token_text(name_at(cells, cell), token, into)
}

/// Appends the tokens of a constraint, as `a & x>=3`.
pub(crate) fn write_ask(
    cells: &[CellDecl],
    ask: &Constraint,
    into: &mut Vec<u8>,
) -> Result<(), Memory>
    ensures { OnOk result (into.new.items ≡ into.old.items ++ constraint_text cells.now ask.now) }
{
    if let Some(((cell, token), more)) = ask.list().split_first() {
        write_token(cells, *cell, *token, into)?;
        for (cell, token) in more {
            into.extend_from_slice(b" & ")?;
            write_token(cells, *cell, *token, into)?;
        }
    }
    Ok(())
}
