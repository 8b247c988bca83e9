//! What `check` answers.
ghost use Rattle.std.specs.Prelude.{◌≡◌, ◌⊎◌, IfOk, length};
ghost use Rattle.tdcc_tool.specs.Answers.{CaseAnswer};
ghost use Rattle.tdcc_tool.specs.Checks as checks;
ghost use Rattle.tdcc_tool.specs.Checks.{CheckAnswer};

use crate::answer::{Answer, refused_case};
use crate::messages::name_of;
use crate::output::write_count;
use agent_core::{Levels, Program};
use std::alloc::{AllocError, Global};
use strata::{StrataFault, strata};
use tdcc_base::Status;
use token_system::Memory;

/// The line of the sizes, and then a line for each cell with its number.
fn check_text(alloc: Global, program: &Program, levels: &Levels) -> Result<Vec<u8>, Memory>
    requires { length levels.now ≡ length program.now.cells }
    ensures { IfOk result (λ text. text.items ≡ checks.check_text program.now levels.now) }
{
    let cells = program.cells().len();
    let mut text = Vec::new(alloc);
    write_count(b"accepted: ", cells as u64, &mut text)?;
    write_count(b" cells, ", program.nodes().len() as u64, &mut text)?;
    write_count(b" nodes, ", u64::from(levels.strata()), &mut text)?;
    text.extend_from_slice(b" strata\n")?;
    for cell in 0..cells {
        text.extend_from_slice(name_of(program, cell as u32))?;
        write_count(b" ", u64::from(levels.list()[cell]), &mut text)?;
        text.push(b'\n')?;
    }
    Ok(text)
}

/// The answer that says how large the program is, or by which case it is refused.
pub fn check_answer(alloc: Global, program: &Program) -> Result<Answer, Memory>
    ensures { IfOk result (λ a. CaseAnswer program.now a.status a.out.items a.err.items
        ⊎ CheckAnswer program.now a.status a.out.items a.err.items) }
{
    match strata(alloc, program) {
        Ok(levels) => Ok(Answer {
            status: Status::Ok,
            out: check_text(alloc, program, &levels)?,
            err: Vec::new(alloc),
        }),
        Err(StrataFault::NotStratified { guard, told, node }) => {
            refused_case(alloc, program, guard, told, node)
        }
        Err(StrataFault::Memory) => Err(AllocError),
    }
}
