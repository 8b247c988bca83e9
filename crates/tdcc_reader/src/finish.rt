//! What is read of a text, from what is built.
ghost use Rattle.std.specs.Prelude.{◌≡◌, ℕ, List, IfErr, IfOk};
ghost use Rattle.program_grammar.specs.Phrases.{ProgramPhrase};
ghost use Rattle.tdcc_reader.specs.BuildPass.{built_view};
ghost use Rattle.tdcc_reader.specs.Builds.{IsReadyToBuild};
ghost use Rattle.tdcc_reader.specs.ParsedTexts.{surface_of};
ghost use Rattle.tdcc_reader.specs.Surfaces.{IsSurfaceOf};
ghost use Rattle.tdcc_reader.specs.declared.dialect.Dialect.{Dialect};
ghost use Rattle.tdcc_reader.specs.declared.fault.ReadFault as ReadFault;

use crate::build::Builder;
use crate::fault::ReadFault;
use crate::flat_form::forms;
use crate::surface::ParsedText;
use std::alloc::Global;

/// The parts of the program that is built.
pub(crate) fn finish(alloc: Global, built: Builder<'_>) -> Result<ParsedText, ReadFault>
    requires { (dialect : Dialect) × (text : List ℕ) × (p : ProgramPhrase) × IsReadyToBuild dialect text p (built_view built) }
    ensures found { (dialect : Dialect) (text : List ℕ) (p : ProgramPhrase) → IsReadyToBuild dialect text p (built_view built.entry)
        → IfOk result (λ parts. IsSurfaceOf p (surface_of parts)) }
    ensures fault { IfErr result (λ fault. fault ≡ ReadFault.Memory) }
{
    let flat_forms = built.insertions.in_preorder(alloc)?;
    let forms = forms(alloc, &flat_forms)?;
    Ok(ParsedText {
        cells: built.cells,
        declared: built.declared as u32,
        forms,
    })
}
