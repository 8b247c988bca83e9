//! A text, read.
ghost use Rattle.std.specs.Prelude.{◌≡◌, ◌≤◌, IfErr, IfOk, MatchResult, None, length, map};
ghost use Rattle.program_grammar.specs.Phrases.{ProgramPhrase};
ghost use Rattle.program_grammar.specs.Reading.{AreSteps};
ghost use Rattle.tdcc_reader.specs.BuildPass.{built_view};
ghost use Rattle.tdcc_reader.specs.Builds.{IsChecked};
ghost use Rattle.tdcc_reader.specs.Refusals.{Accepts, IsProgramOf, Refuses, RefusesTerms};
ghost use Rattle.program_lexemes.specs.Limits.{longest_core_text};
ghost use Rattle.tdcc_reader.specs.LimitFaults.{program_limit};
ghost use Rattle.agent_core.specs.Limits.{most_declared_cells};
ghost use Rattle.tdcc_reader.specs.ParsedTexts.{surface_of};
ghost use Rattle.tdcc_reader.specs.Scope.{program_fault};
ghost use Rattle.tdcc_reader.specs.Surfaces.{IsSurfaceOf, declared_cells};
ghost use Rattle.tdcc_reader.specs.TermViews.{term_view};
ghost use Rattle.tdcc_reader.specs.declared.fault.ReadFault as ReadFault;
ghost use Rattle.tdcc_reader.specs.Texts.{ReadsAs};

use crate::build::{Builder, build};
use crate::dialect::Dialect;
use crate::fault::ReadFault;
use crate::finish::finish;
use crate::lexing::read_terms;
use crate::limits::check_limits;
use crate::naming::check_names;
use crate::parsing::read_steps;
use crate::surface::{ParsedText, Surface};
use crate::terms::Term;
use agent_core::MAX_DECLARED;
use program_grammar::Step;
use std::alloc::Global;

/// What is built of the program of these terms and steps, where nothing refuses it.
fn build_checked<'a>(
    alloc: Global,
    dialect: Dialect,
    terms: &[Term<'a>],
    steps: &[Step],
) -> Result<Builder<'a>, ReadFault>
    requires { length terms.now ≤ longest_core_text }
    ensures found { (p : ProgramPhrase) → IsProgramOf dialect (map term_view terms.now) p → AreSteps p steps.now
        → IfOk result (λ b. IsChecked dialect p (built_view b)) }
    ensures fault { (p : ProgramPhrase) → IsProgramOf dialect (map term_view terms.now) p → AreSteps p steps.now
        → IfErr result (RefusesTerms dialect (map term_view terms.now)) }
    ensures complete { (p : ProgramPhrase) → IsProgramOf dialect (map term_view terms.now) p → AreSteps p steps.now
        → program_limit dialect p ≡ None → program_fault p ≡ None → length (declared_cells p) ≤ most_declared_cells
        → IfErr result (λ fault. fault ≡ ReadFault.Memory) }
{
    check_limits(dialect, terms, steps)?;
    check_names(alloc, terms, steps)?;
    let built = build(alloc, terms, steps)?;
    if built.declared > MAX_DECLARED {
        return Err(ReadFault::TooManyDeclared);
    }
    Ok(built)
}

/// Reads a text of a dialect: its cells, and its forms in preorder.
///
/// # Errors
///
/// The first refusal of the text, at its place; `Memory` where an allocation fails.
pub fn read_text(alloc: Global, dialect: Dialect, text: &[u8]) -> Result<ParsedText, ReadFault>
    // What is read is the surface of the program that the text is.
    ensures found { IfOk result (λ parts. ReadsAs dialect text.now (surface_of parts)) }
    // A refusal is the first one, at its place.
    ensures fault { IfErr result (Refuses dialect text.now) }
    // A text that nothing refuses is read, as the one program that it is.
    ensures complete { (p : ProgramPhrase) → Accepts dialect text.now p
        → MatchResult result (λ parts. IsSurfaceOf p (surface_of parts)) (λ fault. fault ≡ ReadFault.Memory) }
{
    let terms = read_terms(alloc, dialect, text)?;
    let steps = read_steps(alloc, dialect, &terms)?;
    let built = build_checked(alloc, dialect, &terms, &steps)?;
    finish(alloc, built)
}

/// Reads a program text: its cells, and its forms in preorder.
///
/// # Errors
///
/// The first refusal of the text, at its place; `Memory` where an allocation fails.
pub fn read_program(alloc: Global, text: &[u8]) -> Result<Surface, ReadFault>
    // What is read is the surface of the program that the text is.
    ensures found { IfOk result (ReadsAs Dialect.Program text.now) }
    // A refusal is the first one, at its place.
    ensures fault { IfErr result (Refuses Dialect.Program text.now) }
    // A text that nothing refuses is read, as the one program that it is.
    ensures complete { (p : ProgramPhrase) → Accepts Dialect.Program text.now p
        → MatchResult result (IsSurfaceOf p) (λ fault. fault ≡ ReadFault.Memory) }
{
    let parts = read_text(alloc, Dialect::Program, text)?;
    Ok(Surface::make(parts.cells, parts.declared, parts.forms))
}
