//! The laws of surfaces, each proved as the contract of a function with no body.
ghost use Rattle.std.specs.Prelude.{ℕ, List};
ghost use Rattle.tdcc_reader.specs.declared.dialect.Dialect.{Dialect};
ghost use Rattle.tdcc_reader.specs.Dialects.{text_form};
ghost use Rattle.tdcc_reader.specs.Surfaces.{SurfaceProgram};
ghost use Rattle.tdcc_reader.specs.Texts.{IsSurface, ReadsAs};
ghost use Rattle.program_lexemes.specs.declared.bytes.TextForm.TheVariants.{Program};
ghost use Rattle.surface_laws.specs.Surfaces.{IsWellFormedSurface};

/// The surface of a program text is well formed.
pub fn surface_law()
    ensures { (s : SurfaceProgram) → IsSurface s → IsWellFormedSurface Program s }
{}

/// So is what is read of a text of any dialect, with the names of its form.
pub fn text_law()
    ensures { (dialect : Dialect) (text : List ℕ) (s : SurfaceProgram) → ReadsAs dialect text s
        → IsWellFormedSurface (text_form dialect) s }
{}
