//! The laws of expansions, each proved as the contract of a function that calls the law of surfaces alone.
ghost use Rattle.std.specs.Prelude.{◌≡◌, ◌+◌, ◌≤◌, length};
ghost use Rattle.agent_core.specs.WellFormed.{IsWellFormed};
ghost use Rattle.agent_core.specs.Limits.{most_cells, most_nodes};
ghost use Rattle.agent_core.specs.Programs.{CoreProgram};
ghost use Rattle.core_text.specs.GoodNames.{HasGoodNames};
ghost use Rattle.tdcc_reader.specs.Surfaces.{SurfaceProgram};
ghost use Rattle.tdcc_reader.specs.Texts.{IsSurface};
ghost use Rattle.expansion_laws.specs.SymbolicAgents.{SymbolicAgent, binders, symbolic_size};
ghost use Rattle.expansion_laws.specs.Expansions.{IsExpansion, IsCoreOfSymbolic, IsSymbolicOf, OnItsTree};
ghost use Rattle.expansion_laws.specs.Paths.{TellsAreClocked, TellsAreGuarded, TellsStem};
ghost use Rattle.expansion_laws.specs.Stops.{StopsForGood};
ghost use Rattle.expansion_laws.specs.RunTells.{HiddenSignalStops, RunsOnItsClock};
ghost use Rattle.expansion_laws.specs.WorkedForms.{WorksForTime, WorksForWatching};

use surface_laws::surface_law;

/// A surface has one core program. Where that keeps the limits on its size, it is a program with all that holds of
/// programs, and its names can be written and read back.
pub fn expansion_law()
    ensures some { (s : SurfaceProgram) → IsSurface s → (p : CoreProgram) × IsExpansion s p }
    ensures one { (s : SurfaceProgram) (p q : CoreProgram) → IsExpansion s p → IsExpansion s q → p ≡ q }
    ensures program { (s : SurfaceProgram) (p : CoreProgram) → IsSurface s → IsExpansion s p
        → length p.nodes ≤ most_nodes → length p.cells ≤ most_cells → IsWellFormed p }
    ensures names { (s : SurfaceProgram) (p : CoreProgram) → IsSurface s → IsExpansion s p
        → length p.nodes ≤ most_nodes → length p.cells ≤ most_cells → HasGoodNames p }
{
    surface_law();
}

/// The core program of a surface has the nodes of its symbolic agent, and a cell for each new of it behind the
/// declared ones.
pub fn sizes_law()
    ensures nodes { (s : SurfaceProgram) (d : SymbolicAgent) (p : CoreProgram) → IsCoreOfSymbolic s d p
        → length p.nodes ≡ symbolic_size d }
    ensures cells { (s : SurfaceProgram) (d : SymbolicAgent) (p : CoreProgram) → IsSurface s → IsCoreOfSymbolic s d p
        → length p.cells ≡ s.declared + length (binders d) }
    ensures one { (s : SurfaceProgram) (d e : SymbolicAgent) → IsSymbolicOf s d → IsSymbolicOf s e → d ≡ e }
{
    surface_law();
}

/// What stands above the tells of a core program.
pub fn paths_law()
    // Each tell of an instant copies a tell of the surface, or tells the hidden signal of a form.
    ensures stems { (s : SurfaceProgram) (p : CoreProgram) → IsSurface s → IsExpansion s p → OnItsTree s TellsStem p }
    // A tell inside a watching waits for the absence of the watching's hidden signal.
    ensures guarded { (s : SurfaceProgram) (p : CoreProgram) → IsExpansion s p → OnItsTree s TellsAreGuarded p }
    // A tell inside a time asks for the clock.
    ensures clocked { (s : SurfaceProgram) (p : CoreProgram) → IsSurface s → IsExpansion s p → IsWellFormed p
        → OnItsTree s TellsAreClocked p }
{
    surface_law();
}

/// An output that entails the hidden signal of a watching runs no tell that stems from a form inside the watching.
pub fn watching_law()
    ensures { (s : SurfaceProgram) (p : CoreProgram) → IsExpansion s p → OnItsTree s HiddenSignalStops p }
{
    paths_law();
}

/// A tell that stems from a form inside a time is run by outputs alone that entail the clock.
pub fn clock_law()
    ensures { (s : SurfaceProgram) (p : CoreProgram) → IsSurface s → IsExpansion s p → IsWellFormed p
        → OnItsTree s RunsOnItsClock p }
{
    paths_law();
}

/// A watching that stands in no body of a watching or of a time stops for good: once an output since its start
/// entails its constraint, no tell that stems from a form inside it is run.
pub fn stops_law()
    ensures { (s : SurfaceProgram) (p : CoreProgram) → IsSurface s → IsExpansion s p → IsWellFormed p
        → OnItsTree s StopsForGood p }
{
    surface_law();
}

/// What the definitions of expansions and of the tells inside forms say of two small programs.
pub fn worked_law()
    ensures watching { WorksForWatching }
    ensures time { WorksForTime }
{}
