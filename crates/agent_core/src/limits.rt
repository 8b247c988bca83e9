//! How large a program may be, and how long a run.
ghost use Rattle.std.specs.Prelude.{◌≡◌};
ghost use Rattle.agent_core.specs.Limits.{most_cells, most_declared_cells, most_instants, most_nodes};

/// The most nodes that a program may have.
pub const MAX_NODES: usize = 4_096;

/// The most cells that a program may have, declared and local.
pub const MAX_CELLS: usize = 1_024;

/// The most cells that a program may declare.
pub const MAX_DECLARED: usize = 256;

/// How many instants a run has at most.
pub const MAX_INSTANTS: u32 = 65_536;

/// The limits in code are those of the definitions.
pub fn limits_law()
    ensures nodes { MAX_NODES ≡ most_nodes }
    ensures cells { MAX_CELLS ≡ most_cells }
    ensures declared { MAX_DECLARED ≡ most_declared_cells }
    ensures instants { MAX_INSTANTS ≡ most_instants }
{}
