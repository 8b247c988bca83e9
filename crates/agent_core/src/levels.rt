//! A number for each cell of a program.
ghost use Rattle.std.specs.Prelude.{◌≡◌, ◌<◌, All};
ghost use Rattle.agent_core.specs.StrataCounts.{strata_of};
ghost use Rattle.agent_core.specs.Limits.{most_cells};

use std::marker::Model;

/// A number for each cell of a program, in the order of its cells.
#[derive(Debug, Drop)]
pub struct Levels {
    list: Vec<u32>,
}

impl Model for Levels {
    ghost use Rattle.std.specs.Prelude.{List, ℕ, ◌<◌, All};
    ghost use Rattle.agent_core.specs.Limits.{most_cells};

    ghost Value = { List ℕ };

    ghost view = { λ l. l.list.items };

    ghost invariant = { λ l. All (λ n. n < most_cells) l.list.items };
}

impl Levels {
    /// The table of these numbers.
    pub fn make(list: Vec<u32>) -> Levels
        requires { All (λ n. n < most_cells) list.items }
        ensures { result ≡ list.items }
    {
        Levels { list }
    }

    /// The numbers, one for each cell.
    pub fn list(&self) -> &[u32]
        ensures all { result.now ≡ self.now }
        ensures small { All (λ n. n < most_cells) self.now }
    {
        self.list.as_slice()
    }

    /// How many strata there are: the greatest of the numbers plus one, or 0 where there are none.
    pub fn strata(&self) -> u32
        ensures { result ≡ strata_of self.now }
    {
        let mut strata = 0;
        for level in self.list() {
            strata = strata.max(*level + 1);
        }
        strata
    }
}
