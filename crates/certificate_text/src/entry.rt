//! An entry of a certificate: what is shown of one instant.
ghost use Rattle.std.specs.Prelude.{◌≡◌};

use std::marker::Model;
use token_system::Store;

/// The numbers of the leaves that tell, in their order.
#[derive(Debug, Drop)]
pub struct RunList {
    list: Vec<u32>,
}

impl Model for RunList {
    ghost use Rattle.std.specs.Prelude.{List, ℕ};

    ghost Value = { List ℕ };

    ghost view = { λ r. r.list.items };
}

impl RunList {
    /// The list of these numbers.
    pub fn make(list: Vec<u32>) -> RunList
        ensures { result ≡ list.items }
    {
        RunList { list }
    }

    /// The numbers, in their order.
    pub fn list(&self) -> &[u32]
        ensures { result.now ≡ self.now }
    {
        self.list.as_slice()
    }
}

/// What is shown of one instant: its input, its output, and the leaves that tell.
#[derive(Debug, Drop)]
pub struct Entry {
    pub input: Store,
    pub out: Store,
    pub run: RunList,
}
