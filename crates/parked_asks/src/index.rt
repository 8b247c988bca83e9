//! Lists of numbers, each found by its key.
ghost use Rattle.std.specs.Prelude.{◌≡◌, ◌<◌, ◌++◌, ◌∷◌, [], IfOk, OnOk, length, replicate, set, slice_index_or};

use smallvec::SmallVec;
use std::alloc::Global;
use std::marker::Model;
use token_system::Memory;

/// How many numbers a list has room for without memory of its own.
const SHORT: usize = 4;

/// A list of numbers for each key. Keys are counted from 0.
#[derive(Debug, Drop)]
pub struct Index {
    lists: Vec<SmallVec<u32, SHORT>>,
}

impl Model for Index {
    ghost use Rattle.std.specs.Prelude.{List, ℕ, map};

    ghost Value = { List (List ℕ) };

    ghost view = { λ x. map (λ l. l.items) x.lists.items };
}

impl Index {
    /// An empty list for each of so many keys.
    pub(crate) fn empty(alloc: Global, keys: u32) -> Result<Index, Memory>
        ensures { IfOk result (λ index. index ≡ replicate keys []) }
    {
        let mut lists = Vec::with_capacity(alloc, keys as usize)?;
        for _key in 0..keys {
            lists.push(SmallVec::new(alloc))?;
        }
        Ok(Index { lists })
    }

    /// The list of the key.
    pub fn of(&self, key: u32) -> &[u32]
        requires { key < length self.now }
        ensures { result.now ≡ slice_index_or self.now key [] }
    {
        self.lists[key as usize].as_slice()
    }

    /// Appends the number to the list of the key. The other lists stay.
    pub(crate) fn push(&mut self, key: u32, number: u32) -> Result<(), Memory>
        requires { key < length self.old }
        ensures { OnOk result (self.new ≡ set self.old key (slice_index_or self.old key [] ++ number ∷ [])) }
    {
        self.lists[key as usize].push(number)?;
        Ok(())
    }
}
