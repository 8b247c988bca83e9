//! The names in scope, each with what it means.
ghost use Rattle.std.specs.Prelude.{◌≡◌, ◌∷◌, [], ℕ, IsSome, List, OnOk, bytes_eq};
ghost use Rattle.std.specs.Map.{update};
ghost use Rattle.tdcc_reader.specs.Meanings.{indexed, meaning_of};
ghost use Rattle.tdcc_reader.specs.Passes.{less_first};

use std::alloc::{AllocError, Global};
use std::collections::BTreeMap;
use std::marker::Model;

/// A name with its meaning, and with what it meant before.
#[derive(Clone, Copy, Debug)]
struct Named<'a, T> {
    name: &'a [u8],
    meaning: T,
    hidden: Option<T>,
}

/// The names in scope. The newest meaning of a name counts.
#[derive(Debug, Drop)]
pub(crate) struct Scope<'a, T> {
    named: Vec<Named<'a, T>>,
    /// What each name means.
    newest: BTreeMap<&'a [u8], T>,
}

impl<'a, T> Model for Scope<'a, T> {
    ghost use Rattle.std.specs.Prelude.{List, ℕ, map, reverse};

    ghost Value = { List (List ℕ × T) };

    ghost use Rattle.tdcc_reader.specs.Meanings.{IsIndexed, named_view};

    ghost view = { λ s. map named_view (reverse s.named.items) };

    ghost invariant = { λ s. IsIndexed s.named.items s.newest };
}

/// Gives a name that has a meaning the one that it had before.
fn restore<'a, T: Copy>(newest: &mut BTreeMap<&'a [u8], T>, name: &'a [u8], before: Option<T>)
    requires { IsSome (indexed newest.old name.now) }
    ensures { (x : List ℕ) → indexed newest.new x ≡ update bytes_eq (indexed newest.old) name.now before x }
{
    match before {
        Some(meaning) => {
            if let Some(held) = newest.get_mut(name) {
                *held = meaning;
            }
        }
        None => {
            let _ = newest.remove(name);
        }
    }
}

impl<'a, T: Copy> Scope<'a, T> {
    /// No names.
    pub(crate) fn new(alloc: Global) -> Scope<'a, T>
        ensures { result ≡ [] }
    {
        Scope {
            named: Vec::new(alloc),
            newest: BTreeMap::new(alloc),
        }
    }

    /// What the name means, if it is in scope.
    pub(crate) fn meaning(&self, name: &'a [u8]) -> Option<T>
        ensures { result ≡ meaning_of self.now name.now }
    {
        self.newest.get(name).copied()
    }

    /// Puts a name into the scope. It hides what the name meant before.
    pub(crate) fn enter(&mut self, name: &'a [u8], meaning: T) -> Result<(), AllocError>
        ensures { OnOk result (self.new ≡ (name.now, meaning) ∷ self.old) }
    {
        let hidden = self.meaning(name);
        self.named.push(Named {
            name,
            meaning,
            hidden,
        })?;
        match self.newest.insert(name, meaning) {
            Ok(_) => Ok(()),
            Err(_) => {
                let _ = self.named.pop();
                Err(AllocError)
            }
        }
    }

    /// Matches the newest name out of the scope, if there is one.
    pub(crate) fn leave(&mut self)
        ensures { self.new ≡ less_first self.old }
    {
        if let Some(last) = self.named.pop() {
            restore(&mut self.newest, last.name, last.hidden);
        }
    }
}
