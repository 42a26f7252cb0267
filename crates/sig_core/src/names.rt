ghost use Rattle.std.specs.Prelude.{◌≡◌, ◌<◌, ◌-◌, take, ◌++◌, [], ◌∷◌, Some, None, length, IfSome, OnOk, OnErr};
ghost use Rattle.sig_core.specs.Names.{place_of, AreDistinct};

use crate::Bytes;
use indexmap::IndexSet;
use std::alloc::{AllocError, Global};
use std::marker::Model;

/// Distinct names in order of adding, each found by its bytes.
#[derive(Debug, Drop)]
pub struct NameTable {
    names: IndexSet<Vec<u8>>,
}

impl Model for NameTable {
    ghost use Rattle.std.specs.Prelude.{ℕ, List, map};

    ghost Value = { List (List ℕ) };

    ghost use Rattle.sig_core.specs.Names.{AreDistinct};

    ghost view = { λ t. map (λ name. name.items) t.names.keys };

    ghost invariant = { λ t. AreDistinct (map (λ name. name.items) t.names.keys) };
}

impl NameTable {
    pub fn new(alloc: Global) -> NameTable
        ensures { result ≡ [] }
    {
        NameTable {
            names: IndexSet::new(alloc),
        }
    }

    /// How many names stand.
    pub fn len(&self) -> usize
        ensures value { result ≡ length self.now }
        ensures distinct { AreDistinct self.now }
    {
        self.names.len()
    }

    /// How many names stood before this one; none if it doesn't stand.
    pub fn place(&self, name: &[u8]) -> Option<usize>
        ensures value { result ≡ place_of self.now name.now }
        ensures within { IfSome result (λ place. place < length self.now) }
    {
        self.names.get_index_of(name)
    }

    /// Puts a new name last.
    pub fn add(&mut self, name: Bytes) -> Result<(), AllocError>
        requires { place_of self.old name ≡ None }
        ensures ok { OnOk result (self.new ≡ self.old ++ name ∷ []) }
        ensures err { OnErr result (self.new ≡ self.old) }
    {
        self.names.insert(name.into_vec())?;
        Ok(())
    }

    /// Takes the last name away; nothing where none stands.
    pub fn remove_last(&mut self)
        ensures { self.new ≡ take (length self.old - 1) self.old }
    {
        self.names.pop();
    }
}
