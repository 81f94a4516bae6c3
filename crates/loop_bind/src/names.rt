use indexmap::IndexMap;
use std::alloc::{AllocError, Global};
use std::marker::Model;

/// Names, each with what it stands for, in the order in which they came. No name stands twice.
#[derive(Drop)]
pub struct Names<T> {
    entries: IndexMap<Vec<u8>, T>,
}

impl<T> Model for Names<T> {
    ghost use Rattle.std.specs.Prelude.{ℕ, List, map};
    ghost use Rattle.std.specs.Coded.{coded_list, coded×, coded_ℕ};

    ghost Value = { List (List ℕ × T) };

    ghost coded = { coded_list (coded× (coded_list coded_ℕ) T.code) };

    ghost view = { λ n. map (λ e. (e.0.items, e.1)) n.entries.entries };
}

impl<T: Copy> Names<T> {
    ghost use Rattle.std.specs.Prelude.{◌≡◌, ◌++◌, ◌∷◌, [], length, take, IfOk, OnErr};
    ghost use Rattle.loop_bind.specs.Names.{value_named, Adds};

    /// No names.
    pub fn new(alloc: Global) -> Names<T>
        ensures { result ≡ [] }
    {
        Names {
            entries: IndexMap::new(alloc),
        }
    }

    /// The number of names.
    pub fn len(&self) -> usize
        ensures { result ≡ length self.now }
    {
        self.entries.len()
    }

    /// What a name stands for, if it is there.
    pub fn find(&self, name: &[u8]) -> Option<T>
        ensures { result ≡ value_named self.now name.now }
    {
        self.entries.get(name).copied()
    }

    /// Puts a name at the end. It answers false and changes nothing exactly where the name
    /// is there.
    pub fn add(&mut self, alloc: Global, name: &[u8], value: T) -> Result<bool, AllocError>
        ensures ok { IfOk result (λ added. Adds self.old self.new name.now value added) }
        ensures err { OnErr result (self.new ≡ self.old) }
    {
        if self.entries.get(name).is_some() {
            return Ok(false);
        }
        let key = Vec::from_slice(alloc, name)?;
        self.entries.insert(key, value)?;
        Ok(true)
    }

    /// Keeps the first `len` names.
    pub fn truncate(&mut self, len: usize)
        ensures { self.new ≡ take len self.old }
    {
        self.entries.truncate(len);
    }
}
