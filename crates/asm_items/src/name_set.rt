//! Sets of names.
ghost use Rattle.std.specs.Prelude.{◌≡◌, [], not, bytes_eq, IfOk, OnOk};
ghost use Rattle.std.specs.List.{list_any};
ghost use Rattle.asm_items.specs.Views.{seen_with};

use indexmap::IndexSet;
use std::alloc::{AllocError, Global};
use std::marker::Model;

/// Names, each once, the newest first. They grow by the allocator that they were made with.
#[derive(Drop)]
pub struct NameSet {
    alloc: Global,
    names: IndexSet<String>,
}

impl Model for NameSet {
    ghost use Rattle.std.specs.Prelude.{List, ℕ, map, reverse, string_bytes};

    ghost Value = { List (List ℕ) };

    ghost view = { λ n. reverse (map string_bytes n.names.keys) };
}

#[tactic(auto, using(crate::proofs::Sets::set_steps))]
impl NameSet {
    /// No names. Takes no memory.
    pub fn new(alloc: Global) -> NameSet
        ensures { result ≡ [] }
    {
        NameSet {
            alloc,
            names: IndexSet::new(alloc),
        }
    }

    /// Adds a name. `false` says that it is there already, and then nothing changes.
    pub fn insert(&mut self, name: &str) -> Result<bool, AllocError>
        ensures new { IfOk result (λ new. new ≡ not (list_any (bytes_eq name.now) self.old)) }
        ensures names { OnOk result (self.new ≡ seen_with name.now self.old) }
    {
        let new = self.names.insert(String::from_str(self.alloc, name)?)?;
        Ok(new)
    }

    /// Takes no memory.
    pub fn contains(&self, name: &str) -> bool
        ensures { result ≡ list_any (bytes_eq name.now) self.now }
    {
        self.names.contains(name)
    }
}
