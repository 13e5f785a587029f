//! Names with what they stand for.
ghost use Rattle.std.specs.Prelude.{◌≡◌, ℕ, List, IfOk, OnOk};
ghost use Rattle.std.specs.HashMap.{get_by_text};
ghost use Rattle.asm_program.specs.Signatures.{find};
ghost use Rattle.asm_scope.specs.Index.{IsIndexOf, or_this, found_in};

use asm_base::{List, Text};
use asm_program::Named;
use indexmap::IndexMap;
use std::alloc::{AllocError, Global};
use std::marker::Model;

/// Names with what they stand for, in text order. Where a name is there twice, its first use counts.
#[derive(Drop)]
pub struct Names {
    index: IndexMap<String, Named>,
    names: List<(Text, Named)>,
}

impl Model for Names {
    ghost use Rattle.asm_program.specs.Signatures.{Names as NameList};
    ghost use Rattle.asm_scope.specs.Index.{IsIndexOf};

    ghost Value = { NameList };

    ghost view = { λ n. n.names };

    ghost invariant = { λ n. IsIndexOf n.index n.names };
}

/// A name where it isn't there yet.
#[tactic(auto, using(crate::proofs::IndexSteps::add_steps))]
fn add_name(
    alloc: Global,
    index: &mut IndexMap<String, Named>,
    name: &Text,
    named: Named,
) -> Result<(), AllocError>
    ensures { OnOk result ((q : List ℕ) →
        get_by_text index.new q
        ≡ or_this (get_by_text index.old q) (found_in (name.now, named) q)) }
{
    if index.contains_key(name.as_str()) {
        return Ok(());
    }
    index.insert(String::from_str(alloc, name.as_str())?, named)?;
    Ok(())
}

/// What each name stands for, by its first use.
#[tactic(auto, using(crate::proofs::IndexSteps::index_steps))]
fn index_of(alloc: Global, names: &[(Text, Named)]) -> Result<IndexMap<String, Named>, AllocError>
    ensures { IfOk result (λ index. IsIndexOf index names.now) }
{
    let mut index = IndexMap::new(alloc);
    for entry in names {
        add_name(alloc, &mut index, &entry.0, entry.1)?;
    }
    Ok(index)
}

impl Names {
    /// The names of a list. `AllocError` is want of memory, and then the list is dropped.
    pub fn of(alloc: Global, names: List<(Text, Named)>) -> Result<Names, AllocError>
        ensures { IfOk result (λ all. all ≡ names) }
    {
        match index_of(alloc, names.as_slice()) {
            Ok(index) => Ok(Names { index, names }),
            Err(fault) => Err(fault),
        }
    }

    /// What a name stands for; None where it isn't declared. Takes no memory.
    #[tactic(auto, using(crate::proofs::IndexSteps::found_by))]
    pub fn find(&self, name: &str) -> Option<Named>
        ensures { result ≡ find self.now name.now }
    {
        match self.index.get(name) {
            Some(named) => Some(*named),
            None => None,
        }
    }
}
