//! What models offer each other.
ghost use Rattle.std.specs.Prelude.{◌≡◌, IfOk};
ghost use Rattle.asm_compose.specs.Offers.{location_cmp, given_cmp};

use asm_base::{List, Text};
use asm_portable::{Port, compare_trees};
use std::alloc::{AllocError, Global};
use std::cmp::Ordering;

/// One location that is offered, by the name of its function, with its value.
#[derive(Debug, Drop)]
pub struct Given {
    pub function: Text,
    pub args: List<Port>,
    pub value: Port,
}

/// Equal trees, in their order. `AllocError` is want of memory.
pub(crate) fn copy_trees(alloc: Global, trees: &[Port]) -> Result<List<Port>, AllocError>
    ensures { IfOk result (λ copies. copies ≡ trees.now) }
{
    let mut copies = List::new(alloc);
    for tree in trees {
        copies.push(tree.copy(alloc)?)?;
    }
    Ok(copies)
}

impl Given {
    /// The same location with the same value, in memory of its own. `AllocError` is want of memory.
    pub fn copy(&self, alloc: Global) -> Result<Given, AllocError>
        ensures { IfOk result (λ given. given ≡ self.now) }
    {
        Ok(Given {
            function: self.function.copy(alloc)?,
            args: copy_trees(alloc, self.args.as_slice())?,
            value: self.value.copy(alloc)?,
        })
    }

    /// The order of locations: by function, then by arguments. Takes no memory.
    pub fn compare_location(&self, other: &Given) -> Ordering
        ensures { result ≡ location_cmp self.now other.now }
    {
        self.function
            .cmp(&other.function)
            .then(compare_trees(self.args.as_slice(), other.args.as_slice()))
    }

    /// The order of what is offered: by location, then by value. Equal exactly for equal ones. Takes
    /// no memory.
    pub fn compare(&self, other: &Given) -> Ordering
        ensures { result ≡ given_cmp self.now other.now }
    {
        self.compare_location(other)
            .then(self.value.compare(&other.value))
    }
}
