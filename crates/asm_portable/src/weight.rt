//! The weight of a tree.
ghost use Rattle.std.specs.Prelude.{◌≡◌, ◌+◌, ◌-◌, ◌^◌, min, sum_by};
ghost use Rattle.asm_portable.specs.Weights as spec;
ghost use Rattle.asm_portable.specs.Weights.{whole_weight, fields_weight};

use crate::port::{Field, Port};

#[tactic(auto, using(crate::proofs::WeightLaws::weight_steps))]
impl Port {
    /// The weight in units, which are this project's own: a text 1 and 1 more for each whole 32
    /// bytes; a list 1 and its items; fields 1 and, for each, its key and its tree; all else 1.
    /// 2^64 - 1 stands for that and more. Takes no memory.
    #[cycle(weight)]
    pub fn weight(&self) -> u64
        ensures { result ≡ spec.weight self.now }
    {
        match self {
            Port::Null | Port::Bool(_) | Port::Int(_) => 1,
            Port::Text(text) => text.weight(),
            Port::List(trees) => one_and_trees(trees.as_slice()),
            Port::Fields(fields) => one_and_fields(fields.as_slice()),
        }
    }
}

/// 1 and the trees. 2^64 - 1 stands for that and more.
#[cycle(weight)]
fn one_and_trees(trees: &[Port]) -> u64
    ensures { result ≡ min (1 + sum_by whole_weight trees.now) (2 ^ 64 - 1) }
{
    let mut total = 1u64;
    for tree in trees {
        total = total.saturating_add(tree.weight());
    }
    total
}

/// 1 and the keys and trees of the fields. 2^64 - 1 stands for that and more.
#[cycle(weight)]
fn one_and_fields(fields: &[Field]) -> u64
    ensures { result ≡ min (1 + fields_weight fields.now) (2 ^ 64 - 1) }
{
    let mut total = 1u64;
    for field in fields {
        total = total.saturating_add(field.key.weight());
        total = total.saturating_add(field.tree.weight());
    }
    total
}
