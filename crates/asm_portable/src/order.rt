//! The order of portable trees.
ghost use Rattle.std.specs.Prelude.{◌≡◌};
ghost use Rattle.std.specs.Cmp.Lexicographic.{slice_cmp};
ghost use Rattle.asm_portable.specs.Order as spec;
ghost use Rattle.asm_portable.specs.Order.{port_cmp, field_cmp};

use crate::port::{Field, Port};
use std::cmp::Ordering;

#[tactic(auto, using(crate::proofs::PortOrder::order_steps))]
impl Port {
    fn kind(&self) -> u8
        ensures { result ≡ spec.kind_of self.now }
    {
        match self {
            Port::Null => 0,
            Port::Bool(_) => 1,
            Port::Int(_) => 2,
            Port::Text(_) => 3,
            Port::List(_) => 4,
            Port::Fields(_) => 5,
        }
    }

    /// False is 0 and true is 1.
    fn number(&self) -> i128
        ensures { result ≡ spec.number_of self.now }
    {
        match self {
            Port::Bool(truth) => i128::from(*truth),
            Port::Int(number) => *number,
            Port::Null | Port::Text(_) | Port::List(_) | Port::Fields(_) => 0,
        }
    }

    fn bytes(&self) -> &[u8]
        ensures { result.now ≡ spec.bytes_of self.now }
    {
        match self {
            Port::Text(text) => text.as_str().as_bytes(),
            Port::Null | Port::Bool(_) | Port::Int(_) | Port::List(_) | Port::Fields(_) => &[],
        }
    }

    fn trees(&self) -> &[Port]
        ensures { result.now ≡ spec.items_of self.now }
    {
        match self {
            Port::List(trees) => trees.as_slice(),
            Port::Null | Port::Bool(_) | Port::Int(_) | Port::Text(_) | Port::Fields(_) => &[],
        }
    }

    fn compare_head(&self, other: &Port) -> Ordering
        ensures { result ≡ spec.compare_head self.now other.now }
    {
        self.kind()
            .cmp(&other.kind())
            .then(self.number().cmp(&other.number()))
            .then(self.bytes().cmp(&other.bytes()))
    }

    /// The order of trees: by kind in the order of the variants, then false before true, integers
    /// by number, texts by bytes, lists item by item and fields pair by pair, key before tree, with
    /// a prefix first. Equal exactly for equal ones. Takes no memory.
    #[cycle(compare)]
    pub fn compare(&self, other: &Port) -> Ordering
        ensures { result ≡ port_cmp self.now other.now }
    {
        match self.compare_head(other) {
            Ordering::Equal => match self {
                Port::List(trees) => compare_trees(trees.as_slice(), other.trees()),
                Port::Fields(fields) => compare_fields(fields.as_slice(), other.fields()),
                Port::Null | Port::Bool(_) | Port::Int(_) | Port::Text(_) => Ordering::Equal,
            },
            unequal => unequal,
        }
    }
}

/// The order of lists of trees: item by item, a prefix first. Takes no memory.
#[cycle(compare)]
pub fn compare_trees(trees: &[Port], others: &[Port]) -> Ordering
    ensures { result ≡ slice_cmp port_cmp trees.now others.now }
{
    for at in 0..trees.len() {
        if at >= others.len() {
            return Ordering::Greater;
        }
        match trees[at].compare(&others[at]) {
            Ordering::Equal => {}
            unequal => return unequal,
        }
    }
    if trees.len() < others.len() {
        Ordering::Less
    } else {
        Ordering::Equal
    }
}

#[cycle(compare)]
fn compare_fields(fields: &[Field], others: &[Field]) -> Ordering
    ensures { result ≡ slice_cmp field_cmp fields.now others.now }
{
    for at in 0..fields.len() {
        if at >= others.len() {
            return Ordering::Greater;
        }
        match compare_field(&fields[at], &others[at]) {
            Ordering::Equal => {}
            unequal => return unequal,
        }
    }
    if fields.len() < others.len() {
        Ordering::Less
    } else {
        Ordering::Equal
    }
}

#[cycle(compare)]
fn compare_field(field: &Field, other: &Field) -> Ordering
    ensures { result ≡ field_cmp field.now other.now }
{
    match field.key.cmp(&other.key) {
        Ordering::Equal => field.tree.compare(&other.tree),
        unequal => unequal,
    }
}
