//! The sum of the values that a state shows.
ghost use Rattle.std.specs.Prelude.{◌≡◌, codes, option_map};
ghost use Rattle.asm_portable.specs.Ports.{fields_of};
ghost use Rattle.asm_demo.specs.Sums as spec;

use asm_portable::{Field, Port};

/// The tree under a key.
fn tree_at<'a>(key: &str, fields: &'a [Field]) -> Option<&'a Port>
    ensures { option_map (λ tree. tree.now) result ≡ spec.tree_at key.now fields.now }
{
    for field in fields {
        if key == field.key.as_str() {
            return Some(&field.tree);
        }
    }
    None
}

/// The items of a tree, none where it is no list.
fn items_of(tree: &Port) -> &[Port]
    ensures { result.now ≡ spec.items_of tree.now }
{
    match tree.items() {
        Some(items) => items,
        None => &[],
    }
}

/// The items under the key of the function.
fn items_if(functions: &Port) -> &[Port]
    ensures { result.now
        ≡ spec.items_if (spec.tree_at (codes "c") (fields_of functions.now)) }
{
    match tree_at("c", functions.fields()) {
        Some(pairs) => items_of(pairs),
        None => &[],
    }
}

/// Each list of arguments of the function with its value.
fn pairs_of(shown: &Port) -> &[Port]
    ensures { result.now ≡ spec.pairs_of shown.now }
{
    match tree_at("functions", shown.fields()) {
        Some(functions) => items_if(functions),
        None => &[],
    }
}

/// A natural number of 64 bits; all else counts as 0.
#[tactic(auto, using(asm_portable::proofs::PortLaws::tree_steps))]
fn natural_in(tree: &Port) -> u64
    ensures { result ≡ spec.natural_in tree.now }
{
    match tree {
        Port::Int(number) => match u64::try_from(*number) {
            Ok(natural) => natural,
            Err(_) => 0,
        },
        Port::Null | Port::Bool(_) | Port::Text(_) | Port::List(_) | Port::Fields(_) => 0,
    }
}

/// The value of a pair, its second item.
#[tactic(auto, unfolding(crate::specs::Sums::value_in))]
fn value_in(pair: &Port) -> u64
    ensures { result ≡ spec.value_in pair.now }
{
    match items_of(pair).get(1) {
        Some(value) => natural_in(value),
        None => 0,
    }
}

/// The sum of the values of the function that a state shows. 2^64 - 1 stands for that and more.
#[tactic(auto, using(crate::proofs::SumLaws::sum_steps), unfolding(crate::specs::Sums::sum_shown))]
pub(crate) fn sum_shown(shown: &Port) -> u64
    ensures { result ≡ spec.sum_shown shown.now }
{
    let mut sum = 0u64;
    for pair in pairs_of(shown) {
        sum = sum.saturating_add(value_in(pair));
    }
    sum
}
