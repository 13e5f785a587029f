//! All tuples over given lists, and all sets over one: what the ranges of domains are made of.
ghost use Rattle.std.specs.Prelude.{◌≡◌, ◌++◌, ◌∷◌, OnOk, IfOk};
ghost use Rattle.asm_value.specs.Ranges as spec;

use crate::value::{Value, copy_all};
use asm_base::List;
use std::alloc::{AllocError, Global};

/// The list with one more item before it.
fn with_first(alloc: Global, first: &Value, items: &[Value]) -> Result<List<Value>, AllocError>
    ensures { IfOk result (λ list. list ≡ first.now ∷ items.now) }
{
    let mut list = List::new(alloc);
    list.push(first.copy(alloc)?)?;
    for item in items {
        list.push(item.copy(alloc)?)?;
    }
    Ok(list)
}

/// Appends each list with one more item before it.
fn put_first(
    alloc: Global,
    first: &Value,
    lists: &[List<Value>],
    all: &mut List<List<Value>>,
) -> Result<(), AllocError>
    ensures { OnOk result (all.new ≡ all.old ++ spec.put_first first.now lists.now) }
{
    for list in lists {
        all.push(with_first(alloc, first, list.as_slice())?)?;
    }
    Ok(())
}

/// All lists that take one item from each of the lists, the first item slowest; so they ascend
/// where the lists do. No lists at all give the empty list alone. `AllocError` is want of memory.
pub fn tuples(alloc: Global, ranges: &[List<Value>]) -> Result<List<List<Value>>, AllocError>
    ensures { IfOk result (λ all. all ≡ spec.tuples ranges.now) }
{
    let mut all = List::new(alloc);
    match ranges {
        [] => {
            all.push(List::new(alloc))?;
            Ok(all)
        }
        [first, rest @ ..] => {
            let others = tuples(alloc, rest)?;
            for item in first.as_slice() {
                put_first(alloc, item, others.as_slice(), &mut all)?;
            }
            Ok(all)
        }
    }
}

/// Appends equal lists, in their order.
fn append(
    alloc: Global,
    lists: &[List<Value>],
    all: &mut List<List<Value>>,
) -> Result<(), AllocError>
    ensures { OnOk result (all.new ≡ all.old ++ lists.now) }
{
    for list in lists {
        all.push(copy_all(alloc, list.as_slice())?)?;
    }
    Ok(())
}

/// All sublists of the items, the empty one first. Of ascending items they ascend and are the sets
/// over the items, each once. `AllocError` is want of memory.
pub fn sets_of(alloc: Global, items: &[Value]) -> Result<List<List<Value>>, AllocError>
    ensures { IfOk result (λ all. all ≡ spec.sets_of items.now) }
{
    let mut all = List::only(alloc, List::new(alloc))?;
    if let [first, rest @ ..] = items {
        let others = sets_of(alloc, rest)?;
        put_first(alloc, first, others.as_slice(), &mut all)?;
        append(alloc, &others.as_slice()[1..], &mut all)?;
    }
    Ok(all)
}
