//! Definitions that call one another, by their numbers from 0.
ghost use Rattle.std.specs.Prelude.{◌≡◌, ◌++◌, length, IfOk, OnOk};
ghost use Rattle.asm_calls.specs.Orders.{IsFirstRecursive, IsOrder, NoneRecursive};
ghost use Rattle.asm_calls.specs.Rows as spec;

use crate::reach::{closure, has, reached};
use asm_base::List;
use std::alloc::{AllocError, Global};

/// The first of so many definitions that reaches itself.
fn first_of(rows: &[List<u64>], count: usize) -> Option<usize>
    ensures { spec.IsFirst rows.now count result }
{
    for at in 0..count {
        if has(rows, at, at) {
            return Some(at);
        }
    }
    None
}

/// The first definition that reaches itself by calls. `calls` has for each definition the numbers
/// of those that it calls. `AllocError` is want of memory. The cost goes by the cube of the number
/// of definitions, 64 of them at a time.
#[tactic(auto, using(crate::proofs::RowLaws::first_is))]
pub fn first_recursive(alloc: Global, calls: &[List<usize>]) -> Result<Option<usize>, AllocError>
    ensures { IfOk result (IsFirstRecursive calls.now) }
{
    let rows = closure(alloc, calls)?;
    Ok(first_of(rows.as_slice(), calls.len()))
}

/// How many definitions each one reaches.
#[tactic(auto, using(crate::proofs::RowSteps::counts_steps))]
fn counts(alloc: Global, calls: &[List<usize>]) -> Result<List<usize>, AllocError>
    ensures { IfOk result (λ counts. counts ≡ spec.counts_of calls.now) }
{
    let rows = closure(alloc, calls)?;
    let mut counts = List::new(alloc);
    for at in 0..calls.len() {
        counts.push(reached(rows.as_slice(), calls.len(), at))?;
    }
    Ok(counts)
}

fn push_if(order: &mut List<usize>, whether: bool, at: usize) -> Result<(), AllocError>
    ensures { OnOk result (order.new ≡ order.old ++ spec.only_if whether at) }
{
    if whether { order.push(at) } else { Ok(()) }
}

/// Those that reach so many.
#[tactic(auto, using(crate::proofs::RowSteps::those_steps))]
fn add_those(order: &mut List<usize>, counts: &[usize], count: usize) -> Result<(), AllocError>
    ensures { OnOk result
        (order.new ≡ order.old ++ spec.those_to counts.now count (length counts.now)) }
{
    for at in 0..counts.len() {
        push_if(order, counts[at] == count, at)?;
    }
    Ok(())
}

/// By how many each one reaches.
#[tactic(auto, using(crate::proofs::RowSteps::ordered_steps))]
fn ordered(alloc: Global, counts: &[usize]) -> Result<List<usize>, AllocError>
    ensures { IfOk result (λ order. order ≡ spec.ordered_to counts.now (length counts.now)) }
{
    let mut order = List::new(alloc);
    for count in 0..counts.len() {
        add_those(&mut order, counts, count)?;
    }
    Ok(order)
}

/// Each definition once, after those that it calls, where none reaches itself: by how many each one
/// reaches. `AllocError` is want of memory. The cost is that of `first_recursive`.
#[tactic(auto, using(crate::proofs::OrderLaws::order_is))]
pub fn order(alloc: Global, calls: &[List<usize>]) -> Result<List<usize>, AllocError>
    requires { NoneRecursive calls.now }
    ensures { IfOk result (IsOrder calls.now) }
{
    let counts = counts(alloc, calls)?;
    ordered(alloc, counts.as_slice())
}
