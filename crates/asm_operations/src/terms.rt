//! What the terms for tuples, sequences, sets and intervals give of their parts' values.
ghost use Rattle.std.specs.Prelude.{◌≡◌, IfOk};
ghost use Rattle.asm_operations.specs.Terms as spec;

use crate::applied::{Applied, limited, undefined};
use crate::kinds::any_undef;
use crate::sets::add_item;
use asm_value::{List, Value};
use std::alloc::{AllocError, Global};

/// The tuple of these parts: undef where one is, TooLarge where it weighs more than 4,096.
pub fn tuple_of(parts: List<Value>) -> Applied
    ensures { result ≡ spec.tuple_of parts }
{
    if any_undef(parts.as_slice()) {
        undefined()
    } else {
        limited(Value::Tuple(parts))
    }
}

/// The sequence of these items: undef where one is, TooLarge where they are more than 256 or weigh
/// too much.
pub fn sequence_of(items: List<Value>) -> Applied
    ensures { result ≡ spec.sequence_of items }
{
    if any_undef(items.as_slice()) {
        undefined()
    } else {
        limited(Value::Seq(items))
    }
}

/// The set of a list's items, or TooLarge as soon as there are more than 256 different ones.
fn limited_set(alloc: Global, items: &[Value]) -> Result<Applied, AllocError>
    ensures { IfOk result (λ r. r ≡ spec.limited_set items.now) }
{
    let mut set = Vec::new(alloc);
    for item in items {
        add_item(alloc, &mut set, item)?;
        if set.len() > 256 {
            return Ok(Applied::TooLarge);
        }
    }
    Ok(limited(Value::Set(List::from_vec(set))))
}

/// The set of these items: undef where one is, TooLarge where the different ones are more than 256
/// or weigh too much. `AllocError` is want of memory.
pub fn set_of(alloc: Global, items: List<Value>) -> Result<Applied, AllocError>
    ensures { IfOk result (λ r. r ≡ spec.set_of items) }
{
    if any_undef(items.as_slice()) {
        Ok(undefined())
    } else {
        limited_set(alloc, items.as_slice())
    }
}

/// So many integers from one on.
fn ints_from(
    alloc: Global,
    first: i128,
    last: i128,
    count: usize,
) -> Result<List<Value>, AllocError>
    requires { spec.EndsBy first last count }
    ensures { IfOk result (λ items. items ≡ spec.ints_from first count) }
{
    let mut items = List::new(alloc);
    for step in 0..count {
        items.push(Value::Int(first + step as i128))?;
    }
    Ok(items)
}

fn interval(alloc: Global, first: i128, last: i128) -> Result<Applied, AllocError>
    ensures { IfOk result (λ r. r ≡ spec.limited_interval first last) }
{
    if last < first {
        return Ok(limited(Value::Set(List::new(alloc))));
    }
    let gap = last.abs_diff(first);
    if gap < 256 {
        Ok(limited(Value::Set(ints_from(alloc, first, last, gap as usize + 1)?)))
    } else {
        Ok(Applied::TooLarge)
    }
}

/// The set of the integers from one value to another, empty where the first is above: undef where
/// an end isn't an integer, TooLarge where they are more than 256, which aren't listed then.
/// `AllocError` is want of memory.
pub fn interval_of(alloc: Global, first: &Value, last: &Value) -> Result<Applied, AllocError>
    ensures { IfOk result (λ r. r ≡ spec.interval_of first.now last.now) }
{
    match (first.as_int(), last.as_int()) {
        (Some(first), Some(last)) => interval(alloc, first, last),
        (Some(_), None) | (None, Some(_)) | (None, None) => Ok(undefined()),
    }
}
