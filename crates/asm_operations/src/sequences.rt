//! Operations on sequences and tuples.
ghost use Rattle.std.specs.Prelude.{◌≡◌, [], ◌∷◌, ◌++◌, IfOk, OnOk};
ghost use Rattle.asm_operations.specs.Sequences as spec;
ghost use Rattle.asm_operations.specs.Readers as reader;

use crate::applied::{Applied, count, truth, undefined};
use crate::kinds::{is_seq, is_tuple, item};
use crate::sets::{set_items, set_value};
use asm_value::{List, Value, copy_all};
use std::alloc::{AllocError, Global};

/// A copy of the item at a place from 0; undef where there is none.
fn copied_item(alloc: Global, items: &[Value], at: usize) -> Result<Applied, AllocError>
    ensures { IfOk result (λ r. r ≡ spec.plain (reader.item items.now at)) }
{
    let undef = Value::Undef;
    Ok(Applied::Value(item(items, at, &undef).copy(alloc)?))
}

fn seq_value(items: List<Value>) -> Applied
    ensures { result ≡ spec.seq_value items }
{
    Applied::Value(Value::Seq(items))
}

/// Adds copies of items at the end of a list.
fn add_copies(alloc: Global, list: &mut List<Value>, more: &[Value]) -> Result<(), AllocError>
    ensures { OnOk result (list.new ≡ list.old ++ more.now) }
{
    for item in more {
        list.push(item.copy(alloc)?)?;
    }
    Ok(())
}

pub(crate) fn seq_length(seq: &Value) -> Applied
    ensures { result ≡ spec.seq_length seq.now }
{
    if is_seq(seq) {
        count(seq.parts().len())
    } else {
        undefined()
    }
}

pub(crate) fn first(alloc: Global, seq: &Value) -> Result<Applied, AllocError>
    ensures { IfOk result (λ r. r ≡ spec.first seq.now) }
{
    if is_seq(seq) {
        copied_item(alloc, seq.parts(), 0)
    } else {
        Ok(undefined())
    }
}

pub(crate) fn last(alloc: Global, seq: &Value) -> Result<Applied, AllocError>
    ensures { IfOk result (λ r. r ≡ spec.last seq.now) }
{
    if is_seq(seq) {
        let items = seq.parts();
        copied_item(alloc, items, items.len().saturating_sub(1))
    } else {
        Ok(undefined())
    }
}

fn tail_of(alloc: Global, items: &[Value]) -> Result<Applied, AllocError>
    ensures { IfOk result (λ r. r ≡ spec.tail_of items.now) }
{
    match items {
        [] => Ok(undefined()),
        [_, rest @ ..] => Ok(seq_value(copy_all(alloc, rest)?)),
    }
}

pub(crate) fn tail(alloc: Global, seq: &Value) -> Result<Applied, AllocError>
    ensures { IfOk result (λ r. r ≡ spec.tail seq.now) }
{
    if is_seq(seq) {
        tail_of(alloc, seq.parts())
    } else {
        Ok(undefined())
    }
}

fn item_at(alloc: Global, items: &[Value], position: i128) -> Result<Applied, AllocError>
    ensures { IfOk result (λ r. r ≡ spec.plain (spec.item_at items.now position)) }
{
    if position < 0 || position >= items.len() as i128 {
        Ok(undefined())
    } else {
        copied_item(alloc, items, position as usize)
    }
}

pub(crate) fn at(alloc: Global, seq: &Value, position: &Value) -> Result<Applied, AllocError>
    ensures { IfOk result (λ r. r ≡ spec.at seq.now position.now) }
{
    if is_seq(seq) {
        match position.as_int() {
            Some(position) => item_at(alloc, seq.parts(), position),
            None => Ok(undefined()),
        }
    } else {
        Ok(undefined())
    }
}

/// The items and one more at the end.
fn with_last(alloc: Global, items: &[Value], last: &Value) -> Result<List<Value>, AllocError>
    ensures { IfOk result (λ all. all ≡ items.now ++ last.now ∷ []) }
{
    let mut all = copy_all(alloc, items)?;
    all.push(last.copy(alloc)?)?;
    Ok(all)
}

/// The items and one more before them.
fn with_first(alloc: Global, first: &Value, items: &[Value]) -> Result<List<Value>, AllocError>
    ensures { IfOk result (λ all. all ≡ first.now ∷ items.now) }
{
    let mut all = List::only(alloc, first.copy(alloc)?)?;
    add_copies(alloc, &mut all, items)?;
    Ok(all)
}

/// The items of both lists.
fn both(alloc: Global, items: &[Value], more: &[Value]) -> Result<List<Value>, AllocError>
    ensures { IfOk result (λ all. all ≡ items.now ++ more.now) }
{
    let mut all = copy_all(alloc, items)?;
    add_copies(alloc, &mut all, more)?;
    Ok(all)
}

pub(crate) fn append(alloc: Global, seq: &Value, last: &Value) -> Result<Applied, AllocError>
    ensures { IfOk result (λ r. r ≡ spec.append seq.now last.now) }
{
    if is_seq(seq) {
        Ok(seq_value(with_last(alloc, seq.parts(), last)?))
    } else {
        Ok(undefined())
    }
}

pub(crate) fn prepend(alloc: Global, first: &Value, seq: &Value) -> Result<Applied, AllocError>
    ensures { IfOk result (λ r. r ≡ spec.prepend first.now seq.now) }
{
    if is_seq(seq) {
        Ok(seq_value(with_first(alloc, first, seq.parts())?))
    } else {
        Ok(undefined())
    }
}

pub(crate) fn joined(alloc: Global, left: &Value, right: &Value) -> Result<Applied, AllocError>
    ensures { IfOk result (λ r. r ≡ spec.joined left.now right.now) }
{
    if is_seq(left) && is_seq(right) {
        Ok(seq_value(both(alloc, left.parts(), right.parts())?))
    } else {
        Ok(undefined())
    }
}

pub(crate) fn is_empty(seq: &Value) -> Applied
    ensures { result ≡ spec.is_empty seq.now }
{
    if is_seq(seq) {
        truth(seq.parts().is_empty())
    } else {
        undefined()
    }
}

pub(crate) fn as_set(alloc: Global, seq: &Value) -> Result<Applied, AllocError>
    ensures { IfOk result (λ r. r ≡ spec.as_set seq.now) }
{
    if is_seq(seq) {
        Ok(set_value(set_items(alloc, seq.parts())?))
    } else {
        Ok(undefined())
    }
}

/// The part of a tuple at a place from 0.
pub(crate) fn part(alloc: Global, tuple: &Value, at: usize) -> Result<Applied, AllocError>
    ensures { IfOk result (λ r. r ≡ spec.part at tuple.now) }
{
    if is_tuple(tuple) {
        copied_item(alloc, tuple.parts(), at)
    } else {
        Ok(undefined())
    }
}
