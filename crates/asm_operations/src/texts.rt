//! Operations on strings, and those that give one.
ghost use Rattle.std.specs.Prelude.{◌≡◌, IfOk};
ghost use Rattle.asm_value.specs.Value.{bytes_of};
ghost use Rattle.asm_operations.specs.Texts as spec;

use crate::applied::{Applied, count, truth, undefined};
use crate::kinds::chars_of;
use asm_base::Text;
use asm_value::Value;
use std::alloc::{AllocError, Global};
use std::cmp::Ordering;

/// The order of two strings' bytes.
fn order(left: &Value, right: &Value) -> Ordering
    ensures { result ≡ spec.text_order (bytes_of left.now) (bytes_of right.now) }
{
    chars_of(left).cmp(chars_of(right))
}

pub(crate) fn is_less(left: &Value, right: &Value) -> Applied
    ensures { result ≡ spec.is_less left.now right.now }
{
    if left.is_chars() && right.is_chars() {
        truth(order(left, right).is_lt())
    } else {
        undefined()
    }
}

pub(crate) fn is_at_most(left: &Value, right: &Value) -> Applied
    ensures { result ≡ spec.is_at_most left.now right.now }
{
    if left.is_chars() && right.is_chars() {
        truth(order(left, right).is_le())
    } else {
        undefined()
    }
}

pub(crate) fn is_greater(left: &Value, right: &Value) -> Applied
    ensures { result ≡ spec.is_greater left.now right.now }
{
    if left.is_chars() && right.is_chars() {
        truth(order(left, right).is_gt())
    } else {
        undefined()
    }
}

pub(crate) fn is_at_least(left: &Value, right: &Value) -> Applied
    ensures { result ≡ spec.is_at_least left.now right.now }
{
    if left.is_chars() && right.is_chars() {
        truth(order(left, right).is_ge())
    } else {
        undefined()
    }
}

fn text(text: Text) -> Applied
    ensures { result ≡ spec.text text }
{
    Applied::Value(Value::Chars(text))
}

pub(crate) fn joined(alloc: Global, left: &Value, right: &Value) -> Result<Applied, AllocError>
    ensures { IfOk result (λ r. r ≡ spec.joined left.now right.now) }
{
    if left.is_chars() && right.is_chars() {
        let mut all = Text::from_str(alloc, chars_of(left))?;
        all.push_str(chars_of(right))?;
        Ok(text(all))
    } else {
        Ok(undefined())
    }
}

pub(crate) fn chars_length(value: &Value) -> Applied
    ensures { result ≡ spec.chars_length value.now }
{
    if value.is_chars() {
        count(chars_of(value).chars().count())
    } else {
        undefined()
    }
}

pub(crate) fn int_text(alloc: Global, value: &Value) -> Result<Applied, AllocError>
    ensures { IfOk result (λ r. r ≡ spec.int_text value.now) }
{
    match value.as_int() {
        Some(number) => Ok(text(Text::from_string(format!(in alloc; "{number}")?))),
        None => Ok(undefined()),
    }
}

pub(crate) fn truth_text(alloc: Global, value: &Value) -> Result<Applied, AllocError>
    ensures { IfOk result (λ r. r ≡ spec.truth_text value.now) }
{
    match value.as_truth() {
        Some(truth) => {
            let word = if truth { "true" } else { "false" };
            Ok(text(Text::from_str(alloc, word)?))
        }
        None => Ok(undefined()),
    }
}
