//! Operations on integers and truth values.
ghost use Rattle.std.specs.Prelude.{◌≡◌, pos, ◌<ℤ◌};
ghost use Rattle.asm_operations.specs.Results.{bounded, checked};
ghost use Rattle.asm_operations.specs.Readers.{two_ints, two_truths};
ghost use Rattle.asm_operations.specs.Numbers as spec;

use crate::applied::{Applied, int, truth, undefined};
use asm_value::Value;

fn ints(left: &Value, right: &Value) -> Option<(i128, i128)>
    ensures { result ≡ two_ints left.now right.now }
{
    match (left.as_int(), right.as_int()) {
        (Some(left), Some(right)) => Some((left, right)),
        (Some(_), None) | (None, Some(_)) | (None, None) => None,
    }
}

/// The integer, or Overflow where there is none.
fn checked(number: Option<i128>) -> Applied
    ensures { result ≡ checked number }
{
    match number {
        Some(number) => int(number),
        None => Applied::Overflow,
    }
}

pub(crate) fn add(left: &Value, right: &Value) -> Applied
    ensures { result ≡ spec.add left.now right.now }
{
    match ints(left, right) {
        Some((left, right)) => match left.checked_add(right) {
            Some(number) => int(number),
            None => Applied::Overflow,
        },
        None => undefined(),
    }
}

pub(crate) fn subtract(left: &Value, right: &Value) -> Applied
    ensures { result ≡ spec.subtract left.now right.now }
{
    match ints(left, right) {
        Some((left, right)) => match left.checked_sub(right) {
            Some(number) => int(number),
            None => Applied::Overflow,
        },
        None => undefined(),
    }
}

pub(crate) fn multiply(left: &Value, right: &Value) -> Applied
    ensures { result ≡ spec.multiply left.now right.now }
{
    match ints(left, right) {
        Some((left, right)) => match left.checked_mul(right) {
            Some(number) => int(number),
            None => Applied::Overflow,
        },
        None => undefined(),
    }
}

/// The quotient rounded down, of a negative divisor; None where it is 2^127.
fn floored_by_negative(number: i128, divisor: i128) -> Option<i128>
    requires { divisor <ℤ pos 0 }
    ensures { bounded (spec.floored number divisor) ≡ checked result }
{
    let size = divisor.unsigned_abs();
    if number > 0 {
        Some(!(((number as u128 - 1) / size) as i128))
    } else {
        let quotient = number.unsigned_abs() / size;
        if quotient <= i128::MAX as u128 {
            Some(quotient as i128)
        } else {
            None
        }
    }
}

/// What the quotient rounded down leaves, of a negative divisor.
fn rest_by_negative(number: i128, divisor: i128) -> i128
    requires { divisor <ℤ pos 0 }
    ensures { result ≡ spec.rest number divisor }
{
    let size = divisor.unsigned_abs();
    if number > 0 {
        -((size - 1 - (number as u128 - 1) % size) as i128)
    } else {
        -((number.unsigned_abs() % size) as i128)
    }
}

pub(crate) fn divide(left: &Value, right: &Value) -> Applied
    ensures { result ≡ spec.divide left.now right.now }
{
    match ints(left, right) {
        Some((number, divisor)) => {
            if divisor == 0 {
                undefined()
            } else if divisor > 0 {
                int(number.div_euclid(divisor))
            } else {
                checked(floored_by_negative(number, divisor))
            }
        }
        None => undefined(),
    }
}

pub(crate) fn remainder(left: &Value, right: &Value) -> Applied
    ensures { result ≡ spec.remainder left.now right.now }
{
    match ints(left, right) {
        Some((number, divisor)) => {
            if divisor == 0 {
                undefined()
            } else if divisor > 0 {
                int(number.rem_euclid(divisor))
            } else {
                int(rest_by_negative(number, divisor))
            }
        }
        None => undefined(),
    }
}

pub(crate) fn negate(value: &Value) -> Applied
    ensures { result ≡ spec.negate value.now }
{
    match value.as_int() {
        Some(number) => match number.checked_neg() {
            Some(number) => int(number),
            None => Applied::Overflow,
        },
        None => undefined(),
    }
}

pub(crate) fn absolute(value: &Value) -> Applied
    ensures { result ≡ spec.absolute value.now }
{
    match value.as_int() {
        Some(number) => match number.checked_abs() {
            Some(number) => int(number),
            None => Applied::Overflow,
        },
        None => undefined(),
    }
}

pub(crate) fn least(left: &Value, right: &Value) -> Applied
    ensures { result ≡ spec.least left.now right.now }
{
    match ints(left, right) {
        Some((left, right)) => int(left.min(right)),
        None => undefined(),
    }
}

pub(crate) fn greatest(left: &Value, right: &Value) -> Applied
    ensures { result ≡ spec.greatest left.now right.now }
{
    match ints(left, right) {
        Some((left, right)) => int(left.max(right)),
        None => undefined(),
    }
}

pub(crate) fn is_less(left: &Value, right: &Value) -> Applied
    ensures { result ≡ spec.is_less left.now right.now }
{
    match ints(left, right) {
        Some((left, right)) => truth(left < right),
        None => undefined(),
    }
}

pub(crate) fn is_at_most(left: &Value, right: &Value) -> Applied
    ensures { result ≡ spec.is_at_most left.now right.now }
{
    match ints(left, right) {
        Some((left, right)) => truth(left <= right),
        None => undefined(),
    }
}

pub(crate) fn is_greater(left: &Value, right: &Value) -> Applied
    ensures { result ≡ spec.is_greater left.now right.now }
{
    match ints(left, right) {
        Some((left, right)) => truth(left > right),
        None => undefined(),
    }
}

pub(crate) fn is_at_least(left: &Value, right: &Value) -> Applied
    ensures { result ≡ spec.is_at_least left.now right.now }
{
    match ints(left, right) {
        Some((left, right)) => truth(left >= right),
        None => undefined(),
    }
}

fn truths(left: &Value, right: &Value) -> Option<(bool, bool)>
    ensures { result ≡ two_truths left.now right.now }
{
    match (left.as_truth(), right.as_truth()) {
        (Some(left), Some(right)) => Some((left, right)),
        (Some(_), None) | (None, Some(_)) | (None, None) => None,
    }
}

pub(crate) fn negation(value: &Value) -> Applied
    ensures { result ≡ spec.negation value.now }
{
    match value.as_truth() {
        Some(value) => truth(!value),
        None => undefined(),
    }
}

pub(crate) fn differ(left: &Value, right: &Value) -> Applied
    ensures { result ≡ spec.differ left.now right.now }
{
    match truths(left, right) {
        Some((left, right)) => truth(left != right),
        None => undefined(),
    }
}

pub(crate) fn agree(left: &Value, right: &Value) -> Applied
    ensures { result ≡ spec.agree left.now right.now }
{
    match truths(left, right) {
        Some((left, right)) => truth(left == right),
        None => undefined(),
    }
}
