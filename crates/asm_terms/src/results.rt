//! What terms give: the words of the definitions that need no evaluation.
ghost use Rattle.std.specs.Prelude.{◌≡◌};
ghost use Rattle.asm_value.specs.Living as living;
ghost use Rattle.asm_program.specs.Meaning as meaning;

use asm_operations::Applied;
use asm_program::{Fault, FaultKind, Outcome};
use asm_syntax::Span;
use asm_value::Value;

/// What several terms give, one after another: all values, or the first fault.
#[derive(Drop)]
pub enum Evaluated {
    Values(Vec<Value>),
    Fault(Fault),
}

/// Whether the value is the truth value true, as a guard has to be. Takes no memory.
pub fn is_true(value: &Value) -> bool
    ensures { result ≡ living.is_true value.now }
{
    value.as_truth().unwrap_or(false)
}

pub fn is_false(value: &Value) -> bool
    ensures { result ≡ meaning.is_false value.now }
{
    match value.as_truth() {
        Some(truth) => !truth,
        None => false,
    }
}

pub fn truth(truth: bool) -> Outcome
    ensures { result ≡ meaning.truth truth }
{
    Outcome::Value(Value::Truth(truth))
}

pub fn undefined() -> Outcome
    ensures { result ≡ meaning.undefined }
{
    Outcome::Value(Value::Undef)
}

/// `and` where the left side isn't false.
pub fn conjunction(left: &Value, right: &Value) -> Outcome
    ensures { result ≡ meaning.conjunction left.now right.now }
{
    if is_false(right) {
        truth(false)
    } else if is_true(left) && is_true(right) {
        truth(true)
    } else {
        undefined()
    }
}

/// `or` where the left side isn't true.
pub fn disjunction(left: &Value, right: &Value) -> Outcome
    ensures { result ≡ meaning.disjunction left.now right.now }
{
    if is_true(right) {
        truth(true)
    } else if is_false(left) && is_false(right) {
        truth(false)
    } else {
        undefined()
    }
}

/// `implies` where the left side isn't false.
pub fn implication(left: &Value, right: &Value) -> Outcome
    ensures { result ≡ meaning.implication left.now right.now }
{
    if is_true(right) {
        truth(true)
    } else if is_true(left) && is_false(right) {
        truth(false)
    } else {
        undefined()
    }
}

/// What an operation gives at its place in the text.
pub fn of_applied(span: Span, applied: Applied) -> Outcome
    ensures { result ≡ meaning.of_applied span applied }
{
    match applied {
        Applied::Value(value) => Outcome::Value(value),
        Applied::Overflow => Outcome::Fault(Fault {
            kind: FaultKind::Overflow,
            span,
        }),
        Applied::TooLarge => Outcome::Fault(Fault {
            kind: FaultKind::ValueTooLarge,
            span,
        }),
    }
}
