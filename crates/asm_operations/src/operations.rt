//! The operation of each row of the operators' table.
ghost use Rattle.std.specs.Prelude.{◌≡◌, IfOk};
ghost use Rattle.asm_operations.specs.Operations as spec;

use crate::applied::{Applied, truth, undefined, within_limits};
use crate::kinds::{any_undef, item};
use crate::{numbers, sequences, sets, texts};
use asm_tables::{Operation, operator_rows};
use asm_value::Value;
use std::alloc::{AllocError, Global};

macro_rules! arguments_of {
    (One) => {
        1
    };
    (Two) => {
        2
    };
}

macro_rules! arguments_of_each {
    (() $($row:ident $name:ident $count:ident($($kind:ident),*) $rule:ident),*) => {
        [$(arguments_of!($count)),*]
    };
}

/// How many arguments each row has.
const ARITIES: [usize; 52] = operator_rows!(arguments_of_each!());

/// How many arguments the row has.
fn arity(operation: Operation) -> usize
    ensures { result ≡ spec.arity operation }
{
    ARITIES[operation as usize]
}

macro_rules! strictness_of {
    (Equal) => {
        false
    };
    (NotEqual) => {
        false
    };
    (IsDef) => {
        false
    };
    (IsUndef) => {
        false
    };
    ($row:ident) => {
        true
    };
}

macro_rules! strictness_of_each {
    (() $($row:ident $name:ident $count:ident($($kind:ident),*) $rule:ident),*) => {
        [$(strictness_of!($row)),*]
    };
}

/// Whether each row is undef where an argument is.
const STRICT: [bool; 52] = operator_rows!(strictness_of_each!());

/// Whether the row is undef where an argument is.
fn is_strict(operation: Operation) -> bool
    ensures { result ≡ spec.is_strict operation }
{
    STRICT[operation as usize]
}

/// What the row computes, in the order of the table. Of one argument it is `left`.
fn meaning(
    alloc: Global,
    operation: Operation,
    left: &Value,
    right: &Value,
) -> Result<Applied, AllocError>
    ensures { IfOk result (λ r. r ≡ spec.meaning operation left.now right.now) }
{
    match operation {
        Operation::Add => Ok(numbers::add(left, right)),
        Operation::Subtract => Ok(numbers::subtract(left, right)),
        Operation::Multiply => Ok(numbers::multiply(left, right)),
        Operation::Divide => Ok(numbers::divide(left, right)),
        Operation::Remainder => Ok(numbers::remainder(left, right)),
        Operation::Negate => Ok(numbers::negate(left)),
        Operation::Abs => Ok(numbers::absolute(left)),
        Operation::Min => Ok(numbers::least(left, right)),
        Operation::Max => Ok(numbers::greatest(left, right)),
        Operation::LessInt => Ok(numbers::is_less(left, right)),
        Operation::LessChars => Ok(texts::is_less(left, right)),
        Operation::AtMostInt => Ok(numbers::is_at_most(left, right)),
        Operation::AtMostChars => Ok(texts::is_at_most(left, right)),
        Operation::GreaterInt => Ok(numbers::is_greater(left, right)),
        Operation::GreaterChars => Ok(texts::is_greater(left, right)),
        Operation::AtLeastInt => Ok(numbers::is_at_least(left, right)),
        Operation::AtLeastChars => Ok(texts::is_at_least(left, right)),
        Operation::Not => Ok(numbers::negation(left)),
        Operation::Xor => Ok(numbers::differ(left, right)),
        Operation::Iff => Ok(numbers::agree(left, right)),
        Operation::In => Ok(sets::is_in(left, right)),
        Operation::NotIn => Ok(sets::is_not_in(left, right)),
        Operation::ConcatChars => texts::joined(alloc, left, right),
        Operation::CharsLength => Ok(texts::chars_length(left)),
        Operation::IntToChars => texts::int_text(alloc, left),
        Operation::TruthToChars => texts::truth_text(alloc, left),
        Operation::SeqLength => Ok(sequences::seq_length(left)),
        Operation::FirstItem => sequences::first(alloc, left),
        Operation::LastItem => sequences::last(alloc, left),
        Operation::Tail => sequences::tail(alloc, left),
        Operation::At => sequences::at(alloc, left, right),
        Operation::Append => sequences::append(alloc, left, right),
        Operation::Prepend => sequences::prepend(alloc, left, right),
        Operation::ConcatSeqs => sequences::joined(alloc, left, right),
        Operation::IsEmptySeq => Ok(sequences::is_empty(left)),
        Operation::IsEmptySet => Ok(sets::is_empty(left)),
        Operation::AsSet => sequences::as_set(alloc, left),
        Operation::AsSeq => sets::as_seq(alloc, left),
        Operation::Size => Ok(sets::size(left)),
        Operation::Union => sets::union(alloc, left, right),
        Operation::Intersection => sets::intersection(alloc, left, right),
        Operation::Difference => sets::difference(alloc, left, right),
        Operation::Including => sets::including(alloc, left, right),
        Operation::Excluding => sets::excluding(alloc, left, right),
        Operation::Subset => Ok(sets::is_within(left, right)),
        Operation::FirstPart => sequences::part(alloc, left, 0),
        Operation::SecondPart => sequences::part(alloc, left, 1),
        Operation::ThirdPart => sequences::part(alloc, left, 2),
        Operation::Equal => Ok(truth(left == right)),
        Operation::NotEqual => Ok(truth(left != right)),
        Operation::IsDef => Ok(truth(!left.is_undef())),
        Operation::IsUndef => Ok(truth(left.is_undef())),
    }
}

/// What an operator's row gives for its arguments. It is undef where they are not as many as the
/// row has or not of its kinds, and, in all rows but those of `=`, `!=`, `isDef` and `isUndef`,
/// where one of them is undef. `AllocError` is want of memory.
pub fn apply(alloc: Global, operation: Operation, args: &[Value]) -> Result<Applied, AllocError>
    ensures { IfOk result (λ r. r ≡ spec.apply operation args.now) }
{
    if args.len() == arity(operation) && !(is_strict(operation) && any_undef(args)) {
        let undef = Value::Undef;
        let applied = meaning(
            alloc,
            operation,
            item(args, 0, &undef),
            item(args, 1, &undef),
        )?;
        Ok(within_limits(applied))
    } else {
        Ok(undefined())
    }
}
