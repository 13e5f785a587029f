//! The type of an operator's result, by the rule of the row that matches.
ghost use Rattle.std.specs.Prelude.{◌≡◌, IfOk};
ghost use Rattle.std.specs.Option.{option_map};
ghost use Rattle.asm_typing.specs.Operators as spec;

use crate::joining::{join, seq_of, set_of};
use crate::types::Type;
use asm_tables::ResultRule;
use std::alloc::{AllocError, Global};

/// The result's type where a row with the rule matches arguments of these types; None where types
/// that have to join don't, or where a tuple has no such part. `AllocError` is want of memory.
pub fn result_type(
    alloc: Global,
    rule: ResultRule,
    types: &[Type],
) -> Result<Option<Type>, AllocError>
    ensures { IfOk result (λ o. o ≡ spec.result_type rule types.now) }
{
    match rule {
        ResultRule::Truth => Ok(Some(Type::Truth)),
        ResultRule::TruthOfJoin => truth_of_join(alloc, types),
        ResultRule::TruthOfItem => truth_of_item(alloc, types),
        ResultRule::Int => Ok(Some(Type::Int)),
        ResultRule::Chars => Ok(Some(Type::Chars)),
        ResultRule::Argument => copied(alloc, types.get(0)),
        ResultRule::Item => item_type(alloc, types),
        ResultRule::Join => join_type(alloc, types),
        ResultRule::JoinFirst => join_first(alloc, types),
        ResultRule::JoinLast => join_last(alloc, types),
        ResultRule::SetOfItems => set_of(alloc, item_type(alloc, types)?),
        ResultRule::SeqOfItems => seq_of(alloc, item_type(alloc, types)?),
        ResultRule::FirstPart => part_type(alloc, types, 0),
        ResultRule::SecondPart => part_type(alloc, types, 1),
        ResultRule::ThirdPart => part_type(alloc, types, 2),
    }
}

/// The type in memory of its own, where there is one.
fn copied(alloc: Global, found: Option<&Type>) -> Result<Option<Type>, AllocError>
    ensures { IfOk result (λ o. o ≡ option_map (λ t. t.now) found.entry) }
{
    match found {
        Some(one) => Ok(Some(one.copy(alloc)?)),
        None => Ok(None),
    }
}

/// Truth, where there is a join.
fn truth_where(joined: Option<Type>) -> Option<Type>
    ensures { result ≡ spec.truth_where joined }
{
    match joined {
        Some(_one) => Some(Type::Truth),
        None => None,
    }
}

fn truth_of_join(alloc: Global, types: &[Type]) -> Result<Option<Type>, AllocError>
    ensures { IfOk result (λ o. o ≡ spec.truth_of_join types.now) }
{
    Ok(truth_where(join_type(alloc, types)?))
}

fn truth_of_item(alloc: Global, types: &[Type]) -> Result<Option<Type>, AllocError>
    ensures { IfOk result (λ o. o ≡ spec.truth_of_item types.now) }
{
    match types.get(0) {
        Some(left) => match types.get(1) {
            Some(right) => match right.item() {
                Some(item) => Ok(truth_where(join(alloc, left, item)?)),
                None => Ok(None),
            },
            None => Ok(None),
        },
        None => Ok(None),
    }
}

fn item_type(alloc: Global, types: &[Type]) -> Result<Option<Type>, AllocError>
    ensures { IfOk result (λ o. o ≡ spec.item_type types.now) }
{
    match types.get(0) {
        Some(one) => copied(alloc, one.item()),
        None => Ok(None),
    }
}

fn join_type(alloc: Global, types: &[Type]) -> Result<Option<Type>, AllocError>
    ensures { IfOk result (λ o. o ≡ spec.join_type types.now) }
{
    match types.get(0) {
        Some(left) => match types.get(1) {
            Some(right) => join(alloc, left, right),
            None => Ok(None),
        },
        None => Ok(None),
    }
}

fn join_first(alloc: Global, types: &[Type]) -> Result<Option<Type>, AllocError>
    ensures { IfOk result (λ o. o ≡ spec.join_first types.now) }
{
    match types.get(0) {
        Some(left) => match types.get(1) {
            Some(right) => widened(alloc, right, left),
            None => Ok(None),
        },
        None => Ok(None),
    }
}

fn join_last(alloc: Global, types: &[Type]) -> Result<Option<Type>, AllocError>
    ensures { IfOk result (λ o. o ≡ spec.join_last types.now) }
{
    match types.get(0) {
        Some(left) => match types.get(1) {
            Some(right) => widened(alloc, left, right),
            None => Ok(None),
        },
        None => Ok(None),
    }
}

/// The type of sequences or of sets whose items are of the join of their type with another.
#[tactic(auto, using(crate::proofs::TypeSteps::type_steps))]
fn widened(alloc: Global, one: &Type, more: &Type) -> Result<Option<Type>, AllocError>
    ensures { IfOk result (λ o. o ≡ spec.widened one.now more.now) }
{
    match one {
        Type::Seq(item) => seq_of(alloc, join(alloc, item.get(), more)?),
        Type::Set(item) => set_of(alloc, join(alloc, item.get(), more)?),
        Type::Untyped
        | Type::Truth
        | Type::Int
        | Type::Chars
        | Type::Enum(_)
        | Type::Abstract(_)
        | Type::Prod(_) => Ok(None),
    }
}

/// The type of the part of the first argument at a position from 0.
fn part_type(alloc: Global, types: &[Type], at: usize) -> Result<Option<Type>, AllocError>
    ensures { IfOk result (λ o. o ≡ spec.part_type types.now at) }
{
    match types.get(0) {
        Some(one) => copied(alloc, one.parts().get(at)),
        None => Ok(None),
    }
}
