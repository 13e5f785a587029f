//! What types join to.
ghost use Rattle.std.specs.Prelude.{◌≡◌, IfOk};
ghost use Rattle.std.specs.Option.{option_map};
ghost use Rattle.asm_typing.specs.declared.types.Type.TheVariants as type;
ghost use Rattle.asm_typing.specs.declared.types.Type.TheOpen.{Type-F};
ghost use Rattle.asm_typing.specs.declared.types.Type.TheViews.{out-Type};
ghost use Rattle.asm_typing.specs.Joins.{join, joins, join_all, join_of};

use crate::types::{Type, copy_all, copy_boxed};
use asm_base::{Boxed, List};
use std::alloc::{AllocError, Global};

/// The join of two types: the one that the other fits, part by part. None where they have no join.
/// `AllocError` is want of memory.
#[cycle(join)]
#[tactic(auto, using(crate::proofs::TypeSteps::type_steps))]
pub fn join(alloc: Global, one: &Type, other: &Type) -> Result<Option<Type>, AllocError>
    ensures { IfOk result (λ o. o ≡ join one.now other.now) }
{
    match one {
        Type::Untyped => Ok(Some(other.copy(alloc)?)),
        Type::Truth => Ok(truth_with(other)),
        Type::Int => Ok(int_with(other)),
        Type::Chars => Ok(chars_with(other)),
        Type::Enum(number) => Ok(enum_with(*number, other)),
        Type::Abstract(number) => Ok(abstract_with(*number, other)),
        Type::Prod(parts) => prod_with(alloc, parts.as_slice(), other),
        Type::Seq(item) => seq_with(alloc, item.get(), other),
        Type::Set(item) => set_with(alloc, item.get(), other),
    }
}

#[tactic(auto, using(crate::proofs::TypeSteps::type_steps))]
fn truth_with(other: &Type) -> Option<Type>
    ensures { result ≡ join_of Type-F.Truth (out-Type other.now) }
{
    match other {
        Type::Untyped | Type::Truth => Some(Type::Truth),
        Type::Int
        | Type::Chars
        | Type::Enum(_)
        | Type::Abstract(_)
        | Type::Prod(_)
        | Type::Seq(_)
        | Type::Set(_) => None,
    }
}

#[tactic(auto, using(crate::proofs::TypeSteps::type_steps))]
fn int_with(other: &Type) -> Option<Type>
    ensures { result ≡ join_of Type-F.Int (out-Type other.now) }
{
    match other {
        Type::Untyped | Type::Int => Some(Type::Int),
        Type::Truth
        | Type::Chars
        | Type::Enum(_)
        | Type::Abstract(_)
        | Type::Prod(_)
        | Type::Seq(_)
        | Type::Set(_) => None,
    }
}

#[tactic(auto, using(crate::proofs::TypeSteps::type_steps))]
fn chars_with(other: &Type) -> Option<Type>
    ensures { result ≡ join_of Type-F.Chars (out-Type other.now) }
{
    match other {
        Type::Untyped | Type::Chars => Some(Type::Chars),
        Type::Truth
        | Type::Int
        | Type::Enum(_)
        | Type::Abstract(_)
        | Type::Prod(_)
        | Type::Seq(_)
        | Type::Set(_) => None,
    }
}

#[tactic(auto, using(crate::proofs::TypeSteps::type_steps))]
fn enum_with(number: u16, other: &Type) -> Option<Type>
    ensures { result ≡ join_of (Type-F.Enum number) (out-Type other.now) }
{
    match other {
        Type::Untyped => Some(Type::Enum(number)),
        Type::Enum(another) => {
            if number == *another {
                Some(Type::Enum(number))
            } else {
                None
            }
        }
        Type::Truth
        | Type::Int
        | Type::Chars
        | Type::Abstract(_)
        | Type::Prod(_)
        | Type::Seq(_)
        | Type::Set(_) => None,
    }
}

#[tactic(auto, using(crate::proofs::TypeSteps::type_steps))]
fn abstract_with(number: u16, other: &Type) -> Option<Type>
    ensures { result ≡ join_of (Type-F.Abstract number) (out-Type other.now) }
{
    match other {
        Type::Untyped => Some(Type::Abstract(number)),
        Type::Abstract(another) => {
            if number == *another {
                Some(Type::Abstract(number))
            } else {
                None
            }
        }
        Type::Truth
        | Type::Int
        | Type::Chars
        | Type::Enum(_)
        | Type::Prod(_)
        | Type::Seq(_)
        | Type::Set(_) => None,
    }
}

#[cycle(join)]
#[tactic(auto, using(crate::proofs::TypeSteps::type_steps))]
fn prod_with(alloc: Global, parts: &[Type], other: &Type) -> Result<Option<Type>, AllocError>
    ensures { IfOk result (λ o. o ≡ join_of (Type-F.Prod parts.now) (out-Type other.now)) }
{
    match other {
        Type::Untyped => Ok(Some(Type::Prod(copy_all(alloc, parts)?))),
        Type::Prod(others) => Ok(prod_of(joins(alloc, parts, others.as_slice())?)),
        Type::Truth
        | Type::Int
        | Type::Chars
        | Type::Enum(_)
        | Type::Abstract(_)
        | Type::Seq(_)
        | Type::Set(_) => Ok(None),
    }
}

#[cycle(join)]
#[tactic(auto, using(crate::proofs::TypeSteps::type_steps))]
fn seq_with(alloc: Global, item: &Type, other: &Type) -> Result<Option<Type>, AllocError>
    ensures { IfOk result (λ o. o ≡ join_of (Type-F.Seq item.now) (out-Type other.now)) }
{
    match other {
        Type::Untyped => Ok(Some(Type::Seq(copy_boxed(alloc, item)?))),
        Type::Seq(another) => seq_of(alloc, join(alloc, item, another.get())?),
        Type::Truth
        | Type::Int
        | Type::Chars
        | Type::Enum(_)
        | Type::Abstract(_)
        | Type::Prod(_)
        | Type::Set(_) => Ok(None),
    }
}

#[cycle(join)]
#[tactic(auto, using(crate::proofs::TypeSteps::type_steps))]
fn set_with(alloc: Global, item: &Type, other: &Type) -> Result<Option<Type>, AllocError>
    ensures { IfOk result (λ o. o ≡ join_of (Type-F.Set item.now) (out-Type other.now)) }
{
    match other {
        Type::Untyped => Ok(Some(Type::Set(copy_boxed(alloc, item)?))),
        Type::Set(another) => set_of(alloc, join(alloc, item, another.get())?),
        Type::Truth
        | Type::Int
        | Type::Chars
        | Type::Enum(_)
        | Type::Abstract(_)
        | Type::Prod(_)
        | Type::Seq(_) => Ok(None),
    }
}

/// The tuples with parts of these types, where there are any.
fn prod_of(parts: Option<List<Type>>) -> Option<Type>
    ensures { result ≡ option_map (λ ts. type.Prod ts) parts }
{
    match parts {
        Some(parts) => Some(Type::Prod(parts)),
        None => None,
    }
}

/// The sequences of items of this type, where there is one. `AllocError` is want of memory.
pub fn seq_of(alloc: Global, item: Option<Type>) -> Result<Option<Type>, AllocError>
    ensures { IfOk result (λ o. o ≡ option_map (λ t. type.Seq t) item) }
{
    match item {
        Some(item) => Ok(Some(Type::Seq(Boxed::new(alloc, item)?))),
        None => Ok(None),
    }
}

/// The sets of items of this type, where there is one. `AllocError` is want of memory.
pub fn set_of(alloc: Global, item: Option<Type>) -> Result<Option<Type>, AllocError>
    ensures { IfOk result (λ o. o ≡ option_map (λ t. type.Set t) item) }
{
    match item {
        Some(item) => Ok(Some(Type::Set(Boxed::new(alloc, item)?))),
        None => Ok(None),
    }
}

/// The joins of the types at each position; None where a pair has none, or where one list is
/// longer.
#[cycle(join)]
#[tactic(auto, using(crate::proofs::TypeSteps::type_steps))]
fn joins(alloc: Global, types: &[Type], others: &[Type]) -> Result<Option<List<Type>>, AllocError>
    ensures { IfOk result (λ o. o ≡ joins types.now others.now) }
{
    if types.len() != others.len() {
        return Ok(None);
    }
    let mut joined = List::new(alloc);
    for at in 0..types.len() {
        match join(alloc, &types[at], &others[at]) {
            Ok(Some(one)) => match joined.push(one) {
                Ok(()) => {}
                Err(error) => return Err(error),
            },
            Ok(None) => return Ok(None),
            Err(error) => return Err(error),
        }
    }
    Ok(Some(joined))
}

/// The join of all the types, joined from left to right; untyped where there are none. None where
/// one has no join with that of those before it. `AllocError` is want of memory.
#[tactic(auto, using(crate::proofs::TypeSteps::type_steps))]
pub fn join_all(alloc: Global, types: &[Type]) -> Result<Option<Type>, AllocError>
    ensures { IfOk result (λ o. o ≡ join_all types.now) }
{
    let mut joined = Type::Untyped;
    for one in types {
        match join(alloc, &joined, one) {
            Ok(Some(more)) => joined = more,
            Ok(None) => return Ok(None),
            Err(error) => return Err(error),
        }
    }
    Ok(Some(joined))
}
