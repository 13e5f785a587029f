//! Types of terms, their kinds, and copies of them.
ghost use Rattle.std.specs.Prelude.{◌≡◌, IfOk};
ghost use Rattle.std.specs.Option.{option_map};
ghost use Rattle.asm_typing.specs.Types as spec;

use asm_base::{Boxed, List};
use asm_tables::Kind;
use std::alloc::{AllocError, Global};

/// The type of a term. Numbers are indexes in the list of the declared domains, from 0.
#[derive(Debug, Drop)]
pub enum Type {
    /// What has no value, as `undef`: the type that fits every other.
    Untyped,
    /// The two truth values.
    Truth,
    /// The integers. Those of Natural and of a declared subset count as such.
    Int,
    /// The strings.
    Chars,
    /// The literals of the declared enumeration with this number.
    Enum(u16),
    /// The members of the declared abstract domain with this number.
    Abstract(u16),
    /// The tuples with a part of each of the types.
    Prod(List<Type>),
    /// The sequences of items of a type.
    Seq(Boxed<Type>),
    /// The sets of items of a type.
    Set(Boxed<Type>),
}

#[tactic(auto, using(crate::proofs::TypeSteps::type_steps))]
impl Type {
    /// The kind of a term of the type. Takes no memory.
    pub fn kind(&self) -> Kind
        ensures { result ≡ spec.kind_of self.now }
    {
        match self {
            Type::Untyped => Kind::Untyped,
            Type::Truth => Kind::Truth,
            Type::Int => Kind::Int,
            Type::Chars => Kind::Chars,
            Type::Enum(_) | Type::Abstract(_) => Kind::Member,
            Type::Prod(_) => Kind::Tuple,
            Type::Seq(_) => Kind::Seq,
            Type::Set(_) => Kind::Set,
        }
    }

    /// The type of a sequence's or a set's items; None of any other type. Takes no memory.
    pub fn item(&self) -> Option<&Type>
        ensures { option_map (λ item. item.now) result ≡ spec.item_of self.now }
    {
        match self {
            Type::Seq(item) | Type::Set(item) => Some(item.get()),
            Type::Untyped
            | Type::Truth
            | Type::Int
            | Type::Chars
            | Type::Enum(_)
            | Type::Abstract(_)
            | Type::Prod(_) => None,
        }
    }

    /// The types of a tuple's parts, in their order; none of any other type. Takes no memory.
    pub fn parts(&self) -> &[Type]
        ensures { result.now ≡ spec.parts_of self.now }
    {
        match self {
            Type::Prod(parts) => parts.as_slice(),
            Type::Untyped
            | Type::Truth
            | Type::Int
            | Type::Chars
            | Type::Enum(_)
            | Type::Abstract(_)
            | Type::Seq(_)
            | Type::Set(_) => &[],
        }
    }

    /// An equal type in memory of its own. `AllocError` is want of memory.
    #[cycle(copy)]
    pub fn copy(&self, alloc: Global) -> Result<Type, AllocError>
        ensures { IfOk result (λ t. t ≡ self.now) }
    {
        match self {
            Type::Untyped => Ok(Type::Untyped),
            Type::Truth => Ok(Type::Truth),
            Type::Int => Ok(Type::Int),
            Type::Chars => Ok(Type::Chars),
            Type::Enum(domain) => Ok(Type::Enum(*domain)),
            Type::Abstract(domain) => Ok(Type::Abstract(*domain)),
            Type::Prod(parts) => Ok(Type::Prod(copy_all(alloc, parts.as_slice())?)),
            Type::Seq(item) => Ok(Type::Seq(copy_boxed(alloc, item.get())?)),
            Type::Set(item) => Ok(Type::Set(copy_boxed(alloc, item.get())?)),
        }
    }
}

/// An equal type in a box of its own. `AllocError` is want of memory.
#[cycle(copy)]
#[tactic(auto, using(crate::proofs::TypeSteps::type_steps))]
pub fn copy_boxed(alloc: Global, one: &Type) -> Result<Boxed<Type>, AllocError>
    ensures { IfOk result (λ t. t ≡ one.now) }
{
    Boxed::new(alloc, one.copy(alloc)?)
}

/// Equal types, in their order, as a list of their own. `AllocError` is want of memory.
#[cycle(copy)]
#[tactic(auto, using(crate::proofs::TypeSteps::type_steps))]
pub fn copy_all(alloc: Global, types: &[Type]) -> Result<List<Type>, AllocError>
    ensures { IfOk result (λ all. all ≡ types.now) }
{
    let mut all = List::new(alloc);
    for one in types {
        all.push(one.copy(alloc)?)?;
    }
    Ok(all)
}
