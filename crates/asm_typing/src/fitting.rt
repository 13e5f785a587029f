//! Which type fits which.
ghost use Rattle.std.specs.Prelude.{◌≡◌, map};
ghost use Rattle.asm_value.specs.Domain.{each_passes};
ghost use Rattle.asm_typing.specs.Fits.{fits};

use crate::types::Type;

/// Whether the one type fits the other: they are equal, or equal but for parts of the one that are
/// untyped. Takes no memory.
#[cycle(fits)]
#[tactic(auto, using(crate::proofs::TypeSteps::type_steps))]
pub fn fits(one: &Type, other: &Type) -> bool
    ensures { result ≡ fits one.now other.now }
{
    match one {
        Type::Untyped => true,
        Type::Truth => matches!(other, Type::Truth),
        Type::Int => matches!(other, Type::Int),
        Type::Chars => matches!(other, Type::Chars),
        Type::Enum(number) => match other {
            Type::Enum(wanted) => number == wanted,
            Type::Untyped
            | Type::Truth
            | Type::Int
            | Type::Chars
            | Type::Abstract(_)
            | Type::Prod(_)
            | Type::Seq(_)
            | Type::Set(_) => false,
        },
        Type::Abstract(number) => match other {
            Type::Abstract(wanted) => number == wanted,
            Type::Untyped
            | Type::Truth
            | Type::Int
            | Type::Chars
            | Type::Enum(_)
            | Type::Prod(_)
            | Type::Seq(_)
            | Type::Set(_) => false,
        },
        Type::Prod(parts) => match other {
            Type::Prod(wanted) => each_fits(parts.as_slice(), wanted.as_slice()),
            Type::Untyped
            | Type::Truth
            | Type::Int
            | Type::Chars
            | Type::Enum(_)
            | Type::Abstract(_)
            | Type::Seq(_)
            | Type::Set(_) => false,
        },
        Type::Seq(item) => match other {
            Type::Seq(wanted) => fits(item.get(), wanted.get()),
            Type::Untyped
            | Type::Truth
            | Type::Int
            | Type::Chars
            | Type::Enum(_)
            | Type::Abstract(_)
            | Type::Prod(_)
            | Type::Set(_) => false,
        },
        Type::Set(item) => match other {
            Type::Set(wanted) => fits(item.get(), wanted.get()),
            Type::Untyped
            | Type::Truth
            | Type::Int
            | Type::Chars
            | Type::Enum(_)
            | Type::Abstract(_)
            | Type::Prod(_)
            | Type::Seq(_) => false,
        },
    }
}

/// Whether the lists are equally long, and each type fits the one at its position. Takes no memory.
#[cycle(fits)]
#[tactic(auto, using(crate::proofs::TypeSteps::type_steps))]
pub fn each_fits(types: &[Type], wanted: &[Type]) -> bool
    ensures { result ≡ each_passes (map fits types.now) wanted.now }
{
    if wanted.len() != types.len() {
        return false;
    }
    for at in 0..wanted.len() {
        if !fits(&types[at], &wanted[at]) {
            return false;
        }
    }
    true
}
