//! The type of a domain's values, and a domain whose values are of a type.
ghost use Rattle.std.specs.Prelude.{◌≡◌, IfOk, map};
ghost use Rattle.asm_typing.specs.Domains.{type_of, domain_of};

use crate::types::Type;
use asm_base::{Boxed, List};
use asm_value::Domain;
use std::alloc::{AllocError, Global};

/// The type of the domain's values: Natural and declared subsets count as integers. `AllocError` is
/// want of memory.
#[cycle(type_of)]
#[tactic(auto, using(crate::proofs::TypeSteps::type_steps))]
pub fn type_of(alloc: Global, domain: &Domain) -> Result<Type, AllocError>
    ensures { IfOk result (λ t. t ≡ type_of domain.now) }
{
    match domain {
        Domain::Truth => Ok(Type::Truth),
        Domain::Int | Domain::Nat | Domain::Subset(_) => Ok(Type::Int),
        Domain::Chars => Ok(Type::Chars),
        Domain::Enum(number) => Ok(Type::Enum(*number)),
        Domain::Abstract(number) => Ok(Type::Abstract(*number)),
        Domain::Prod(parts) => Ok(Type::Prod(types_of(alloc, parts.as_slice())?)),
        Domain::Seq(item) => Ok(Type::Seq(boxed_type_of(alloc, item.get())?)),
        Domain::Power(item) => Ok(Type::Set(boxed_type_of(alloc, item.get())?)),
    }
}

#[cycle(type_of)]
#[tactic(auto, using(crate::proofs::TypeSteps::type_steps))]
fn boxed_type_of(alloc: Global, domain: &Domain) -> Result<Boxed<Type>, AllocError>
    ensures { IfOk result (λ t. t ≡ type_of domain.now) }
{
    Boxed::new(alloc, type_of(alloc, domain)?)
}

/// The types of the domains' values, in the domains' order. `AllocError` is want of memory.
#[cycle(type_of)]
#[tactic(auto, using(crate::proofs::TypeSteps::type_steps))]
pub fn types_of(alloc: Global, domains: &[Domain]) -> Result<List<Type>, AllocError>
    ensures { IfOk result (λ all. all ≡ map type_of domains.now) }
{
    let mut all = List::new(alloc);
    for domain in domains {
        all.push(type_of(alloc, domain)?)?;
    }
    Ok(all)
}

/// The domain of all values of the type. What is untyped gets the domain of the truth values, which
/// has none of its values, since there are none. `AllocError` is want of memory.
#[cycle(domain_of)]
#[tactic(auto, using(crate::proofs::TypeSteps::type_steps))]
pub fn domain_of(alloc: Global, one: &Type) -> Result<Domain, AllocError>
    ensures { IfOk result (λ d. d ≡ domain_of one.now) }
{
    match one {
        Type::Untyped | Type::Truth => Ok(Domain::Truth),
        Type::Int => Ok(Domain::Int),
        Type::Chars => Ok(Domain::Chars),
        Type::Enum(number) => Ok(Domain::Enum(*number)),
        Type::Abstract(number) => Ok(Domain::Abstract(*number)),
        Type::Prod(parts) => Ok(Domain::Prod(domains_of(alloc, parts.as_slice())?)),
        Type::Seq(item) => Ok(Domain::Seq(boxed_domain_of(alloc, item.get())?)),
        Type::Set(item) => Ok(Domain::Power(boxed_domain_of(alloc, item.get())?)),
    }
}

#[cycle(domain_of)]
#[tactic(auto, using(crate::proofs::TypeSteps::type_steps))]
fn boxed_domain_of(alloc: Global, one: &Type) -> Result<Boxed<Domain>, AllocError>
    ensures { IfOk result (λ d. d ≡ domain_of one.now) }
{
    Boxed::new(alloc, domain_of(alloc, one)?)
}

#[cycle(domain_of)]
#[tactic(auto, using(crate::proofs::TypeSteps::type_steps))]
fn domains_of(alloc: Global, types: &[Type]) -> Result<List<Domain>, AllocError>
    ensures { IfOk result (λ all. all ≡ map domain_of types.now) }
{
    let mut all = List::new(alloc);
    for one in types {
        all.push(domain_of(alloc, one)?)?;
    }
    Ok(all)
}
