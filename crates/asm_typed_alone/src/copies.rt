//! Copies of domains.
ghost use Rattle.std.specs.Prelude.{◌≡◌, ◌∷◌, ◌++◌, [], IfOk, OnOk};

use asm_value::{Boxed, Domain, DomainInfo, DomainKind, Domains, List, Text};
use std::alloc::{AllocError, Global};

/// An equal domain in memory of its own. `AllocError` is want of memory.
#[cycle(copy)]
#[tactic(auto, using(crate::proofs::CopySteps::copy_steps))]
pub fn copied(alloc: Global, domain: &Domain) -> Result<Domain, AllocError>
    ensures { IfOk result (λ copy. copy ≡ domain.now) }
{
    match domain {
        Domain::Truth => Ok(Domain::Truth),
        Domain::Int => Ok(Domain::Int),
        Domain::Nat => Ok(Domain::Nat),
        Domain::Chars => Ok(Domain::Chars),
        Domain::Enum(number) => Ok(Domain::Enum(*number)),
        Domain::Abstract(number) => Ok(Domain::Abstract(*number)),
        Domain::Subset(number) => Ok(Domain::Subset(*number)),
        Domain::Prod(parts) => Ok(Domain::Prod(all_copied(alloc, parts.as_slice())?)),
        Domain::Seq(item) => Ok(Domain::Seq(boxed_copied(alloc, item.get())?)),
        Domain::Power(item) => Ok(Domain::Power(boxed_copied(alloc, item.get())?)),
    }
}

#[cycle(copy)]
#[tactic(auto, using(crate::proofs::CopySteps::copy_steps))]
fn boxed_copied(alloc: Global, domain: &Domain) -> Result<Boxed<Domain>, AllocError>
    ensures { IfOk result (λ copy. copy ≡ domain.now) }
{
    Boxed::new(alloc, copied(alloc, domain)?)
}

/// Equal domains in memory of their own, in their order. `AllocError` is want of memory.
#[cycle(copy)]
#[tactic(auto, using(crate::proofs::CopySteps::copy_steps))]
pub fn all_copied(alloc: Global, domains: &[Domain]) -> Result<List<Domain>, AllocError>
    ensures { IfOk result (λ copies. copies ≡ domains.now) }
{
    let mut copies = List::new(alloc);
    for domain in domains {
        copies.push(copied(alloc, domain)?)?;
    }
    Ok(copies)
}

// ---- declared domains

fn texts_copied(alloc: Global, texts: &[Text]) -> Result<List<Text>, AllocError>
    ensures { IfOk result (λ copies. copies ≡ texts.now) }
{
    let mut copies = List::new(alloc);
    for text in texts {
        copies.push(Text::from_str(alloc, text.as_str())?)?;
    }
    Ok(copies)
}

fn numbers_copied(alloc: Global, numbers: &[i128]) -> Result<List<i128>, AllocError>
    ensures { IfOk result (λ copies. copies ≡ numbers.now) }
{
    let mut copies = List::new(alloc);
    for number in numbers {
        copies.push(*number)?;
    }
    Ok(copies)
}

fn kind_copied(alloc: Global, kind: &DomainKind) -> Result<DomainKind, AllocError>
    ensures { IfOk result (λ copy. copy ≡ kind.now) }
{
    match kind {
        DomainKind::Enum(names) => {
            let names = texts_copied(alloc, names.as_slice())?;
            Ok(DomainKind::Enum(names))
        }
        DomainKind::Abstract(names) => {
            let names = texts_copied(alloc, names.as_slice())?;
            Ok(DomainKind::Abstract(names))
        }
        DomainKind::Subset(numbers) => {
            let numbers = numbers_copied(alloc, numbers.as_slice())?;
            Ok(DomainKind::Subset(numbers))
        }
    }
}

/// One more declared domain at the end.
fn add_copy(alloc: Global, copies: &mut Domains, info: &DomainInfo) -> Result<(), AllocError>
    ensures { OnOk result (copies.new ≡ copies.old ++ info.now ∷ []) }
{
    let name = Text::from_str(alloc, info.name.as_str())?;
    let kind = kind_copied(alloc, &info.kind)?;
    copies.push(DomainInfo { name, kind })
}

/// Equal declared domains in memory of their own.
pub(crate) fn domains_copied(alloc: Global, domains: &[DomainInfo]) -> Result<Domains, AllocError>
    ensures { IfOk result (λ copies. copies ≡ domains.now) }
{
    let mut copies = List::new(alloc);
    for info in domains {
        match add_copy(alloc, &mut copies, info) {
            Ok(()) => {}
            Err(fault) => return Err(fault),
        }
    }
    Ok(copies)
}
