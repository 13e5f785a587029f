//! The items of declarations.
ghost use Rattle.std.specs.Prelude.{◌≡◌, OnOk};
ghost use Rattle.asm_items.specs.Views.{with_items};
ghost use Rattle.asm_items.specs.Parts as parts;

use crate::domains::domain_items;
use crate::item::{Item, Items};
use asm_base::Boxed;
use asm_program::Limited;
use asm_syntax::{DeclTree, DomainTree, Span, Token};
use std::alloc::AllocError;

/// One more of its kind, under this name.
#[tactic(auto, using(crate::proofs::ModelSteps::counted_steps))]
pub(crate) fn counted<'a>(
    items: &mut Items<'a>,
    kind: Limited,
    name: &'a Token,
    span: Span,
) -> Result<(), AllocError>
    ensures { OnOk result
        (items.new ≡ with_items items.old (parts.counted kind name.now span)) }
{
    items.push(Item::Counts(kind, span))?;
    items.push(Item::Declares(name))
}

/// A literal and its number, from 1, if it is the first past the limit.
#[tactic(auto, using(crate::proofs::ModelSteps::literal_steps))]
fn literal<'a>(items: &mut Items<'a>, number: usize, name: &'a Token) -> Result<(), AllocError>
    ensures { OnOk result (items.new ≡ with_items items.old (parts.literal number name.now)) }
{
    items.push(Item::Declares(name))?;
    if number == 257 {
        items.push(Item::Exceeds(Limited::Members, 257, name.span))
    } else {
        Ok(())
    }
}

/// The literals of an enumeration.
#[tactic(auto, using(crate::proofs::ModelSteps::literals_steps))]
fn literals<'a>(
    items: &mut Items<'a>,
    first: &'a Token,
    others: &'a [Token],
) -> Result<(), AllocError>
    ensures { OnOk result
        (items.new ≡ with_items items.old (parts.literals first.now others.now)) }
{
    literal(items, 1, first)?;
    for (at, name) in others.iter().enumerate() {
        literal(items, at + 2, name)?;
    }
    Ok(())
}

/// An enumeration and its literals.
#[tactic(auto, using(crate::proofs::ModelSteps::enum_steps))]
fn enum_items<'a>(
    items: &mut Items<'a>,
    name: &'a Token,
    first: &'a Token,
    others: &'a [Token],
    span: Span,
) -> Result<(), AllocError>
    ensures { OnOk result
        (items.new ≡ with_items items.old
        (parts.enum_items name.now first.now others.now span)) }
{
    counted(items, Limited::Domains, name, span)?;
    literals(items, first, others)
}

/// A subset of the integers.
#[tactic(auto, using(crate::proofs::ModelSteps::subset_steps))]
fn subset_items<'a>(items: &mut Items<'a>, name: &'a Token, span: Span) -> Result<(), AllocError>
    ensures { OnOk result
        (items.new ≡ with_items items.old (parts.subset_items name.now span)) }
{
    items.push(Item::Counts(Limited::Domains, span))?;
    items.push(Item::NeedsIntegers(name, span))?;
    items.push(Item::Declares(name))
}

/// The items of a domain, if there is one.
#[tactic(auto, using(crate::proofs::ModelSteps::maybe_domain_steps))]
fn maybe_domain_items<'a>(
    items: &mut Items<'a>,
    domain: &'a Option<Boxed<DomainTree>>,
) -> Result<(), AllocError>
    ensures { OnOk result (items.new ≡ with_items items.old (parts.maybe_domain domain.now)) }
{
    match domain {
        None => Ok(()),
        Some(domain) => domain_items(items, domain.get()),
    }
}

/// A function and its domains.
#[tactic(auto, using(crate::proofs::ModelSteps::function_steps))]
fn function_items<'a>(
    items: &mut Items<'a>,
    name: &'a Token,
    first: &'a DomainTree,
    next: &'a Option<Boxed<DomainTree>>,
    span: Span,
) -> Result<(), AllocError>
    ensures { OnOk result
        (items.new ≡ with_items items.old
        (parts.function_items name.now first.now next.now span)) }
{
    counted(items, Limited::Functions, name, span)?;
    domain_items(items, first)?;
    maybe_domain_items(items, next)
}

#[tactic(auto, using(crate::proofs::ModelSteps::decl_steps))]
fn decl_items<'a>(items: &mut Items<'a>, decl: &'a DeclTree) -> Result<(), AllocError>
    ensures { OnOk result (items.new ≡ with_items items.old (parts.decl_part decl.now)) }
{
    match decl {
        DeclTree::Enum(name, first, others, span) => {
            enum_items(items, name, first, others.as_slice(), *span)
        }
        DeclTree::Abstract(name, span) => counted(items, Limited::Domains, name, *span),
        DeclTree::Subset(name, _, span) => subset_items(items, name, *span),
        DeclTree::Defined(_, name, first, next, span)
        | DeclTree::Dynamic(_, name, first, next, span) => {
            function_items(items, name, first.get(), next, *span)
        }
    }
}

/// The items of declarations.
#[tactic(auto, using(crate::proofs::ModelSteps::decls_steps))]
pub(crate) fn decls_items<'a>(
    items: &mut Items<'a>,
    decls: &'a [DeclTree],
) -> Result<(), AllocError>
    ensures { OnOk result (items.new ≡ with_items items.old (parts.decls_items decls.now)) }
{
    for decl in decls {
        decl_items(items, decl)?;
    }
    Ok(())
}
