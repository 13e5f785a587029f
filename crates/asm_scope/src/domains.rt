//! The domains that trees spell.
ghost use Rattle.std.specs.Prelude.{◌≡◌, [], ◌∷◌, ◌++◌, map, IfOk, OnOk};
ghost use Rattle.asm_syntax.specs.Marks.{text_of};
ghost use Rattle.asm_program.specs.Signatures as spec;

use crate::names::Names;
use asm_base::{Boxed, List};
use asm_items::text_of;
use asm_program::Named;
use asm_syntax::{DomainTree, ParamsTree, RangeTree, Token};
use asm_value::Domain;
use std::alloc::{AllocError, Global};

/// The declared domain of a name; that of the truth values where there is none. Takes no memory.
fn named_domain(names: &Names, name: &Token) -> Domain
    ensures { result ≡
        spec.or_truth (spec.domain_named (spec.find names.now (text_of name.now))) }
{
    match names.find(text_of(name)) {
        Some(Named::Enum(number)) => Domain::Enum(number),
        Some(Named::Abstract(number)) => Domain::Abstract(number),
        Some(Named::Subset(number)) => Domain::Subset(number),
        Some(Named::Literal { .. })
        | Some(Named::Function(_))
        | Some(Named::Macro(_))
        | Some(Named::Main)
        | None => Domain::Truth,
    }
}

/// The domain that a tree spells. `AllocError` is want of memory.
#[cycle(domains)]
#[tactic(auto, using(crate::proofs::DomainTrees::domain_steps))]
pub fn domain_of(
    alloc: Global,
    names: &Names,
    tree: &DomainTree,
) -> Result<Boxed<Domain>, AllocError>
    ensures { IfOk result (λ d. d ≡ spec.domain_of names.now tree.now) }
{
    match tree {
        DomainTree::Truth(_) => Boxed::new(alloc, Domain::Truth),
        DomainTree::Int(_) => Boxed::new(alloc, Domain::Int),
        DomainTree::Nat(_) => Boxed::new(alloc, Domain::Nat),
        DomainTree::Chars(_) => Boxed::new(alloc, Domain::Chars),
        DomainTree::Named(name, _) => Boxed::new(alloc, named_domain(names, name)),
        DomainTree::Prod(first, second, others, _) => {
            let mut parts = List::new(alloc);
            add_domain(alloc, names, first.get(), &mut parts)?;
            add_domain(alloc, names, second.get(), &mut parts)?;
            add_domains(alloc, names, others.as_slice(), &mut parts)?;
            Boxed::new(alloc, Domain::Prod(parts))
        }
        DomainTree::Seq(item, _) => {
            let item = domain_of(alloc, names, item.get())?;
            Boxed::new(alloc, Domain::Seq(item))
        }
        DomainTree::Powerset(item, _) => {
            let item = domain_of(alloc, names, item.get())?;
            Boxed::new(alloc, Domain::Power(item))
        }
    }
}

/// One more domain at the end.
#[cycle(domains)]
#[tactic(auto, using(crate::proofs::DomainTrees::domain_steps))]
fn add_domain(
    alloc: Global,
    names: &Names,
    tree: &DomainTree,
    domains: &mut List<Domain>,
) -> Result<(), AllocError>
    ensures { OnOk result
        (domains.new ≡ domains.old ++ spec.domain_of names.now tree.now ∷ []) }
{
    let domain = domain_of(alloc, names, tree)?;
    domains.push(domain.into_inner())
}

/// More domains at the end.
#[cycle(domains)]
#[tactic(auto, using(crate::proofs::DomainTrees::domain_steps))]
fn add_domains(
    alloc: Global,
    names: &Names,
    trees: &[Boxed<DomainTree>],
    domains: &mut List<Domain>,
) -> Result<(), AllocError>
    ensures { OnOk result
        (domains.new ≡ domains.old ++ map (spec.domain_of names.now) trees.now) }
{
    for tree in trees {
        add_domain(alloc, names, tree.get(), domains)?;
    }
    Ok(())
}

/// The domains of a function's arguments: a product before `->` gives several.
#[tactic(auto, using(crate::proofs::DomainTrees::domain_steps))]
pub fn factor_domains(
    alloc: Global,
    names: &Names,
    tree: &DomainTree,
) -> Result<List<Domain>, AllocError>
    ensures { IfOk result (λ ds. ds ≡ map (spec.domain_of names.now) (spec.factors tree.now)) }
{
    let mut domains = List::new(alloc);
    match tree {
        DomainTree::Prod(first, second, others, _) => {
            add_domain(alloc, names, first.get(), &mut domains)?;
            add_domain(alloc, names, second.get(), &mut domains)?;
            add_domains(alloc, names, others.as_slice(), &mut domains)?;
            Ok(domains)
        }
        DomainTree::Truth(_)
        | DomainTree::Int(_)
        | DomainTree::Nat(_)
        | DomainTree::Chars(_)
        | DomainTree::Named(_, _)
        | DomainTree::Seq(_, _)
        | DomainTree::Powerset(_, _) => {
            add_domain(alloc, names, tree, &mut domains)?;
            Ok(domains)
        }
    }
}

#[tactic(auto, using(crate::proofs::DomainTrees::domain_steps))]
fn add_ranges(
    alloc: Global,
    names: &Names,
    domains: &mut List<Domain>,
    ranges: &[RangeTree],
) -> Result<(), AllocError>
    ensures { OnOk result
        (domains.new ≡ domains.old ++ map (spec.range_domain names.now) ranges.now) }
{
    for range in ranges {
        add_domain(alloc, names, range.domain.get(), domains)?;
    }
    Ok(())
}

/// The domains of parameters. `AllocError` is want of memory.
#[tactic(auto, using(crate::proofs::DomainTrees::domain_steps))]
pub fn param_domains(
    alloc: Global,
    names: &Names,
    params: &Option<ParamsTree>,
) -> Result<List<Domain>, AllocError>
    ensures { IfOk result (λ ds. ds ≡ spec.param_domains names.now params.now) }
{
    let mut domains = List::new(alloc);
    match params {
        None => Ok(domains),
        Some(params) => {
            add_domain(alloc, names, params.ranges.first.domain.get(), &mut domains)?;
            add_ranges(alloc, names, &mut domains, params.ranges.others.as_slice())?;
            Ok(domains)
        }
    }
}
