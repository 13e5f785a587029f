//! The items of domains.
ghost use Rattle.std.specs.Prelude.{◌≡◌, OnOk};
ghost use Rattle.asm_program.specs.Items.{ninth, domain_items};
ghost use Rattle.asm_items.specs.Views.{with_items};
ghost use Rattle.asm_items.specs.Parts.{domains_from};

use crate::item::{Item, Items};
use asm_base::Boxed;
use asm_program::Limited;
use asm_syntax::{DomainTree, Span};
use std::alloc::AllocError;

/// That a form has a ninth part, where this is its number.
#[tactic(auto, using(crate::proofs::Steps::ninth_steps))]
pub(crate) fn ninth(items: &mut Items, number: usize, span: Span) -> Result<(), AllocError>
    ensures { OnOk result (items.new ≡ with_items items.old (ninth number span)) }
{
    if number == 9 {
        items.push(Item::Exceeds(Limited::Parts, 9, span))
    } else {
        Ok(())
    }
}

/// The items of a domain.
#[cycle(domains)]
#[tactic(auto, using(crate::proofs::DomainSteps::domain_steps))]
pub fn domain_items<'a>(items: &mut Items<'a>, domain: &'a DomainTree) -> Result<(), AllocError>
    ensures { OnOk result (items.new ≡ with_items items.old (domain_items domain.now)) }
{
    match domain {
        DomainTree::Truth(_) | DomainTree::Int(_) | DomainTree::Nat(_) | DomainTree::Chars(_) => Ok(
            (),
        ),
        DomainTree::Named(name, _) => items.push(Item::NamesDomain(name)),
        DomainTree::Prod(first, second, others, _) => {
            domain_items(items, first.get())?;
            domain_items(items, second.get())?;
            more_domain_items(items, others.as_slice())
        }
        DomainTree::Seq(part, _) | DomainTree::Powerset(part, _) => {
            domain_items(items, part.get())
        }
    }
}

/// The items of the parts of a product, the third and those after it.
#[cycle(domains)]
#[tactic(auto, using(crate::proofs::DomainSteps::more_domains_steps))]
fn more_domain_items<'a>(
    items: &mut Items<'a>,
    domains: &'a [Boxed<DomainTree>],
) -> Result<(), AllocError>
    ensures { OnOk result (items.new ≡ with_items items.old (domains_from 3 domains.now)) }
{
    for (at, domain) in domains.iter().enumerate() {
        ninth(items, at + 3, domain.get().span())?;
        domain_items(items, domain.get())?;
    }
    Ok(())
}
