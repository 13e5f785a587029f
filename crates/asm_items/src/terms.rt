//! The items of terms.
ghost use Rattle.std.specs.Prelude.{◌≡◌, OnOk};
ghost use Rattle.asm_program.specs.Items.{term_items};
ghost use Rattle.asm_items.specs.Views.{with_items};
ghost use Rattle.asm_items.specs.Parts as parts;

use crate::domains::ninth;
use crate::item::{Item, Items};
use crate::name_set::NameSet;
use crate::ranges::{ranges_items, repeated};
use asm_base::Boxed;
use asm_syntax::{BindTree, BindsTree, CaseTree, RangesTree, TermTree, TermsTree, Token};
use std::alloc::AllocError;

/// The items of a term.
#[cycle(terms)]
#[tactic(auto, using(crate::proofs::TermSteps::term_steps))]
pub fn term_items<'a>(items: &mut Items<'a>, term: &'a TermTree) -> Result<(), AllocError>
    ensures { OnOk result (items.new ≡ with_items items.old (term_items term.now)) }
{
    match term {
        TermTree::Prefix(_, operand, _) => term_items(items, operand.get()),
        TermTree::Binary(left, _, right, _) | TermTree::Interval(left, right, _) => {
            term_items(items, left.get())?;
            term_items(items, right.get())
        }
        TermTree::Number(_, _)
        | TermTree::Chars(_, _)
        | TermTree::True(_)
        | TermTree::False(_)
        | TermTree::Undef(_)
        | TermTree::Var(_, _) => Ok(()),
        TermTree::Name(name, args, _) => name_items(items, name, args),
        TermTree::Tuple(parts, _) => numbered_items(items, parts),
        TermTree::Forall(ranges, body, _) | TermTree::Exist(_, ranges, body, _) => {
            quantified_items(items, ranges, body.get())
        }
        TermTree::Set(parts, _) | TermTree::Seq(parts, _) => listed_items(items, parts),
        TermTree::If(guard, first, other, _) => {
            term_items(items, guard.get())?;
            term_items(items, first.get())?;
            maybe_term_items(items, other)
        }
        TermTree::Let(binds, body, _) => {
            binds_items(items, binds)?;
            term_items(items, body.get())
        }
        TermTree::Switch(value, cases, other, _) => {
            term_items(items, value.get())?;
            case_items(items, cases.as_slice())?;
            maybe_term_items(items, other)
        }
    }
}

/// A name, and the items of its arguments.
#[cycle(terms)]
#[tactic(auto, using(crate::proofs::TermSteps::name_steps))]
fn name_items<'a>(
    items: &mut Items<'a>,
    name: &'a Token,
    args: &'a Option<TermsTree>,
) -> Result<(), AllocError>
    ensures { OnOk result (items.new ≡ with_items items.old (parts.named name.now args.now)) }
{
    items.push(Item::NamesFunction(name))?;
    args_items(items, args)
}

/// The items of arguments, of which there may be eight.
#[cycle(terms)]
#[tactic(auto, using(crate::proofs::TermSteps::args_steps))]
pub(crate) fn args_items<'a>(
    items: &mut Items<'a>,
    args: &'a Option<TermsTree>,
) -> Result<(), AllocError>
    ensures { OnOk result (items.new ≡ with_items items.old (parts.args_of args.now)) }
{
    match args {
        None => Ok(()),
        Some(args) => numbered_items(items, args),
    }
}

/// The items of terms of which there may be eight.
#[cycle(terms)]
#[tactic(auto, using(crate::proofs::TermSteps::numbered_steps))]
fn numbered_items<'a>(items: &mut Items<'a>, terms: &'a TermsTree) -> Result<(), AllocError>
    ensures { OnOk result (items.new ≡ with_items items.old (parts.numbered_terms terms.now)) }
{
    term_items(items, terms.first.get())?;
    more_numbered_items(items, terms.others.as_slice())
}

/// The items of terms, the second of their form and those after it.
#[cycle(terms)]
#[tactic(auto, using(crate::proofs::TermSteps::more_numbered_steps))]
fn more_numbered_items<'a>(
    items: &mut Items<'a>,
    terms: &'a [Boxed<TermTree>],
) -> Result<(), AllocError>
    ensures { OnOk result (items.new ≡ with_items items.old (parts.terms_from 2 terms.now)) }
{
    for (at, term) in terms.iter().enumerate() {
        ninth(items, at + 2, term.get().span())?;
        term_items(items, term.get())?;
    }
    Ok(())
}

/// The items of terms of which there may be any number.
#[cycle(terms)]
#[tactic(auto, using(crate::proofs::TermSteps::listed_steps))]
fn listed_items<'a>(items: &mut Items<'a>, terms: &'a Option<TermsTree>) -> Result<(), AllocError>
    ensures { OnOk result (items.new ≡ with_items items.old (parts.listed_of terms.now)) }
{
    match terms {
        None => Ok(()),
        Some(terms) => {
            term_items(items, terms.first.get())?;
            more_listed_items(items, terms.others.as_slice())
        }
    }
}

/// The items of terms, one after the other.
#[cycle(terms)]
#[tactic(auto, using(crate::proofs::TermSteps::more_listed_steps))]
fn more_listed_items<'a>(
    items: &mut Items<'a>,
    terms: &'a [Boxed<TermTree>],
) -> Result<(), AllocError>
    ensures { OnOk result (items.new ≡ with_items items.old (parts.more_terms terms.now)) }
{
    for term in terms {
        term_items(items, term.get())?;
    }
    Ok(())
}

/// The items of what is quantified.
#[cycle(terms)]
#[tactic(auto, using(crate::proofs::TermSteps::quantified_steps))]
fn quantified_items<'a>(
    items: &mut Items<'a>,
    ranges: &'a RangesTree,
    body: &'a TermTree,
) -> Result<(), AllocError>
    ensures { OnOk result (items.new
        ≡ with_items items.old (parts.quantified ranges.now body.now)) }
{
    ranges_items(items, ranges)?;
    term_items(items, body)
}

/// The items of a term, if there is one.
#[cycle(terms)]
#[tactic(auto, using(crate::proofs::TermSteps::maybe_steps))]
pub(crate) fn maybe_term_items<'a>(
    items: &mut Items<'a>,
    term: &'a Option<Boxed<TermTree>>,
) -> Result<(), AllocError>
    ensures { OnOk result (items.new ≡ with_items items.old (parts.maybe_term term.now)) }
{
    match term {
        None => Ok(()),
        Some(term) => term_items(items, term.get()),
    }
}

/// The items of cases.
#[cycle(terms)]
#[tactic(auto, using(crate::proofs::TermSteps::cases_steps))]
fn case_items<'a>(items: &mut Items<'a>, cases: &'a [CaseTree]) -> Result<(), AllocError>
    ensures { OnOk result (items.new ≡ with_items items.old (parts.cases_of cases.now)) }
{
    for case in cases {
        term_items(items, case.value.get())?;
        term_items(items, case.term.get())?;
    }
    Ok(())
}

/// The items of what a `let` binds.
#[cycle(terms)]
#[tactic(auto, using(crate::proofs::TermSteps::binds_steps))]
pub(crate) fn binds_items<'a>(items: &mut Items<'a>, binds: &'a BindsTree) -> Result<(), AllocError>
    ensures { OnOk result (items.new ≡ with_items items.old (parts.all_binds binds.now)) }
{
    let mut seen = NameSet::new(items.alloc());
    repeated(items, &mut seen, &binds.first.variable)?;
    term_items(items, binds.first.value.get())?;
    more_bind_items(items, &mut seen, binds.others.as_slice())
}

/// The items of what is bound, one after the other.
#[cycle(terms)]
#[tactic(auto, using(crate::proofs::TermSteps::more_binds_steps))]
fn more_bind_items<'a>(
    items: &mut Items<'a>,
    seen: &mut NameSet,
    binds: &'a [BindTree],
) -> Result<(), AllocError>
    ensures { OnOk result
        (items.new ≡ with_items items.old (parts.more_binds seen.old binds.now)) }
{
    for bind in binds {
        repeated(items, seen, &bind.variable)?;
        term_items(items, bind.value.get())?;
    }
    Ok(())
}
