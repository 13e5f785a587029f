//! The items of definitions.
ghost use Rattle.std.specs.Prelude.{◌≡◌, ◌<◌, OnOk, IfOk};
ghost use Rattle.asm_program.specs.Items.{invariant_name};
ghost use Rattle.asm_items.specs.Views.{with_items};
ghost use Rattle.asm_items.specs.Parts as parts;

use crate::declarations::counted;
use crate::item::{Item, Items};
use crate::ranges::params_items;
use crate::rules::rule_items;
use crate::terms::term_items;
use crate::words::text_of;
use asm_base::Text;
use asm_program::Limited;
use asm_syntax::{DefTree, ParamsTree, RuleTree, Span, TermTree, Token};
use std::alloc::{AllocError, Global};

/// The name of the invariant with this number, from 1: `inv_k` where it has none in the text.
pub fn invariant_name(
    alloc: Global,
    number: usize,
    name: &Option<Token>,
) -> Result<Text, AllocError>
    ensures { IfOk result (λ text. text ≡ invariant_name number name.now) }
{
    match name {
        None => Ok(Text::from_string(format!(in alloc; "inv_{number}")?)),
        Some(name) => Text::from_str(alloc, text_of(name)),
    }
}

/// What an invariant declares and counts, in the order of their places.
#[tactic(auto, using(crate::proofs::ModelSteps::invariant_steps))]
fn invariant_items<'a>(
    items: &mut Items<'a>,
    number: usize,
    name: &'a Option<Token>,
    span: Span,
) -> Result<(), AllocError>
    ensures { OnOk result
        (items.new ≡ with_items items.old (parts.invariant_part number name.now span)) }
{
    match name {
        None => {
            let text = invariant_name(items.alloc(), number, name)?;
            items.push(Item::DeclaresInvariant(text, span))?;
            items.push(Item::Counts(Limited::Invariants, span))
        }
        Some(name) => named_invariant(items, name, span),
    }
}

/// What an invariant with a name declares and counts.
#[tactic(auto, using(crate::proofs::ModelSteps::named_steps))]
fn named_invariant(items: &mut Items, name: &Token, span: Span) -> Result<(), AllocError>
    ensures { OnOk result
        (items.new ≡ with_items items.old (parts.named_invariant name.now span)) }
{
    let text = Text::from_str(items.alloc(), text_of(name))?;
    items.push(Item::Counts(Limited::Invariants, span))?;
    items.push(Item::DeclaresInvariant(text, name.span))
}

/// The items of a term over parameters.
#[tactic(auto, using(crate::proofs::ModelSteps::body_steps))]
pub(crate) fn body_items<'a>(
    items: &mut Items<'a>,
    params: &'a Option<ParamsTree>,
    term: &'a TermTree,
) -> Result<(), AllocError>
    ensures { OnOk result
        (items.new ≡ with_items items.old (parts.body_items params.now term.now)) }
{
    params_items(items, params)?;
    term_items(items, term)
}

/// The items of a macro rule.
#[tactic(auto, using(crate::proofs::ModelSteps::macro_steps))]
fn macro_items<'a>(
    items: &mut Items<'a>,
    name: &'a Token,
    params: &'a Option<ParamsTree>,
    body: &'a RuleTree,
    span: Span,
) -> Result<(), AllocError>
    ensures { OnOk result
        (items.new ≡ with_items items.old
        (parts.macro_items name.now params.now body.now span)) }
{
    counted(items, Limited::Macros, name, span)?;
    params_items(items, params)?;
    rule_items(items, body)
}

/// The items of a definition, where the next invariant has this number.
#[tactic(auto, using(crate::proofs::ModelSteps::def_steps))]
fn def_items<'a>(items: &mut Items<'a>, number: usize, def: &'a DefTree) -> Result<(), AllocError>
    ensures { OnOk result (items.new ≡ with_items items.old (parts.def_items number def.now)) }
{
    match def {
        DefTree::Interval(name, from, to, _) => items.push(Item::GivesInterval(name, from, to)),
        DefTree::Integers(name, first, others, _) => {
            items.push(Item::GivesIntegers(name, first, others.as_slice()))
        }
        DefTree::Function(_, params, term, _) => body_items(items, params, term.get()),
        DefTree::Rule(name, params, body, span) => {
            macro_items(items, name, params, body.get(), *span)
        }
        DefTree::Invariant(name, _, _, term, span) => {
            invariant_items(items, number, name, *span)?;
            term_items(items, term.get())
        }
    }
}

/// The number of the next invariant after a definition.
fn number_after(number: usize, def: &DefTree) -> usize
    requires { number < usize.MAX }
    ensures { result ≡ parts.number_after number def.now }
{
    match def {
        DefTree::Invariant(_, _, _, _, _) => number + 1,
        DefTree::Interval(_, _, _, _)
        | DefTree::Integers(_, _, _, _)
        | DefTree::Function(_, _, _, _)
        | DefTree::Rule(_, _, _, _) => number,
    }
}

/// The items of definitions.
#[tactic(auto, using(crate::proofs::ModelSteps::defs_steps))]
pub(crate) fn defs_items<'a>(items: &mut Items<'a>, defs: &'a [DefTree]) -> Result<(), AllocError>
    ensures { OnOk result (items.new ≡ with_items items.old (parts.defs_from 1 defs.now)) }
{
    let mut number = 1;
    for def in defs {
        def_items(items, number, def)?;
        number = number_after(number, def);
    }
    Ok(())
}
