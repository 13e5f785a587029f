//! The items of variables, ranges and parameters.
ghost use Rattle.std.specs.Prelude.{◌≡◌, OnOk};
ghost use Rattle.asm_syntax.specs.Marks.{text_of};
ghost use Rattle.asm_program.specs.Items.{repeated, domain_items};
ghost use Rattle.asm_items.specs.Views.{seen_with, with_items};
ghost use Rattle.asm_items.specs.Parts as parts;

use crate::domains::{domain_items, ninth};
use crate::item::{Item, Items};
use crate::name_set::NameSet;
use crate::words::text_of;
use asm_syntax::{ParamsTree, RangeTree, RangesTree, Token};
use std::alloc::AllocError;

/// That a variable is among those of its list before it. It becomes one of them.
#[tactic(auto, using(crate::proofs::Steps::repeated_steps))]
pub(crate) fn repeated<'a>(
    items: &mut Items<'a>,
    seen: &mut NameSet,
    variable: &'a Token,
) -> Result<(), AllocError>
    ensures items { OnOk result (items.new
        ≡ with_items items.old (repeated seen.old variable.now)) }
    ensures seen { OnOk result (seen.new ≡ seen_with (text_of variable.now) seen.old) }
{
    if seen.insert(text_of(variable))? {
        Ok(())
    } else {
        items.push(Item::Repeats(variable))
    }
}

/// The items of variables alone, which are together in one list.
#[tactic(auto, using(crate::proofs::RangeSteps::variables_steps))]
pub(crate) fn variables_items<'a>(
    items: &mut Items<'a>,
    first: &'a Token,
    others: &'a [Token],
) -> Result<(), AllocError>
    ensures { OnOk result
        (items.new ≡ with_items items.old (parts.all_variables first.now others.now)) }
{
    let mut seen = NameSet::new(items.alloc());
    repeated(items, &mut seen, first)?;
    more_variables_items(items, &mut seen, others)
}

#[tactic(auto, using(crate::proofs::RangeSteps::more_variables_steps))]
fn more_variables_items<'a>(
    items: &mut Items<'a>,
    seen: &mut NameSet,
    variables: &'a [Token],
) -> Result<(), AllocError>
    ensures { OnOk result
        (items.new ≡ with_items items.old (parts.more_variables seen.old variables.now)) }
{
    for variable in variables {
        repeated(items, seen, variable)?;
    }
    Ok(())
}

// ---- ranges

fn range_items<'a>(
    items: &mut Items<'a>,
    seen: &mut NameSet,
    range: &'a RangeTree,
) -> Result<(), AllocError>
    ensures items { OnOk result
        (items.new ≡ with_items (with_items items.old (repeated seen.old range.now.variable))
        (domain_items range.now.domain)) }
    ensures seen { OnOk result (seen.new ≡ seen_with (text_of range.now.variable) seen.old) }
{
    repeated(items, seen, &range.variable)?;
    domain_items(items, range.domain.get())
}

#[tactic(auto, using(crate::proofs::RangeSteps::ranges_steps))]
fn more_range_items<'a>(
    items: &mut Items<'a>,
    seen: &mut NameSet,
    ranges: &'a [RangeTree],
) -> Result<(), AllocError>
    ensures { OnOk result
        (items.new ≡ with_items items.old (parts.more_ranges seen.old ranges.now)) }
{
    for range in ranges {
        range_items(items, seen, range)?;
    }
    Ok(())
}

/// The items of ranges.
#[tactic(auto, using(crate::proofs::RangeSteps::all_ranges_steps))]
pub(crate) fn ranges_items<'a>(
    items: &mut Items<'a>,
    ranges: &'a RangesTree,
) -> Result<(), AllocError>
    ensures { OnOk result (items.new ≡ with_items items.old (parts.all_ranges ranges.now)) }
{
    let mut seen = NameSet::new(items.alloc());
    range_items(items, &mut seen, &ranges.first)?;
    more_range_items(items, &mut seen, ranges.others.as_slice())
}

// ---- parameters

#[tactic(auto, using(crate::proofs::RangeSteps::params_steps))]
fn more_param_items<'a>(
    items: &mut Items<'a>,
    seen: &mut NameSet,
    ranges: &'a [RangeTree],
) -> Result<(), AllocError>
    ensures { OnOk result
        (items.new ≡ with_items items.old (parts.more_params 2 seen.old ranges.now)) }
{
    for (at, range) in ranges.iter().enumerate() {
        repeated(items, seen, &range.variable)?;
        ninth(items, at + 2, range.variable.span)?;
        domain_items(items, range.domain.get())?;
    }
    Ok(())
}

/// The items of parameters.
#[tactic(auto, using(crate::proofs::RangeSteps::all_params_steps))]
pub(crate) fn params_items<'a>(
    items: &mut Items<'a>,
    params: &'a Option<ParamsTree>,
) -> Result<(), AllocError>
    ensures { OnOk result (items.new ≡ with_items items.old (parts.all_params params.now)) }
{
    match params {
        None => Ok(()),
        Some(params) => {
            let mut seen = NameSet::new(items.alloc());
            range_items(items, &mut seen, &params.ranges.first)?;
            more_param_items(items, &mut seen, params.ranges.others.as_slice())
        }
    }
}
