//! The items of rules.
ghost use Rattle.std.specs.Prelude.{◌≡◌, OnOk};
ghost use Rattle.asm_program.specs.Items.{rule_items};
ghost use Rattle.asm_items.specs.Views.{with_items};
ghost use Rattle.asm_items.specs.Parts as parts;

use crate::item::{Item, Items};
use crate::ranges::{ranges_items, variables_items};
use crate::terms::{args_items, binds_items, maybe_term_items, term_items};
use asm_base::Boxed;
use asm_syntax::{RangesTree, RuleCaseTree, RuleTree, TermTree};
use std::alloc::AllocError;

/// The items of a rule.
#[cycle(rules)]
#[tactic(auto, using(crate::proofs::RuleSteps::rule_steps))]
pub fn rule_items<'a>(items: &mut Items<'a>, rule: &'a RuleTree) -> Result<(), AllocError>
    ensures { OnOk result (items.new ≡ with_items items.old (rule_items rule.now)) }
{
    match rule {
        RuleTree::Skip(_) => Ok(()),
        RuleTree::Call(name, args, _) => {
            items.push(Item::NamesMacro(name))?;
            args_items(items, args)
        }
        RuleTree::Update(_, args, value, _) => {
            args_items(items, args)?;
            term_items(items, value.get())
        }
        RuleTree::Par(first, others, _) | RuleTree::Seq(first, others, _) => {
            rule_items(items, first.get())?;
            more_rule_items(items, others.as_slice())
        }
        RuleTree::If(guard, first, other, _) => {
            term_items(items, guard.get())?;
            rule_items(items, first.get())?;
            maybe_rule_items(items, other)
        }
        RuleTree::Forall(ranges, guard, body, _) => {
            quantifier_items(items, ranges, guard)?;
            rule_items(items, body.get())
        }
        RuleTree::Choose(ranges, guard, body, other, _) => {
            quantifier_items(items, ranges, guard)?;
            rule_items(items, body.get())?;
            maybe_rule_items(items, other)
        }
        RuleTree::Let(binds, body, _) => {
            binds_items(items, binds)?;
            rule_items(items, body.get())
        }
        RuleTree::Switch(value, cases, other, _) => {
            term_items(items, value.get())?;
            rule_case_items(items, cases.as_slice())?;
            maybe_rule_items(items, other)
        }
        RuleTree::Extend(_, first, others, body, _) => {
            variables_items(items, first, others.as_slice())?;
            rule_items(items, body.get())
        }
    }
}

/// The items of ranges and of the guard, if there is one.
#[tactic(auto, using(crate::proofs::RuleSteps::quantifier_steps))]
fn quantifier_items<'a>(
    items: &mut Items<'a>,
    ranges: &'a RangesTree,
    guard: &'a Option<Boxed<TermTree>>,
) -> Result<(), AllocError>
    ensures { OnOk result
        (items.new ≡ with_items items.old (parts.quantifier ranges.now guard.now)) }
{
    ranges_items(items, ranges)?;
    maybe_term_items(items, guard)
}

/// The items of rules, one after the other.
#[cycle(rules)]
#[tactic(auto, using(crate::proofs::RuleSteps::more_rules_steps))]
fn more_rule_items<'a>(
    items: &mut Items<'a>,
    rules: &'a [Boxed<RuleTree>],
) -> Result<(), AllocError>
    ensures { OnOk result (items.new ≡ with_items items.old (parts.more_rules rules.now)) }
{
    for rule in rules {
        rule_items(items, rule.get())?;
    }
    Ok(())
}

/// The items of a rule, if there is one.
#[cycle(rules)]
#[tactic(auto, using(crate::proofs::RuleSteps::maybe_rule_steps))]
fn maybe_rule_items<'a>(
    items: &mut Items<'a>,
    rule: &'a Option<Boxed<RuleTree>>,
) -> Result<(), AllocError>
    ensures { OnOk result (items.new ≡ with_items items.old (parts.maybe_rule rule.now)) }
{
    match rule {
        None => Ok(()),
        Some(rule) => rule_items(items, rule.get()),
    }
}

/// The items of cases.
#[cycle(rules)]
#[tactic(auto, using(crate::proofs::RuleSteps::rule_cases_steps))]
fn rule_case_items<'a>(items: &mut Items<'a>, cases: &'a [RuleCaseTree]) -> Result<(), AllocError>
    ensures { OnOk result (items.new ≡ with_items items.old (parts.rule_cases cases.now)) }
{
    for case in cases {
        term_items(items, case.value.get())?;
        rule_items(items, case.rule.get())?;
    }
    Ok(())
}
