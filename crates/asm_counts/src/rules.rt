//! The depth and the work of rules.
ghost use Rattle.std.specs.Prelude.{◌≡◌};
ghost use Rattle.asm_program.specs.Forms.{of_rule};
ghost use Rattle.asm_counts.specs.CountLevels as spec;

use crate::counts::{Counts, known, nothing};
use crate::terms::{all_counts, combinations, counted, other};
use asm_program::{Rule, RuleCase};
use asm_value::{Boxed, Domain, Domains};

#[cycle(rules)]
#[tactic(auto, using(crate::proofs::RuleSteps::all_steps))]
fn all(domains: &Domains, functions: &[Counts], macros: &[Counts], rules: &[Boxed<Rule>]) -> Counts
    ensures { result ≡ spec.rules_counts domains.now
        (spec.term_counts domains.now (spec.known functions.now)) (spec.known macros.now)
        rules.now }
{
    let mut counts = nothing();
    for rule in rules {
        counts = counts.both(rule_counted(domains, functions, macros, rule.get()));
    }
    counts
}

#[cycle(rules)]
#[tactic(auto, using(crate::proofs::RuleSteps::case_steps))]
fn case(domains: &Domains, functions: &[Counts], macros: &[Counts], case: &RuleCase) -> Counts
    ensures { result ≡ spec.rule_case_counts domains.now
        (spec.term_counts domains.now (spec.known functions.now)) (spec.known macros.now)
        case.now }
{
    let value = counted(domains, functions, case.value.get());
    value.both(rule_counted(domains, functions, macros, case.rule.get()))
}

#[cycle(rules)]
#[tactic(auto, using(crate::proofs::RuleSteps::cases_steps))]
fn cases(domains: &Domains, functions: &[Counts], macros: &[Counts], cases: &[RuleCase]) -> Counts
    ensures { result ≡ spec.rule_cases_counts domains.now
        (spec.term_counts domains.now (spec.known functions.now)) (spec.known macros.now)
        cases.now }
{
    let mut counts = nothing();
    for next in cases {
        counts = counts.both(case(domains, functions, macros, next));
    }
    counts
}

#[cycle(rules)]
#[tactic(auto, using(crate::proofs::RuleSteps::other_steps))]
fn other_rule(
    domains: &Domains,
    functions: &[Counts],
    macros: &[Counts],
    rule: &Option<Boxed<Rule>>,
) -> Counts
    ensures { result ≡ spec.other_rule_counts domains.now
        (spec.term_counts domains.now (spec.known functions.now)) (spec.known macros.now)
        rule.now }
{
    match rule {
        Some(rule) => rule_counted(domains, functions, macros, rule.get()),
        None => nothing(),
    }
}

/// The guard and the body for each combination of members.
fn each(domains: &Domains, ranges: &[Domain], guard: Counts, body: Counts) -> Counts
    ensures { result ≡ spec.times (spec.combinations domains.now ranges.now)
        (spec.both guard body) }
{
    guard.both(body).times(combinations(domains, ranges))
}

/// The depth and the work of a rule, where these are those of the functions and the macro rules by
/// their numbers. A called body is where the call is, whose arguments are a path of their own;
/// ranges multiply the work of their guard and their body. Takes no memory.
#[tactic(auto, unfolding(crate::specs::CountLevels::rule_counts))]
pub fn rule_counts(
    domains: &Domains,
    functions: &[Counts],
    macros: &[Counts],
    rule: &Rule,
) -> Counts
    ensures { result
        ≡ of_rule (spec.rule_counts_level domains.now
        (spec.term_counts domains.now (spec.known functions.now))) (spec.known macros.now)
        rule.now }
{
    rule_counted(domains, functions, macros, rule)
}

#[cycle(rules)]
#[tactic(auto, using(crate::proofs::RuleSteps::rule_steps))]
fn rule_counted(domains: &Domains, functions: &[Counts], macros: &[Counts], rule: &Rule) -> Counts
    ensures { result ≡ spec.rule_counts domains.now
        (spec.term_counts domains.now (spec.known functions.now)) (spec.known macros.now)
        rule.now }
{
    match rule {
        Rule::Skip => nothing().node(),
        Rule::Call { rule, args } => {
            let own = all_counts(domains, functions, args.as_slice()).node();
            own.both(known(macros, *rule))
        }
        Rule::Update { args, value, .. } => {
            let args = all_counts(domains, functions, args.as_slice());
            args.both(counted(domains, functions, value.get())).node()
        }
        Rule::Par { parts, .. } | Rule::Seq { parts, .. } => {
            all(domains, functions, macros, parts.as_slice()).node()
        }
        Rule::If {
            guard,
            then: first,
            other: last,
        } => {
            let guard = counted(domains, functions, guard.get());
            let parts = guard.both(rule_counted(domains, functions, macros, first.get()));
            parts
                .both(other_rule(domains, functions, macros, last))
                .node()
        }
        Rule::Forall {
            ranges,
            guard,
            body,
            ..
        } => {
            let guard = other(domains, functions, guard);
            let body = rule_counted(domains, functions, macros, body.get());
            each(domains, ranges.as_slice(), guard, body).node()
        }
        Rule::Choose {
            ranges,
            guard,
            body,
            other: last,
            ..
        } => {
            let guard = other(domains, functions, guard);
            let body = rule_counted(domains, functions, macros, body.get());
            let each = each(domains, ranges.as_slice(), guard, body);
            each.both(other_rule(domains, functions, macros, last))
                .node()
        }
        Rule::Let { values, body } => {
            let values = all_counts(domains, functions, values.as_slice());
            values
                .both(rule_counted(domains, functions, macros, body.get()))
                .node()
        }
        Rule::Switch {
            value,
            cases: listed,
            other: last,
        } => {
            let value = counted(domains, functions, value.get());
            let parts = value.both(cases(domains, functions, macros, listed.as_slice()));
            parts
                .both(other_rule(domains, functions, macros, last))
                .node()
        }
        Rule::Extend { body, .. } => rule_counted(domains, functions, macros, body.get()).node(),
    }
}
