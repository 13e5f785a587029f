//! Rules: one function for each form.
ghost use Rattle.std.specs.Prelude.{◌≡◌, ◌+◌, [], ◌∷◌, ◌++◌, length, OnOk, OnErr, None};
ghost use Rattle.asm_program.specs.Items.{list_of_ranges};
ghost use Rattle.asm_typing.specs.declared.types.Type.TheVariants as type;
ghost use Rattle.asm_program.specs.declared.trees.Rule.TheVariants as rules;
ghost use Rattle.asm_program.specs.Checks.{Checks};
ghost use Rattle.asm_program.specs.TypedTerms.{checked, some_term, with_variable};
ghost use Rattle.asm_program.specs.TypedRules as spec;
ghost use Rattle.asm_program.specs.TypedRules.{checked_rule};
ghost use Rattle.asm_typed.specs.Answers.{Gives, Passes};
ghost use Rattle.asm_typed.specs.Sizes.{ranges_refused, with_ranges, range_domains};
ghost use Rattle.asm_typed.specs.Forms.{all_bound};
ghost use Rattle.asm_typed_rules.specs.Forms as forms;
ghost use Rattle.asm_typed_rules.specs.Forms.{GivesRule, IsRule};

use crate::forms::simple;
use crate::typed::{TypedRule, TypedRules, added};
use crate::updates::{call, update};
use asm_items::text_of;
use asm_program::{Named, Rule, RuleCase, Term, TypeRefusal};
use asm_scope::Scope;
use asm_syntax::{BindsTree, RangesTree, RuleCaseTree, RuleTree, Span, TermTree, Token};
use asm_typed::{
    Typed, Variables, add_ranges, all_join, binds_typed, ranges_enumerable, typed_at, unknown,
};
use asm_typing::Type;
use asm_value::{Boxed, Domain, List};
use std::alloc::{AllocError, Global};

// ---- parts

/// One more rule after those that are typed already, with their `choose` words before it.
#[cycle(rules)]
#[tactic(auto, using(crate::proofs::Steps::refusals))]
fn add_rule(
    alloc: Global,
    scope: &Scope,
    variables: &mut Variables,
    parts: &mut TypedRules,
    tree: &RuleTree,
    before: usize,
) -> Result<(), TypeRefusal>
    ensures refused { Passes result (checked_rule scope.now tree.now variables.old).refused }
    ensures rules { OnOk result (parts.new.rules ≡ parts.old.rules
        ++ (checked_rule scope.now tree.now variables.old).rule (before + parts.old.chooses) ∷ []) }
    ensures chooses { OnOk result (parts.new.chooses
        ≡ parts.old.chooses + (checked_rule scope.now tree.now variables.old).chooses) }
    ensures same { variables.new ≡ variables.old }
{
    let at = added(before, parts.chooses)?;
    let part = rule_at(alloc, scope, variables, tree, at)?;
    parts.chooses = added(parts.chooses, part.chooses)?;
    parts.rules.push(part.rule)?;
    Ok(())
}

/// The rules after those that are typed already.
#[cycle(rules)]
#[tactic(auto, using(crate::proofs::Counts::more_steps))]
fn add_rules(
    alloc: Global,
    scope: &Scope,
    variables: &mut Variables,
    parts: &mut TypedRules,
    trees: &[Boxed<RuleTree>],
    before: usize,
) -> Result<(), TypeRefusal>
    ensures refused { Passes result
        (forms.all_rules_refused (forms.rules_at scope.now variables.old trees.now)) }
    ensures rules { OnOk result (parts.new.rules ≡ parts.old.rules
        ++ forms.numbered (forms.rules_at scope.now variables.old trees.now)
        (before + parts.old.chooses)) }
    ensures chooses { OnOk result (parts.new.chooses ≡ parts.old.chooses
        + forms.all_chooses (forms.rules_at scope.now variables.old trees.now)) }
    ensures same { variables.new ≡ variables.old }
{
    for tree in trees {
        match add_rule(alloc, scope, variables, parts, tree.get(), before) {
            Ok(()) => {}
            Err(why) => return Err(why),
        }
    }
    Ok(())
}

/// The other rule, if there is one.
#[derive(Drop)]
pub(crate) struct OtherRule {
    rule: Option<Boxed<Rule>>,
    chooses: usize,
}

/// The other rule, if there is one, after so many `choose` words and some more.
#[cycle(rules)]
#[tactic(auto, using(crate::proofs::Steps::tree_steps), unfolding(crate::specs::Forms::other_at, crate::specs::Forms::other_refused, crate::specs::Forms::other_chooses, crate::specs::Forms::other_rule))]
fn other_typed(
    alloc: Global,
    scope: &Scope,
    variables: &mut Variables,
    tree: &Option<Boxed<RuleTree>>,
    before: usize,
    more: usize,
) -> Result<OtherRule, TypeRefusal>
    ensures typed { Gives result
        (forms.other_refused (forms.other_at scope.now variables.old tree.now))
        (λ o. (o.rule ≡ forms.other_rule (forms.other_at scope.now variables.old tree.now)
        (before + more))
        × (o.chooses ≡ forms.other_chooses (forms.other_at scope.now variables.old tree.now))) }
    ensures same { variables.new ≡ variables.old }
{
    match tree {
        Some(tree) => {
            let at = added(before, more)?;
            let other = rule_at(alloc, scope, variables, tree.get(), at)?;
            Ok(OtherRule {
                rule: Some(other.rule),
                chooses: other.chooses,
            })
        }
        None => Ok(OtherRule {
            rule: None,
            chooses: 0,
        }),
    }
}

// ---- guards

#[tactic(auto, using(crate::proofs::Steps::refusals), unfolding(crate::specs::Forms::guard_refused))]
fn guard_typed(
    alloc: Global,
    scope: &Scope,
    variables: &mut Variables,
    guard: &TermTree,
) -> Result<Boxed<Term>, TypeRefusal>
    ensures typed { Gives result
        (forms.guard_refused (checked scope.now guard.now variables.old))
        (λ g. g ≡ (checked scope.now guard.now variables.old).term) }
    ensures same { variables.new ≡ variables.old }
{
    let guard = typed_at(alloc, scope, variables, guard)?;
    guard.is_truth()?;
    Ok(guard.term)
}

#[tactic(auto, using(crate::proofs::Steps::tree_steps), unfolding(crate::specs::Forms::guard_at, crate::specs::Forms::guards_refused, crate::specs::Forms::guard_refused))]
fn option_guard(
    alloc: Global,
    scope: &Scope,
    variables: &mut Variables,
    guard: &Option<Boxed<TermTree>>,
) -> Result<Option<Boxed<Term>>, TypeRefusal>
    ensures typed { Gives result
        (forms.guards_refused (forms.guard_at scope.now variables.old guard.now))
        (λ g. g ≡ some_term (forms.guard_at scope.now variables.old guard.now)) }
    ensures same { variables.new ≡ variables.old }
{
    match guard {
        Some(guard) => Ok(Some(guard_typed(alloc, scope, variables, guard.get())?)),
        None => Ok(None),
    }
}

// ---- forms

/// The first rule of a list.
#[cycle(rules)]
#[tactic(auto, using(crate::proofs::Steps::tree_steps))]
fn one_typed(
    alloc: Global,
    scope: &Scope,
    variables: &mut Variables,
    tree: &RuleTree,
    before: usize,
) -> Result<TypedRules, TypeRefusal>
    ensures typed { Gives result (checked_rule scope.now tree.now variables.old).refused
        (λ all. (all.rules ≡ [] ++ (checked_rule scope.now tree.now variables.old).rule
        (before + 0) ∷ [])
        × (all.chooses ≡ 0 + (checked_rule scope.now tree.now variables.old).chooses)) }
    ensures same { variables.new ≡ variables.old }
{
    let mut parts = TypedRules::new(alloc);
    add_rule(alloc, scope, variables, &mut parts, tree, before)?;
    Ok(parts)
}

/// The rules of a list, all at the same time.
#[cycle(rules)]
#[tactic(auto, using(crate::proofs::Steps::tree_steps))]
fn par(
    alloc: Global,
    scope: &Scope,
    variables: &mut Variables,
    others: &[Boxed<RuleTree>],
    parts: TypedRules,
    span: Span,
    before: usize,
) -> Result<TypedRule, TypeRefusal>
    ensures typed { Gives result
        (forms.all_rules_refused (forms.rules_at scope.now variables.old others.now))
        (λ r. (r.rule ≡ rules.Par (parts.rules ++ forms.numbered
        (forms.rules_at scope.now variables.old others.now) (before + parts.chooses)) span)
        × (r.chooses ≡ parts.chooses
        + forms.all_chooses (forms.rules_at scope.now variables.old others.now))) }
    ensures same { variables.new ≡ variables.old }
{
    let mut parts = parts;
    add_rules(alloc, scope, variables, &mut parts, others, before)?;
    let chooses = parts.chooses;
    let parts = parts.rules;
    let rule = Boxed::new(alloc, Rule::Par { parts, span })?;
    Ok(TypedRule { rule, chooses })
}

/// The rules of a list, each in the state that those before it leave.
#[cycle(rules)]
#[tactic(auto, using(crate::proofs::Steps::tree_steps))]
fn seq(
    alloc: Global,
    scope: &Scope,
    variables: &mut Variables,
    others: &[Boxed<RuleTree>],
    parts: TypedRules,
    span: Span,
    before: usize,
) -> Result<TypedRule, TypeRefusal>
    ensures typed { Gives result
        (forms.all_rules_refused (forms.rules_at scope.now variables.old others.now))
        (λ r. (r.rule ≡ rules.Seq (parts.rules ++ forms.numbered
        (forms.rules_at scope.now variables.old others.now) (before + parts.chooses)) span)
        × (r.chooses ≡ parts.chooses
        + forms.all_chooses (forms.rules_at scope.now variables.old others.now))) }
    ensures same { variables.new ≡ variables.old }
{
    let mut parts = parts;
    add_rules(alloc, scope, variables, &mut parts, others, before)?;
    let chooses = parts.chooses;
    let parts = parts.rules;
    let rule = Boxed::new(alloc, Rule::Seq { parts, span })?;
    Ok(TypedRule { rule, chooses })
}

/// The guard of a rule, and the rule.
#[derive(Drop)]
pub(crate) struct First {
    guard: Boxed<Term>,
    rule: TypedRule,
}

#[cycle(rules)]
#[tactic(auto, using(crate::proofs::Steps::refusals))]
fn first_typed(
    alloc: Global,
    scope: &Scope,
    variables: &mut Variables,
    tree: &RuleTree,
    guard: &TermTree,
    before: usize,
) -> Result<First, TypeRefusal>
    ensures typed { Gives result
        (forms.guard_refused (checked scope.now guard.now variables.old)
        ++ (checked_rule scope.now tree.now variables.old).refused)
        (λ f. (f.guard ≡ (checked scope.now guard.now variables.old).term)
        × IsRule f.rule (checked_rule scope.now tree.now variables.old) before) }
    ensures same { variables.new ≡ variables.old }
{
    let guard = guard_typed(alloc, scope, variables, guard)?;
    let rule = rule_at(alloc, scope, variables, tree, before)?;
    Ok(First { guard, rule })
}

/// A guarded rule, and the other, if there is one.
#[cycle(rules)]
#[tactic(auto, using(crate::proofs::Steps::tree_steps))]
fn conditional(
    alloc: Global,
    scope: &Scope,
    variables: &mut Variables,
    other: &Option<Boxed<RuleTree>>,
    first: First,
    before: usize,
) -> Result<TypedRule, TypeRefusal>
    ensures typed { Gives result
        (forms.other_refused (forms.other_at scope.now variables.old other.now))
        (λ r. (r.rule ≡ rules.If first.guard first.rule.rule (forms.other_rule
        (forms.other_at scope.now variables.old other.now) (before + first.rule.chooses)))
        × (r.chooses ≡ first.rule.chooses
        + forms.other_chooses (forms.other_at scope.now variables.old other.now))) }
    ensures same { variables.new ≡ variables.old }
{
    let more = first.rule.chooses;
    let other = other_typed(alloc, scope, variables, other, before, more)?;
    let chooses = added(first.rule.chooses, other.chooses)?;
    let rule = Rule::If {
        guard: first.guard,
        then: first.rule.rule,
        other: other.rule,
    };
    let rule = Boxed::new(alloc, rule)?;
    Ok(TypedRule { rule, chooses })
}

/// A guard, and a body.
#[derive(Drop)]
pub(crate) struct Guarded {
    guard: Option<Boxed<Term>>,
    body: TypedRule,
}

#[cycle(rules)]
#[tactic(auto, using(crate::proofs::Steps::refusals))]
fn guarded_typed(
    alloc: Global,
    scope: &Scope,
    variables: &mut Variables,
    body: &RuleTree,
    guard: &Option<Boxed<TermTree>>,
    before: usize,
) -> Result<Guarded, TypeRefusal>
    ensures typed { Gives result
        (forms.guards_refused (forms.guard_at scope.now variables.old guard.now)
        ++ (checked_rule scope.now body.now variables.old).refused)
        (λ g. (g.guard ≡ some_term (forms.guard_at scope.now variables.old guard.now))
        × IsRule g.body (checked_rule scope.now body.now variables.old) before) }
    ensures same { variables.new ≡ variables.old }
{
    let guard = option_guard(alloc, scope, variables, guard)?;
    let body = rule_at(alloc, scope, variables, body, before)?;
    Ok(Guarded { guard, body })
}

/// The domains of ranges, a guard, and a body.
#[derive(Drop)]
pub(crate) struct Ranged {
    ranges: List<Domain>,
    guarded: Guarded,
}

#[cycle(rules)]
#[tactic(auto, using(crate::proofs::Steps::ranged_steps))]
fn ranged_typed(
    alloc: Global,
    scope: &Scope,
    variables: &mut Variables,
    body: &RuleTree,
    ranges: &RangesTree,
    guard: &Option<Boxed<TermTree>>,
    before: usize,
) -> Result<Ranged, TypeRefusal>
    ensures typed { Gives result
        (ranges_refused scope.now (list_of_ranges ranges.now)
        ++ forms.guards_refused (forms.guard_at scope.now
        (with_ranges scope.now variables.old (list_of_ranges ranges.now)) guard.now)
        ++ (checked_rule scope.now body.now
        (with_ranges scope.now variables.old (list_of_ranges ranges.now))).refused)
        (λ r. (r.ranges ≡ range_domains scope.now (list_of_ranges ranges.now))
        × (r.guarded.guard ≡ some_term (forms.guard_at scope.now
        (with_ranges scope.now variables.old (list_of_ranges ranges.now)) guard.now))
        × IsRule r.guarded.body (checked_rule scope.now body.now
        (with_ranges scope.now variables.old (list_of_ranges ranges.now))) before) }
    ensures same { variables.new ≡ variables.old }
{
    ranges_enumerable(alloc, scope, ranges)?;
    let outer = variables.len();
    let ranges = add_ranges(alloc, scope, variables, ranges)?;
    let guarded = guarded_typed(alloc, scope, variables, body, guard, before);
    variables.truncate(outer);
    Ok(Ranged {
        ranges,
        guarded: guarded?,
    })
}

#[cycle(rules)]
#[tactic(auto, using(crate::proofs::Steps::refusals), unfolding(crate::specs::Forms::forall_rule, crate::specs::Forms::guards_refused))]
fn forall(
    alloc: Global,
    scope: &Scope,
    variables: &mut Variables,
    body: &RuleTree,
    ranges: &RangesTree,
    guard: &Option<Boxed<TermTree>>,
    span: Span,
    before: usize,
) -> Result<TypedRule, TypeRefusal>
    ensures typed { GivesRule result (forms.forall_rule
        (ranges_refused scope.now (list_of_ranges ranges.now))
        (range_domains scope.now (list_of_ranges ranges.now))
        (forms.guard_at scope.now
        (with_ranges scope.now variables.old (list_of_ranges ranges.now)) guard.now)
        (checked_rule scope.now body.now
        (with_ranges scope.now variables.old (list_of_ranges ranges.now))) span) before }
    ensures same { variables.new ≡ variables.old }
{
    let Ranged { ranges, guarded } = ranged_typed(
        alloc, scope, variables, body, ranges, guard, before,
    )?;
    let chooses = guarded.body.chooses;
    let rule = Rule::Forall {
        ranges,
        guard: guarded.guard,
        body: guarded.body.rule,
        span,
    };
    let rule = Boxed::new(alloc, rule)?;
    Ok(TypedRule { rule, chooses })
}

/// A rule for chosen values, and the other, where there are none.
#[cycle(rules)]
#[tactic(auto, using(crate::proofs::Steps::tree_steps))]
fn choose(
    alloc: Global,
    scope: &Scope,
    variables: &mut Variables,
    other: &Option<Boxed<RuleTree>>,
    ranged: Ranged,
    before: usize,
) -> Result<TypedRule, TypeRefusal>
    ensures typed { Gives result
        (forms.other_refused (forms.other_at scope.now variables.old other.now))
        (λ r. (r.rule ≡ rules.Choose ranged.ranges ranged.guarded.guard
        ranged.guarded.body.rule (forms.other_rule
        (forms.other_at scope.now variables.old other.now) (before + 1
        + ranged.guarded.body.chooses)) before)
        × (r.chooses ≡ 1 + ranged.guarded.body.chooses
        + forms.other_chooses (forms.other_at scope.now variables.old other.now))) }
    ensures same { variables.new ≡ variables.old }
{
    let (at, more) = (added(before, 1)?, ranged.guarded.body.chooses);
    let other = other_typed(alloc, scope, variables, other, at, more)?;
    let inner = added(1, ranged.guarded.body.chooses)?;
    let chooses = added(inner, other.chooses)?;
    let rule = Rule::Choose {
        ranges: ranged.ranges,
        guard: ranged.guarded.guard,
        body: ranged.guarded.body.rule,
        other: other.rule,
        place: before,
    };
    let rule = Boxed::new(alloc, rule)?;
    Ok(TypedRule { rule, chooses })
}

#[cycle(rules)]
#[tactic(auto, using(crate::proofs::Steps::let_steps), unfolding(crate::specs::Forms::let_in))]
fn let_rule(
    alloc: Global,
    scope: &Scope,
    variables: &mut Variables,
    body: &RuleTree,
    tree: &BindsTree,
    before: usize,
) -> Result<TypedRule, TypeRefusal>
    ensures typed { GivesRule result (forms.let_in (all_bound scope.now variables.old tree.now)
        (checked_rule scope.now body.now (all_bound scope.now variables.old tree.now).variables))
        before }
    ensures same { variables.new ≡ variables.old }
{
    let outer = variables.len();
    let values = binds_typed(alloc, scope, variables, tree)?;
    let body = rule_at(alloc, scope, variables, body, before);
    variables.truncate(outer);
    let TypedRule {
        rule: body,
        chooses,
    } = body?;
    let rule = Boxed::new(alloc, Rule::Let { values, body })?;
    Ok(TypedRule { rule, chooses })
}

// ---- switches

/// Whether memory ran out.
fn is_memory(why: &TypeRefusal) -> bool
    ensures { result ≡ forms.is_memory why.now }
{
    match why {
        TypeRefusal::NoMemory => true,
        TypeRefusal::Duplicate(_, _)
        | TypeRefusal::Unknown(_, _)
        | TypeRefusal::Mismatch(_)
        | TypeRefusal::Recursive(_, _)
        | TypeRefusal::NotEnumerable(_)
        | TypeRefusal::Missing(_, _)
        | TypeRefusal::Limit(_, _, _)
        | TypeRefusal::TooMuchWork(_, _) => false,
    }
}

/// The types of the cases' values; None where one of the values is refused.
#[tactic(auto, using(crate::proofs::Steps::types_steps))]
fn value_types(
    alloc: Global,
    scope: &Scope,
    variables: &mut Variables,
    cases: &[RuleCaseTree],
) -> Result<Option<List<Type>>, TypeRefusal>
    ensures types { forms.GivesTypes result (forms.values_at scope.now variables.old cases.now) }
    ensures same { variables.new ≡ variables.old }
{
    let mut types = List::new(alloc);
    for case in cases {
        match typed_at(alloc, scope, variables, case.value.get()) {
            Ok(value) => types.push(value.of.into_inner())?,
            Err(why) => {
                if is_memory(&why) {
                    return Err(why);
                }
                return Ok(None);
            }
        }
    }
    Ok(Some(types))
}

/// The values of the cases join with the term after `switch`. This is said of the whole, before its
/// cases, and only where none of the values is refused.
#[tactic(auto, using(crate::proofs::Steps::joined_steps), unfolding(crate::specs::Forms::values_refused))]
fn values_checked(
    alloc: Global,
    scope: &Scope,
    variables: &mut Variables,
    value: &Typed,
    cases: &[RuleCaseTree],
    span: Span,
) -> Result<(), TypeRefusal>
    ensures refused { Passes result (forms.values_refused value.now.of
        (forms.values_at scope.now variables.old cases.now) span) }
    ensures same { variables.new ≡ variables.old }
{
    match value_types(alloc, scope, variables, cases)? {
        Some(types) => all_join(alloc, value.of.get(), types.as_slice(), span),
        None => Ok(()),
    }
}

/// The cases of a switch so far.
#[derive(Drop)]
pub(crate) struct Cases {
    cases: List<RuleCase>,
    chooses: usize,
}

#[cycle(rules)]
#[tactic(auto, using(crate::proofs::Steps::refusals), unfolding(crate::specs::Forms::one_case_refused))]
fn add_case(
    alloc: Global,
    scope: &Scope,
    variables: &mut Variables,
    cases: &mut Cases,
    tree: &RuleCaseTree,
    before: usize,
) -> Result<(), TypeRefusal>
    ensures refused { Passes result
        (forms.one_case_refused (forms.case_at scope.now variables.old tree.now)) }
    ensures cases { OnOk result (cases.new.cases ≡ cases.old.cases ++ forms.numbered_case
        (forms.case_at scope.now variables.old tree.now) (before + cases.old.chooses) ∷ []) }
    ensures chooses { OnOk result (cases.new.chooses ≡ cases.old.chooses
        + (forms.case_at scope.now variables.old tree.now).1.chooses) }
    ensures same { variables.new ≡ variables.old }
{
    let value = typed_at(alloc, scope, variables, tree.value.get())?;
    let at = added(before, cases.chooses)?;
    let rule = rule_at(alloc, scope, variables, tree.rule.get(), at)?;
    cases.chooses = added(cases.chooses, rule.chooses)?;
    cases.cases.push(RuleCase {
        value: value.term,
        rule: rule.rule,
    })?;
    Ok(())
}

#[cycle(rules)]
#[tactic(auto, using(crate::proofs::Counts::cases_steps))]
fn cases_typed(
    alloc: Global,
    scope: &Scope,
    variables: &mut Variables,
    trees: &[RuleCaseTree],
    before: usize,
) -> Result<Cases, TypeRefusal>
    ensures typed { Gives result
        (forms.all_case_refused (forms.cases_at scope.now variables.old trees.now))
        (λ cs. (cs.cases
        ≡ forms.numbered_cases (forms.cases_at scope.now variables.old trees.now) before)
        × (cs.chooses ≡ forms.case_chooses (forms.cases_at scope.now variables.old trees.now))) }
    ensures same { variables.new ≡ variables.old }
{
    let mut cases = Cases {
        cases: List::new(alloc),
        chooses: 0,
    };
    for tree in trees {
        match add_case(alloc, scope, variables, &mut cases, tree, before) {
            Ok(()) => {}
            Err(why) => return Err(why),
        }
    }
    Ok(cases)
}

/// The term after `switch`, and the cases.
#[derive(Drop)]
pub(crate) struct Valued {
    value: Boxed<Term>,
    cases: Cases,
}

#[cycle(rules)]
#[tactic(auto, using(crate::proofs::Steps::switch_steps))]
fn valued_cases(
    alloc: Global,
    scope: &Scope,
    variables: &mut Variables,
    trees: &[RuleCaseTree],
    term: &TermTree,
    span: Span,
    before: usize,
) -> Result<Valued, TypeRefusal>
    ensures typed { Gives result
        (forms.switched (checked scope.now term.now variables.old)
        (forms.cases_at scope.now variables.old trees.now) None span).refused
        (λ s. (s.value ≡ (checked scope.now term.now variables.old).term)
        × (s.cases.cases
        ≡ forms.numbered_cases (forms.cases_at scope.now variables.old trees.now) before)
        × (s.cases.chooses
        ≡ forms.case_chooses (forms.cases_at scope.now variables.old trees.now))) }
    ensures same { variables.new ≡ variables.old }
{
    let value = typed_at(alloc, scope, variables, term)?;
    values_checked(alloc, scope, variables, &value, trees, span)?;
    let cases = cases_typed(alloc, scope, variables, trees, before)?;
    let value = value.term;
    Ok(Valued { value, cases })
}

/// The cases for a value, and the other rule, if there is one.
#[cycle(rules)]
#[tactic(auto, using(crate::proofs::Steps::tree_steps))]
fn switch(
    alloc: Global,
    scope: &Scope,
    variables: &mut Variables,
    other: &Option<Boxed<RuleTree>>,
    valued: Valued,
    before: usize,
) -> Result<TypedRule, TypeRefusal>
    ensures typed { Gives result
        (forms.other_refused (forms.other_at scope.now variables.old other.now))
        (λ r. (r.rule ≡ rules.Switch valued.value valued.cases.cases (forms.other_rule
        (forms.other_at scope.now variables.old other.now) (before + valued.cases.chooses)))
        × (r.chooses ≡ valued.cases.chooses
        + forms.other_chooses (forms.other_at scope.now variables.old other.now))) }
    ensures same { variables.new ≡ variables.old }
{
    let more = valued.cases.chooses;
    let other = other_typed(alloc, scope, variables, other, before, more)?;
    let chooses = added(valued.cases.chooses, other.chooses)?;
    let rule = Rule::Switch {
        value: valued.value,
        cases: valued.cases.cases,
        other: other.rule,
    };
    let rule = Boxed::new(alloc, rule)?;
    Ok(TypedRule { rule, chooses })
}

// ---- new members

fn add_member(
    alloc: Global,
    variables: &mut Variables,
    domain: u16,
    name: &Token,
) -> Result<(), AllocError>
    ensures ok { OnOk result (variables.new
        ≡ with_variable variables.old name.now (type.Abstract domain)) }
    ensures err { OnErr result (variables.new ≡ variables.old) }
{
    let of = Boxed::new(alloc, Type::Abstract(domain))?;
    variables.push(alloc, name, of)
}

#[tactic(auto, using(crate::proofs::Steps::members_steps))]
fn add_members(
    alloc: Global,
    variables: &mut Variables,
    domain: u16,
    names: &[Token],
) -> Result<(), AllocError>
    ensures ok { OnOk result
        (variables.new ≡ forms.with_members variables.old names.now domain) }
    ensures err { OnErr result (variables.new ≡ variables.old) }
{
    let outer = variables.len();
    for name in names {
        match add_member(alloc, variables, domain, name) {
            Ok(()) => {}
            Err(fault) => {
                variables.truncate(outer);
                return Err(fault);
            }
        }
    }
    Ok(())
}

/// The variables of new members come into scope.
#[tactic(auto, using(crate::proofs::Steps::all_members_steps))]
fn all_members(
    alloc: Global,
    variables: &mut Variables,
    domain: u16,
    first: &Token,
    others: &[Token],
) -> Result<(), AllocError>
    ensures ok { OnOk result (variables.new
        ≡ forms.with_members variables.old (first.now ∷ others.now) domain) }
    ensures err { OnErr result (variables.new ≡ variables.old) }
{
    let outer = variables.len();
    add_member(alloc, variables, domain, first)?;
    match add_members(alloc, variables, domain, others) {
        Ok(()) => Ok(()),
        Err(fault) => {
            variables.truncate(outer);
            Err(fault)
        }
    }
}

/// New members of the abstract domain.
#[cycle(rules)]
#[tactic(auto, using(crate::proofs::Steps::extend_steps))]
fn extend_domain(
    alloc: Global,
    scope: &Scope,
    variables: &mut Variables,
    domain: u16,
    first: &Token,
    others: &[Token],
    body: &RuleTree,
    span: Span,
    before: usize,
) -> Result<TypedRule, TypeRefusal>
    ensures typed { GivesRule result (spec.extend_checked [] domain
        (length (first.now ∷ others.now)) (checked_rule scope.now body.now
        (forms.with_members variables.old (first.now ∷ others.now) domain)) span) before }
    ensures same { variables.new ≡ variables.old }
{
    let outer = variables.len();
    all_members(alloc, variables, domain, first, others)?;
    let body = rule_at(alloc, scope, variables, body, before);
    variables.truncate(outer);
    let TypedRule {
        rule: body,
        chooses,
    } = body?;
    let count = added(1, others.len())?;
    let rule = Rule::Extend {
        domain,
        count,
        body,
        span,
    };
    let rule = Boxed::new(alloc, rule)?;
    Ok(TypedRule { rule, chooses })
}

/// What has new members is an abstract domain.
#[cycle(rules)]
#[tactic(auto, using(crate::proofs::Steps::named_steps), unfolding(crate::specs::Forms::extended_by, crate::specs::Forms::with_members))]
fn extend_named(
    alloc: Global,
    scope: &Scope,
    variables: &mut Variables,
    meant: Option<Named>,
    name: &Token,
    first: &Token,
    others: &[Token],
    body: &RuleTree,
    span: Span,
    before: usize,
) -> Result<TypedRule, TypeRefusal>
    ensures typed { GivesRule result (forms.extended_by scope.now variables.old meant name.now
        (first.now ∷ others.now) body.now span) before }
    ensures same { variables.new ≡ variables.old }
{
    match meant {
        Some(Named::Abstract(domain)) => {
            extend_domain(
                alloc, scope, variables, domain, first, others, body, span, before,
            )
        }
        Some(Named::Enum(_))
        | Some(Named::Subset(_))
        | Some(Named::Literal { .. })
        | Some(Named::Function(_))
        | Some(Named::Macro(_))
        | Some(Named::Main) => Err(TypeRefusal::Mismatch(name.span)),
        None => Err(unknown(alloc, name)),
    }
}

#[cycle(rules)]
#[tactic(auto, unfolding(crate::specs::Forms::extended))]
fn extend(
    alloc: Global,
    scope: &Scope,
    variables: &mut Variables,
    name: &Token,
    first: &Token,
    others: &[Token],
    body: &RuleTree,
    span: Span,
    before: usize,
) -> Result<TypedRule, TypeRefusal>
    ensures typed { GivesRule result (forms.extended scope.now variables.old name.now
        (first.now ∷ others.now) body.now span) before }
    ensures same { variables.new ≡ variables.old }
{
    let meant = scope.find(text_of(name));
    extend_named(
        alloc, scope, variables, meant, name, first, others, body, span, before,
    )
}

// ---- rules

#[cycle(rules)]
#[tactic(auto, using(crate::proofs::Steps::rule_steps))]
fn rule_at(
    alloc: Global,
    scope: &Scope,
    variables: &mut Variables,
    tree: &RuleTree,
    before: usize,
) -> Result<TypedRule, TypeRefusal>
    ensures typed { GivesRule result (checked_rule scope.now tree.now variables.old) before }
    ensures same { variables.new ≡ variables.old }
{
    match tree {
        RuleTree::Skip(_) => {
            let rule = Boxed::new(alloc, Rule::Skip)?;
            Ok(simple(rule))
        }
        RuleTree::Call(name, args, span) => {
            let rule = call(alloc, scope, variables, name, args, *span)?;
            Ok(simple(rule))
        }
        RuleTree::Update(name, args, value, span) => {
            let rule = update(alloc, scope, variables, name, args, value.get(), *span)?;
            Ok(simple(rule))
        }
        RuleTree::Par(first, others, span) => {
            let others = others.as_slice();
            let parts = one_typed(alloc, scope, variables, first.get(), before)?;
            par(alloc, scope, variables, others, parts, *span, before)
        }
        RuleTree::Seq(first, others, span) => {
            let others = others.as_slice();
            let parts = one_typed(alloc, scope, variables, first.get(), before)?;
            seq(alloc, scope, variables, others, parts, *span, before)
        }
        RuleTree::If(guard, first, other, _) => {
            let (guard, first) = (guard.get(), first.get());
            let first = first_typed(alloc, scope, variables, first, guard, before)?;
            conditional(alloc, scope, variables, other, first, before)
        }
        RuleTree::Forall(ranges, guard, body, span) => {
            let body = body.get();
            forall(alloc, scope, variables, body, ranges, guard, *span, before)
        }
        RuleTree::Choose(ranges, guard, body, other, _) => {
            let (at, body) = (added(before, 1)?, body.get());
            let ranged = ranged_typed(alloc, scope, variables, body, ranges, guard, at)?;
            choose(alloc, scope, variables, other, ranged, before)
        }
        RuleTree::Let(binds, body, _) => {
            let_rule(alloc, scope, variables, body.get(), binds, before)
        }
        RuleTree::Switch(term, cases, other, span) => {
            let (term, cases) = (term.get(), cases.as_slice());
            let valued = valued_cases(alloc, scope, variables, cases, term, *span, before)?;
            switch(alloc, scope, variables, other, valued, before)
        }
        RuleTree::Extend(name, first, others, body, span) => {
            let (others, body) = (others.as_slice(), body.get());
            extend(
                alloc, scope, variables, name, first, others, body, *span, before,
            )
        }
    }
}

/// A rule with numbers for its names, where so many `choose` words are before it in the text, or
/// its first refusal. The variables are as before.
pub fn rule_typed(
    alloc: Global,
    scope: &Scope,
    variables: &mut Variables,
    tree: &RuleTree,
    before: usize,
) -> Result<TypedRule, TypeRefusal>
    ensures typed { Checks result (checked_rule scope.now tree.now variables.old).refused
        (λ r. IsRule r (checked_rule scope.now tree.now variables.old) before) }
    ensures same { variables.new ≡ variables.old }
{
    rule_at(alloc, scope, variables, tree, before)
}
