//! What rules yield in a state.
ghost use Rattle.std.specs.Prelude.{◌≡◌, ◌++◌, Some, None, map, IfOk, IfSome, IfNone};
ghost use Rattle.std.specs.Option.{option_map};
ghost use Rattle.asm_value.specs.UpdateSet as set;
ghost use Rattle.asm_program.specs.Forms.{rule_of};
ghost use Rattle.asm_program.specs.Meaning.{eval, all_of};
ghost use Rattle.asm_program.specs.Yields as spec;
ghost use Rattle.asm_program.specs.Yields.{yields, guard_of};
ghost use Rattle.asm_program.specs.Members as members;
ghost use Rattle.asm_program.specs.YieldsLaws.{case_yields};
ghost use Rattle.asm_terms.specs.Views.{map_of, program_of};
ghost use Rattle.asm_rules.specs.Outcomes.{yielded, outcome_of};

use crate::choices::{Chosen, choose_one, combinations};
use crate::guards::{Guard, compare, judge, judge_guard};
use crate::members::{Next, memberships, new_members};
use crate::outcome::{Progress, RuleOutcome, follow, limited, unite};
use crate::updates::update;
use crate::values::{all_values, bind, push_all};
use asm_program::{Fault, FaultKind, Outcome, Parts, Program, Rule, RuleCase, Term};
use asm_state::State;
use asm_syntax::Span;
use asm_terms::{Env, View, eval_in};
use asm_updates::UpdateSet;
use asm_value::{Boxed, Domain, List, Value};
use std::alloc::{AllocError, Global};

/// What a step of the program yields in the state: the update set of its main rule, or the first
/// fault. Of the combinations that a `choose` can take the first is taken without a pick, else that
/// with the number of the pick and of the `choose` words before it in the text, modulo how many
/// there are. The set may clash. `AllocError` is want of memory.
pub fn yields(
    alloc: Global,
    program: &Program,
    state: &State,
    pick: Option<u64>,
) -> Result<RuleOutcome, AllocError>
    ensures { IfOk result (λ out. out
        ≡ outcome_of (spec.main_yields program.now state.now pick)) }
{
    let view = View::new(alloc, program, state)?;
    let mut env = Env::new(alloc);
    let mut next = Next::at_the_start(alloc, program, state)?;
    rule_yields(alloc, pick, &view, &mut env, &mut next, program.main.get())
}

/// What the rule yields.
#[cycle(yields)]
fn rule_yields(
    alloc: Global,
    pick: Option<u64>,
    view: &View<'_>,
    env: &mut Env,
    next: &mut Next,
    rule: &Rule,
) -> Result<RuleOutcome, AllocError>
    ensures outcome { IfOk result (λ out. yielded out next.new
        ≡ yields (program_of view.now) pick rule.now (map_of view.now) env.old next.old) }
    ensures same { IfOk result (λ _. env.new ≡ env.old) }
{
    match rule {
        Rule::Skip => Ok(RuleOutcome::Set(UpdateSet::new(alloc))),
        Rule::Call { rule, args } => { call(alloc, pick, view, env, next, *rule, args.as_slice()) }
        Rule::Update {
            function,
            args,
            value,
            span,
        } => update(
            alloc,
            view,
            env,
            *function,
            args.as_slice(),
            value.get(),
            *span,
        ),
        Rule::Par { parts, span } => {
            union_of(alloc, pick, view, env, next, parts.as_slice(), *span)
        }
        Rule::Seq { parts, span } => {
            one_by_one(alloc, pick, view, env, next, parts.as_slice(), *span)
        }
        Rule::If { guard, then, other } => match judge(alloc, view, env, guard.get())? {
            Guard::Holds => rule_yields(alloc, pick, view, env, next, then.get()),
            Guard::Fails => otherwise(alloc, pick, view, env, next, other),
            Guard::Fault(fault) => Ok(RuleOutcome::Fault(fault)),
        },
        Rule::Forall {
            ranges,
            guard,
            body,
            span,
        } => for_all(
            alloc,
            pick,
            view,
            env,
            next,
            ranges.as_slice(),
            guard,
            body.get(),
            *span,
        ),
        Rule::Choose {
            ranges,
            guard,
            body,
            other,
            place,
        } => choose(
            alloc,
            pick,
            view,
            env,
            next,
            ranges.as_slice(),
            guard,
            body.get(),
            other,
            *place,
        ),
        Rule::Let { values, body } => {
            bound(alloc, pick, view, env, next, values.as_slice(), body.get())
        }
        Rule::Switch {
            value,
            cases,
            other,
        } => switch(
            alloc,
            pick,
            view,
            env,
            next,
            value.get(),
            cases.as_slice(),
            other,
        ),
        Rule::Extend {
            domain,
            count,
            body,
            span,
        } => extended(
            alloc,
            pick,
            view,
            env,
            next,
            *domain,
            *count,
            body.get(),
            *span,
        ),
    }
}

/// What the other rule yields, or nothing where there is none.
#[cycle(yields)]
fn otherwise(
    alloc: Global,
    pick: Option<u64>,
    view: &View<'_>,
    env: &mut Env,
    next: &mut Next,
    other: &Option<Boxed<Rule>>,
) -> Result<RuleOutcome, AllocError>
    ensures outcome { IfOk result (λ out. yielded out next.new
        ≡ spec.otherwise (option_map (yields (program_of view.now) pick) other.now)
        (map_of view.now) env.old next.old) }
    ensures same { IfOk result (λ _. env.new ≡ env.old) }
{
    match other {
        Some(other) => rule_yields(alloc, pick, view, env, next, other.get()),
        None => Ok(RuleOutcome::Set(UpdateSet::new(alloc))),
    }
}

/// The rule of a macro rule.
fn body_of(program: &Program, number: u16) -> Option<&Rule>
    ensures some { IfSome result (λ body. rule_of program.now.macros number ≡ Some body.now) }
    ensures none { IfNone result (rule_of program.now.macros number ≡ None) }
{
    match program.macros.as_slice().get(usize::from(number)) {
        Some(info) => Some(info.body.get()),
        None => None,
    }
}

/// What the macro rule yields with what the terms give for its parameters.
#[cycle(yields)]
fn call(
    alloc: Global,
    pick: Option<u64>,
    view: &View<'_>,
    env: &mut Env,
    next: &mut Next,
    number: u16,
    args: &[Boxed<Term>],
) -> Result<RuleOutcome, AllocError>
    ensures outcome { IfOk result (λ out. yielded out next.new
        ≡ spec.on_terms
        (all_of (map (eval (program_of view.now) (map_of view.now)) args.now) env.old) (λ vs.
        spec.rule_values (program_of view.now) pick 512 number (map_of view.now) vs next.old)) }
    ensures same { IfOk result (λ _. env.new ≡ env.old) }
{
    match all_values(alloc, view, env, args)? {
        Parts::Values(values) => {
            let mut inner = Env::new(alloc);
            push_all(alloc, &mut inner, values.as_slice())?;
            match body_of(view.program(), number) {
                Some(body) => rule_yields(alloc, pick, view, &mut inner, next, body),
                None => Ok(RuleOutcome::Set(UpdateSet::new(alloc))),
            }
        }
        Parts::Fault(fault) => Ok(RuleOutcome::Fault(fault)),
    }
}

/// The union of what the rules yield, each in the same state.
#[cycle(yields)]
fn union_of(
    alloc: Global,
    pick: Option<u64>,
    view: &View<'_>,
    env: &mut Env,
    next: &mut Next,
    rules: &[Boxed<Rule>],
    span: Span,
) -> Result<RuleOutcome, AllocError>
    ensures outcome { IfOk result (λ out. yielded out next.new
        ≡ spec.union_of span set.empty
        (map (λ part. part (map_of view.now) env.old)
        (map (yields (program_of view.now) pick) rules.now)) next.old) }
    ensures same { IfOk result (λ _. env.new ≡ env.old) }
{
    let mut all = UpdateSet::new(alloc);
    for part in rules {
        let outcome = rule_yields(alloc, pick, view, env, next, part.get())?;
        if let Some(fault) = unite(&mut all, outcome, span)? {
            return Ok(RuleOutcome::Fault(fault));
        }
    }
    Ok(RuleOutcome::Set(all))
}

/// What the rules yield one after the other, each in the state that those before it lead to.
#[cycle(yields)]
fn one_by_one(
    alloc: Global,
    pick: Option<u64>,
    view: &View<'_>,
    env: &mut Env,
    next: &mut Next,
    rules: &[Boxed<Rule>],
    span: Span,
) -> Result<RuleOutcome, AllocError>
    ensures outcome { IfOk result (λ out. yielded out next.new
        ≡ spec.one_by_one span set.empty (map (yields (program_of view.now) pick) rules.now)
        (map_of view.now) env.old next.old) }
    ensures same { IfOk result (λ _. env.new ≡ env.old) }
{
    let mut between = view.copy(alloc)?;
    let mut all = UpdateSet::new(alloc);
    for part in rules {
        let outcome = rule_yields(alloc, pick, &between, env, next, part.get())?;
        match follow(alloc, &mut between, &mut all, outcome, span)? {
            Progress::Goes => {}
            Progress::Clashes => return Ok(RuleOutcome::Set(all)),
            Progress::Stops(fault) => return Ok(RuleOutcome::Fault(fault)),
        }
    }
    Ok(RuleOutcome::Set(all))
}

/// What the body yields with these values for new variables, where the guard is true.
#[cycle(yields)]
fn guarded(
    alloc: Global,
    pick: Option<u64>,
    view: &View<'_>,
    env: &mut Env,
    next: &mut Next,
    values: &List<Value>,
    guard: &Option<Boxed<Term>>,
    body: &Rule,
) -> Result<RuleOutcome, AllocError>
    ensures outcome { IfOk result (λ out. yielded out next.new
        ≡ spec.guarded
        (guard_of (program_of view.now) (map_of view.now) guard.now (env.old ++ values.now))
        (yields (program_of view.now) pick body.now (map_of view.now) (env.old ++ values.now))
        next.old) }
    ensures same { IfOk result (λ _. env.new ≡ env.old) }
{
    let depth = env.len();
    push_all(alloc, env, values.as_slice())?;
    let outcome = match judge_guard(alloc, view, env, guard)? {
        Guard::Holds => rule_yields(alloc, pick, view, env, next, body)?,
        Guard::Fails => RuleOutcome::Set(UpdateSet::new(alloc)),
        Guard::Fault(fault) => RuleOutcome::Fault(fault),
    };
    env.truncate(depth);
    Ok(outcome)
}

/// The union of what the body yields at each of the combinations where the guard is true.
#[cycle(yields)]
fn for_each(
    alloc: Global,
    pick: Option<u64>,
    view: &View<'_>,
    env: &mut Env,
    next: &mut Next,
    combinations: &[List<Value>],
    guard: &Option<Boxed<Term>>,
    body: &Rule,
    span: Span,
) -> Result<RuleOutcome, AllocError>
    ensures outcome { IfOk result (λ out. yielded out next.new
        ≡ spec.union_of span set.empty
        (map (λ c. spec.guarded
        (guard_of (program_of view.now) (map_of view.now) guard.now (env.old ++ c))
        (yields (program_of view.now) pick body.now (map_of view.now) (env.old ++ c)))
        combinations.now) next.old) }
    ensures same { IfOk result (λ _. env.new ≡ env.old) }
{
    let mut all = UpdateSet::new(alloc);
    for values in combinations {
        let outcome = guarded(alloc, pick, view, env, next, values, guard, body)?;
        if let Some(fault) = unite(&mut all, outcome, span)? {
            return Ok(RuleOutcome::Fault(fault));
        }
    }
    Ok(RuleOutcome::Set(all))
}

/// The union of what the body yields at each combination of members of the domains where the guard
/// is true.
#[cycle(yields)]
fn for_all(
    alloc: Global,
    pick: Option<u64>,
    view: &View<'_>,
    env: &mut Env,
    next: &mut Next,
    ranges: &[Domain],
    guard: &Option<Boxed<Term>>,
    body: &Rule,
    span: Span,
) -> Result<RuleOutcome, AllocError>
    ensures outcome { IfOk result (λ out. yielded out next.new
        ≡ spec.union_of span set.empty
        (map (λ c. spec.guarded
        (guard_of (program_of view.now) (map_of view.now) guard.now (env.old ++ c))
        (yields (program_of view.now) pick body.now (map_of view.now) (env.old ++ c)))
        (members.combinations (program_of view.now).domains (map_of view.now) ranges.now))
        next.old) }
    ensures same { IfOk result (λ _. env.new ≡ env.old) }
{
    let all = combinations(alloc, view, ranges)?;
    for_each(
        alloc,
        pick,
        view,
        env,
        next,
        all.as_slice(),
        guard,
        body,
        span,
    )
}

/// What the body yields at one of the combinations where the guard is true, or what the other rule
/// yields where there is none.
#[cycle(yields)]
fn choose(
    alloc: Global,
    pick: Option<u64>,
    view: &View<'_>,
    env: &mut Env,
    next: &mut Next,
    ranges: &[Domain],
    guard: &Option<Boxed<Term>>,
    body: &Rule,
    other: &Option<Boxed<Rule>>,
    place: usize,
) -> Result<RuleOutcome, AllocError>
    ensures outcome { IfOk result (λ out. yielded out next.new
        ≡ spec.on_found
        (spec.satisfying
        (λ c. guard_of (program_of view.now) (map_of view.now) guard.now (env.old ++ c))
        (members.combinations (program_of view.now).domains (map_of view.now) ranges.now))
        (spec.choice pick place
        (λ c. yields (program_of view.now) pick body.now (map_of view.now) (env.old ++ c) next.old)
        (spec.otherwise (option_map (yields (program_of view.now) pick) other.now)
        (map_of view.now) env.old next.old))) }
    ensures same { IfOk result (λ _. env.new ≡ env.old) }
{
    match choose_one(alloc, pick, view, env, ranges, guard, place)? {
        Chosen::Values(values) => guarded(alloc, pick, view, env, next, &values, &None, body),
        Chosen::Nothing => otherwise(alloc, pick, view, env, next, other),
        Chosen::Fault(fault) => Ok(RuleOutcome::Fault(fault)),
    }
}

/// What the body yields with what the terms give for new variables.
#[cycle(yields)]
fn bound(
    alloc: Global,
    pick: Option<u64>,
    view: &View<'_>,
    env: &mut Env,
    next: &mut Next,
    values: &[Boxed<Term>],
    body: &Rule,
) -> Result<RuleOutcome, AllocError>
    ensures outcome { IfOk result (λ out. yielded out next.new
        ≡ spec.bind_all (eval (program_of view.now) (map_of view.now)) values.now env.old
        (λ inner. yields (program_of view.now) pick body.now (map_of view.now) inner next.old)) }
    ensures same { IfOk result (λ _. env.new ≡ env.old) }
{
    let depth = env.len();
    match bind(alloc, view, env, values)? {
        None => {
            let outcome = rule_yields(alloc, pick, view, env, next, body)?;
            env.truncate(depth);
            Ok(outcome)
        }
        Some(fault) => {
            env.truncate(depth);
            Ok(RuleOutcome::Fault(fault))
        }
    }
}

/// What the rule of the first case with the term's value yields, or what the other rule does.
#[cycle(yields)]
fn switch(
    alloc: Global,
    pick: Option<u64>,
    view: &View<'_>,
    env: &mut Env,
    next: &mut Next,
    value: &Term,
    cases: &[RuleCase],
    other: &Option<Boxed<Rule>>,
) -> Result<RuleOutcome, AllocError>
    ensures outcome { IfOk result (λ out. yielded out next.new
        ≡ spec.on_term (eval (program_of view.now) (map_of view.now) value.now env.old) (λ w.
        spec.first_case (program_of view.now) w
        (map (case_yields (program_of view.now) pick) cases.now)
        (option_map (yields (program_of view.now) pick) other.now)
        (map_of view.now) env.old next.old)) }
    ensures same { IfOk result (λ _. env.new ≡ env.old) }
{
    match eval_in(alloc, view, env, value)? {
        Outcome::Value(value) => first_case(alloc, pick, view, env, next, &value, cases, other),
        Outcome::Fault(fault) => Ok(RuleOutcome::Fault(fault)),
    }
}

/// What the rule of the first case with this value yields, or what the other rule does.
#[cycle(yields)]
fn first_case(
    alloc: Global,
    pick: Option<u64>,
    view: &View<'_>,
    env: &mut Env,
    next: &mut Next,
    value: &Value,
    cases: &[RuleCase],
    other: &Option<Boxed<Rule>>,
) -> Result<RuleOutcome, AllocError>
    ensures outcome { IfOk result (λ out. yielded out next.new
        ≡ spec.first_case (program_of view.now) value.now
        (map (case_yields (program_of view.now) pick) cases.now)
        (option_map (yields (program_of view.now) pick) other.now)
        (map_of view.now) env.old next.old) }
    ensures same { IfOk result (λ _. env.new ≡ env.old) }
{
    for case in cases {
        match compare(alloc, view, env, value, case.value.get())? {
            Guard::Holds => return rule_yields(alloc, pick, view, env, next, case.rule.get()),
            Guard::Fails => {}
            Guard::Fault(fault) => return Ok(RuleOutcome::Fault(fault)),
        }
    }
    otherwise(alloc, pick, view, env, next, other)
}

/// What the body yields with new members of the domain for new variables, and the updates by which
/// they are in it.
#[cycle(yields)]
fn extended(
    alloc: Global,
    pick: Option<u64>,
    view: &View<'_>,
    env: &mut Env,
    next: &mut Next,
    domain: u16,
    count: usize,
    body: &Rule,
    span: Span,
) -> Result<RuleOutcome, AllocError>
    ensures outcome { IfOk result (λ out. yielded out next.new
        ≡ spec.extended domain count span (yields (program_of view.now) pick body.now)
        (map_of view.now) env.old next.old) }
    ensures same { IfOk result (λ _. env.new ≡ env.old) }
{
    let Some(first) = next.take(domain, count) else {
        return Ok(RuleOutcome::Fault(Fault {
            kind: FaultKind::DomainFull,
            span,
        }));
    };
    let values = new_members(alloc, domain, first, count)?;
    match guarded(alloc, pick, view, env, next, &values, &None, body)? {
        RuleOutcome::Set(updates) => {
            let mut all = memberships(alloc, domain, first, count)?;
            all.union(&updates)?;
            Ok(limited(span, all))
        }
        RuleOutcome::Fault(fault) => Ok(RuleOutcome::Fault(fault)),
    }
}
