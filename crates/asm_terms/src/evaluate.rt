//! Evaluation of terms.
ghost use Rattle.std.specs.Prelude.{◌≡◌, ◌∷◌, [], ◌++◌, length, map, take, IfOk, List};
ghost use Rattle.std.specs.Prelude.{slice_get, unwrap_or};
ghost use Rattle.asm_value.specs.declared.value.Value.TheVariants.{Undef};
ghost use Rattle.asm_value.specs.declared.value.Value.{Value as Item};
ghost use Rattle.asm_value.specs.Ranges.{tuples, put_first, each_first};
ghost use Rattle.asm_program.specs.declared.outcome.Outcome.{Outcome as Given};
ghost use Rattle.asm_program.specs.Meaning as meaning;
ghost use Rattle.asm_terms.specs.Views.{program_of, map_of};
ghost use Rattle.asm_terms.specs.Evaluation as spec;
ghost use Rattle.asm_terms.specs.Evaluation.{gives, ranges_in};

use crate::env::Env;
use crate::functions::{body_of, read};
use crate::quantifier::{Progress, Quantifier, finished, step};
use crate::results::{
    Evaluated, conjunction, disjunction, implication, is_false, is_true, of_applied, truth,
    undefined,
};
use crate::view::View;
use asm_operations::{apply, interval_of, sequence_of, set_of, tuple_of};
use asm_program::{Case, Fault, Outcome, Program, Term};
use asm_state::State;
use asm_syntax::Span;
use asm_tables::Operation;
use asm_value::{Boxed, Domain, List, Value};
use std::alloc::{AllocError, Global};

/// What the term gives in a view, with the values of the variables in scope; these are as before
/// afterwards. On `AllocError`, want of memory, there may be more of them.
#[tactic(auto, unfolding(crate::specs::Evaluation::gives))]
pub fn eval_in(
    alloc: Global,
    view: &View<'_>,
    env: &mut Env,
    term: &Term,
) -> Result<Outcome, AllocError>
    ensures outcome { IfOk result (λ out.
        out ≡ meaning.eval (program_of view.now) (map_of view.now) term.now env.old) }
    ensures same { IfOk result (λ _. env.new ≡ env.old) }
{
    evaluate(alloc, view, env, term)
}

/// What the term gives in a state of the program, with the values of the variables in scope.
/// `AllocError` is want of memory. Several terms in one state are evaluated cheaper in one view.
pub fn eval(
    alloc: Global,
    program: &Program,
    state: &State,
    env: &Env,
    term: &Term,
) -> Result<Outcome, AllocError>
    ensures { IfOk result (λ out.
        out ≡ meaning.eval program.now state.now term.now env.now) }
{
    let view = View::new(alloc, program, state)?;
    let mut variables = env.copy(alloc)?;
    eval_in(alloc, &view, &mut variables, term)
}

/// What the term gives.
#[cycle(eval)]
pub(crate) fn evaluate(
    alloc: Global,
    view: &View<'_>,
    env: &mut Env,
    term: &Term,
) -> Result<Outcome, AllocError>
    ensures outcome { IfOk result (λ out.
        out ≡ gives view.now term.now env.old) }
    ensures same { IfOk result (λ _. env.new ≡ env.old) }
{
    match term {
        Term::Operator {
            operation,
            args,
            span,
        } => operator(alloc, view, env, *operation, args.as_slice(), *span),
        Term::And { left, right } => and(alloc, view, env, left.get(), right.get()),
        Term::Or { left, right } => or(alloc, view, env, left.get(), right.get()),
        Term::Implies { left, right } => implies(alloc, view, env, left.get(), right.get()),
        Term::Constant(value) => constant(alloc, value),
        Term::Variable(at) => variable(alloc, env, *at),
        Term::Read { function, args } => read_of(alloc, view, env, *function, args.as_slice()),
        Term::Call { function, args } => call_of(alloc, view, env, *function, args.as_slice()),
        Term::Tuple { items, span } => tuple(alloc, view, env, items.as_slice(), *span),
        Term::Forall { ranges, body } => {
            quantified(
                alloc,
                view,
                env,
                Quantifier::Forall,
                ranges.as_slice(),
                body.get(),
            )
        }
        Term::Exist { ranges, body } => {
            quantified(
                alloc,
                view,
                env,
                Quantifier::Exist,
                ranges.as_slice(),
                body.get(),
            )
        }
        Term::ExistUnique { ranges, body } => {
            quantified(
                alloc,
                view,
                env,
                Quantifier::ExistUnique,
                ranges.as_slice(),
                body.get(),
            )
        }
        Term::Interval { from, to, span } => {
            interval(alloc, view, env, from.get(), to.get(), *span)
        }
        Term::Set { items, span } => set(alloc, view, env, items.as_slice(), *span),
        Term::Seq { items, span } => sequence(alloc, view, env, items.as_slice(), *span),
        Term::If { guard, then, other } => {
            conditional(alloc, view, env, guard.get(), then.get(), other)
        }
        Term::Let { values, body } => binding(alloc, view, env, values.as_slice(), body.get()),
        Term::Switch {
            value,
            cases,
            other,
        } => switch(alloc, view, env, value.get(), cases.as_slice(), other),
    }
}

/// A literal or a constant.
fn constant(alloc: Global, value: &Value) -> Result<Outcome, AllocError>
    ensures { IfOk result (λ out. out ≡ Outcome.Value value.now) }
{
    Ok(Outcome::Value(value.copy(alloc)?))
}

/// The value of a variable.
fn variable(alloc: Global, env: &Env, at: usize) -> Result<Outcome, AllocError>
    ensures { IfOk result (λ out.
        out ≡ Outcome.Value (unwrap_or (slice_get env.now at) Undef)) }
{
    Ok(Outcome::Value(env.value(alloc, at)?))
}

/// An operator and its operands.
#[cycle(eval)]
fn operator(
    alloc: Global,
    view: &View<'_>,
    env: &mut Env,
    operation: Option<Operation>,
    args: &[Boxed<Term>],
    span: Span,
) -> Result<Outcome, AllocError>
    ensures outcome { IfOk result (λ out.
        out ≡ spec.operator_gives view.now operation args.now span env.old) }
    ensures same { IfOk result (λ _. env.new ≡ env.old) }
{
    match evaluate_all(alloc, view, env, args)? {
        Evaluated::Values(values) => match operation {
            Some(operation) => Ok(of_applied(span, apply(alloc, operation, values.as_slice())?)),
            None => Ok(undefined()),
        },
        Evaluated::Fault(fault) => Ok(Outcome::Fault(fault)),
    }
}

/// The right term is evaluated where the left isn't false.
#[cycle(eval)]
fn and(
    alloc: Global,
    view: &View<'_>,
    env: &mut Env,
    left: &Term,
    right: &Term,
) -> Result<Outcome, AllocError>
    ensures outcome { IfOk result (λ out.
        out ≡ spec.and_gives view.now left.now right.now env.old) }
    ensures same { IfOk result (λ _. env.new ≡ env.old) }
{
    match evaluate(alloc, view, env, left)? {
        Outcome::Value(first) => and_after(alloc, view, env, &first, right),
        Outcome::Fault(fault) => Ok(Outcome::Fault(fault)),
    }
}

/// The same where the left term has this value.
#[cycle(eval)]
fn and_after(
    alloc: Global,
    view: &View<'_>,
    env: &mut Env,
    first: &Value,
    right: &Term,
) -> Result<Outcome, AllocError>
    ensures outcome { IfOk result (λ out.
        out ≡ spec.and_after view.now first.now right.now env.old) }
    ensures same { IfOk result (λ _. env.new ≡ env.old) }
{
    if is_false(first) {
        return Ok(truth(false));
    }
    match evaluate(alloc, view, env, right)? {
        Outcome::Value(second) => Ok(conjunction(first, &second)),
        Outcome::Fault(fault) => Ok(Outcome::Fault(fault)),
    }
}

/// The right term is evaluated where the left isn't true.
#[cycle(eval)]
fn or(
    alloc: Global,
    view: &View<'_>,
    env: &mut Env,
    left: &Term,
    right: &Term,
) -> Result<Outcome, AllocError>
    ensures outcome { IfOk result (λ out.
        out ≡ spec.or_gives view.now left.now right.now env.old) }
    ensures same { IfOk result (λ _. env.new ≡ env.old) }
{
    match evaluate(alloc, view, env, left)? {
        Outcome::Value(first) => or_after(alloc, view, env, &first, right),
        Outcome::Fault(fault) => Ok(Outcome::Fault(fault)),
    }
}

/// The same where the left term has this value.
#[cycle(eval)]
fn or_after(
    alloc: Global,
    view: &View<'_>,
    env: &mut Env,
    first: &Value,
    right: &Term,
) -> Result<Outcome, AllocError>
    ensures outcome { IfOk result (λ out.
        out ≡ spec.or_after view.now first.now right.now env.old) }
    ensures same { IfOk result (λ _. env.new ≡ env.old) }
{
    if is_true(first) {
        return Ok(truth(true));
    }
    match evaluate(alloc, view, env, right)? {
        Outcome::Value(second) => Ok(disjunction(first, &second)),
        Outcome::Fault(fault) => Ok(Outcome::Fault(fault)),
    }
}

/// The right term is evaluated where the left isn't false.
#[cycle(eval)]
fn implies(
    alloc: Global,
    view: &View<'_>,
    env: &mut Env,
    left: &Term,
    right: &Term,
) -> Result<Outcome, AllocError>
    ensures outcome { IfOk result (λ out.
        out ≡ spec.implies_gives view.now left.now right.now env.old) }
    ensures same { IfOk result (λ _. env.new ≡ env.old) }
{
    match evaluate(alloc, view, env, left)? {
        Outcome::Value(first) => implies_after(alloc, view, env, &first, right),
        Outcome::Fault(fault) => Ok(Outcome::Fault(fault)),
    }
}

/// The same where the left term has this value.
#[cycle(eval)]
fn implies_after(
    alloc: Global,
    view: &View<'_>,
    env: &mut Env,
    first: &Value,
    right: &Term,
) -> Result<Outcome, AllocError>
    ensures outcome { IfOk result (λ out.
        out ≡ spec.implies_after view.now first.now right.now env.old) }
    ensures same { IfOk result (λ _. env.new ≡ env.old) }
{
    if is_false(first) {
        return Ok(truth(true));
    }
    match evaluate(alloc, view, env, right)? {
        Outcome::Value(second) => Ok(implication(first, &second)),
        Outcome::Fault(fault) => Ok(Outcome::Fault(fault)),
    }
}

/// A dynamic function and its arguments.
#[cycle(eval)]
fn read_of(
    alloc: Global,
    view: &View<'_>,
    env: &mut Env,
    function: u16,
    args: &[Boxed<Term>],
) -> Result<Outcome, AllocError>
    ensures outcome { IfOk result (λ out.
        out ≡ spec.read_gives view.now function args.now env.old) }
    ensures same { IfOk result (λ _. env.new ≡ env.old) }
{
    match evaluate_all(alloc, view, env, args)? {
        Evaluated::Values(values) => {
            Ok(Outcome::Value(read(alloc, view, function, values.as_slice())?))
        },
        Evaluated::Fault(fault) => Ok(Outcome::Fault(fault)),
    }
}

/// A function that is defined by a term, and its arguments.
#[cycle(eval)]
fn call_of(
    alloc: Global,
    view: &View<'_>,
    env: &mut Env,
    function: u16,
    args: &[Boxed<Term>],
) -> Result<Outcome, AllocError>
    ensures outcome { IfOk result (λ out.
        out ≡ spec.call_of_gives view.now function args.now env.old) }
    ensures same { IfOk result (λ _. env.new ≡ env.old) }
{
    match evaluate_all(alloc, view, env, args)? {
        Evaluated::Values(values) => call(alloc, view, function, values),
        Evaluated::Fault(fault) => Ok(Outcome::Fault(fault)),
    }
}

/// The tuple of its parts.
#[cycle(eval)]
fn tuple(
    alloc: Global,
    view: &View<'_>,
    env: &mut Env,
    items: &[Boxed<Term>],
    span: Span,
) -> Result<Outcome, AllocError>
    ensures outcome { IfOk result (λ out.
        out ≡ spec.tuple_gives view.now items.now span env.old) }
    ensures same { IfOk result (λ _. env.new ≡ env.old) }
{
    match evaluate_all(alloc, view, env, items)? {
        Evaluated::Values(values) => { Ok(of_applied(span, tuple_of(List::from_vec(values)))) },
        Evaluated::Fault(fault) => Ok(Outcome::Fault(fault)),
    }
}

/// The set of its items.
#[cycle(eval)]
fn set(
    alloc: Global,
    view: &View<'_>,
    env: &mut Env,
    items: &[Boxed<Term>],
    span: Span,
) -> Result<Outcome, AllocError>
    ensures outcome { IfOk result (λ out.
        out ≡ spec.set_gives view.now items.now span env.old) }
    ensures same { IfOk result (λ _. env.new ≡ env.old) }
{
    match evaluate_all(alloc, view, env, items)? {
        Evaluated::Values(values) => {
            Ok(of_applied(span, set_of(alloc, List::from_vec(values))?))
        },
        Evaluated::Fault(fault) => Ok(Outcome::Fault(fault)),
    }
}

/// The sequence of its items.
#[cycle(eval)]
fn sequence(
    alloc: Global,
    view: &View<'_>,
    env: &mut Env,
    items: &[Boxed<Term>],
    span: Span,
) -> Result<Outcome, AllocError>
    ensures outcome { IfOk result (λ out.
        out ≡ spec.sequence_gives view.now items.now span env.old) }
    ensures same { IfOk result (λ _. env.new ≡ env.old) }
{
    match evaluate_all(alloc, view, env, items)? {
        Evaluated::Values(values) => { Ok(of_applied(span, sequence_of(List::from_vec(values)))) },
        Evaluated::Fault(fault) => Ok(Outcome::Fault(fault)),
    }
}

/// The set of the integers from one to another.
#[cycle(eval)]
fn interval(
    alloc: Global,
    view: &View<'_>,
    env: &mut Env,
    from: &Term,
    to: &Term,
    span: Span,
) -> Result<Outcome, AllocError>
    ensures outcome { IfOk result (λ out.
        out ≡ spec.interval_gives view.now from.now to.now span env.old) }
    ensures same { IfOk result (λ _. env.new ≡ env.old) }
{
    match evaluate(alloc, view, env, from)? {
        Outcome::Value(first) => interval_from(alloc, view, env, &first, to, span),
        Outcome::Fault(fault) => Ok(Outcome::Fault(fault)),
    }
}

/// The same where the first term has this value.
#[cycle(eval)]
fn interval_from(
    alloc: Global,
    view: &View<'_>,
    env: &mut Env,
    first: &Value,
    to: &Term,
    span: Span,
) -> Result<Outcome, AllocError>
    ensures outcome { IfOk result (λ out.
        out ≡ spec.interval_from view.now first.now to.now span env.old) }
    ensures same { IfOk result (λ _. env.new ≡ env.old) }
{
    match evaluate(alloc, view, env, to)? {
        Outcome::Value(last) => Ok(of_applied(span, interval_of(alloc, first, &last)?)),
        Outcome::Fault(fault) => Ok(Outcome::Fault(fault)),
    }
}

/// The first term where the guard is true, or the other one.
#[cycle(eval)]
fn conditional(
    alloc: Global,
    view: &View<'_>,
    env: &mut Env,
    guard: &Term,
    first: &Term,
    other: &Option<Boxed<Term>>,
) -> Result<Outcome, AllocError>
    ensures outcome { IfOk result (λ out.
        out ≡ spec.if_gives view.now guard.now first.now other.now env.old) }
    ensures same { IfOk result (λ _. env.new ≡ env.old) }
{
    match evaluate(alloc, view, env, guard)? {
        Outcome::Value(value) => {
            if is_true(&value) {
                evaluate(alloc, view, env, first)
            } else {
                otherwise(alloc, view, env, other)
            }
        }
        Outcome::Fault(fault) => Ok(Outcome::Fault(fault)),
    }
}

/// The term that is left, undef where there is none.
#[cycle(eval)]
fn otherwise(
    alloc: Global,
    view: &View<'_>,
    env: &mut Env,
    other: &Option<Boxed<Term>>,
) -> Result<Outcome, AllocError>
    ensures outcome { IfOk result (λ out.
        out ≡ spec.other_gives view.now other.now env.old) }
    ensures same { IfOk result (λ _. env.new ≡ env.old) }
{
    match other {
        Some(term) => evaluate(alloc, view, env, term.get()),
        None => Ok(undefined()),
    }
}

/// New variables, of which each sees those before it, and the body.
#[cycle(eval)]
fn binding(
    alloc: Global,
    view: &View<'_>,
    env: &mut Env,
    values: &[Boxed<Term>],
    body: &Term,
) -> Result<Outcome, AllocError>
    ensures outcome { IfOk result (λ out.
        out ≡ spec.let_gives view.now values.now body.now env.old) }
    ensures same { IfOk result (λ _. env.new ≡ env.old) }
{
    let outer = env.len();
    match bind(alloc, view, env, values)? {
        None => {
            let outcome = evaluate(alloc, view, env, body)?;
            env.truncate(outer);
            Ok(outcome)
        }
        Some(fault) => {
            env.truncate(outer);
            Ok(Outcome::Fault(fault))
        }
    }
}

/// Makes each value one more variable, up to a fault.
#[cycle(eval)]
fn bind(
    alloc: Global,
    view: &View<'_>,
    env: &mut Env,
    values: &[Boxed<Term>],
) -> Result<Option<Fault>, AllocError>
    ensures outcome { IfOk result (λ fault.
        (go : List Item → Given) →
        spec.binds view.now values.now env.old go ≡ spec.unless_fault fault (go env.new)) }
    ensures outer { IfOk result (λ _. take (length env.old) env.new ≡ env.old) }
{
    for value in values {
        match evaluate(alloc, view, env, value.get())? {
            Outcome::Value(value) => env.push(value)?,
            Outcome::Fault(fault) => return Ok(Some(fault)),
        }
    }
    Ok(None)
}

/// The term of the first case with this value, or the other one.
#[cycle(eval)]
fn switch(
    alloc: Global,
    view: &View<'_>,
    env: &mut Env,
    value: &Term,
    cases: &[Case],
    other: &Option<Boxed<Term>>,
) -> Result<Outcome, AllocError>
    ensures outcome { IfOk result (λ out.
        out ≡ spec.switch_gives view.now value.now cases.now other.now env.old) }
    ensures same { IfOk result (λ _. env.new ≡ env.old) }
{
    match evaluate(alloc, view, env, value)? {
        Outcome::Value(value) => first_case(alloc, view, env, &value, cases, other),
        Outcome::Fault(fault) => Ok(Outcome::Fault(fault)),
    }
}

/// Cases are evaluated one by one.
#[cycle(eval)]
fn first_case(
    alloc: Global,
    view: &View<'_>,
    env: &mut Env,
    value: &Value,
    cases: &[Case],
    other: &Option<Boxed<Term>>,
) -> Result<Outcome, AllocError>
    ensures outcome { IfOk result (λ out.
        out ≡ spec.cases_give view.now value.now cases.now other.now env.old) }
    ensures same { IfOk result (λ _. env.new ≡ env.old) }
{
    for case in cases {
        match evaluate(alloc, view, env, case.value.get())? {
            Outcome::Value(found) => {
                if value.compare(&found).is_eq() {
                    return evaluate(alloc, view, env, case.term.get());
                }
            }
            Outcome::Fault(fault) => return Ok(Outcome::Fault(fault)),
        }
    }
    otherwise(alloc, view, env, other)
}

/// What the terms give, from left to right.
#[cycle(eval)]
fn evaluate_all(
    alloc: Global,
    view: &View<'_>,
    env: &mut Env,
    terms: &[Boxed<Term>],
) -> Result<Evaluated, AllocError>
    ensures outcome { IfOk result (λ all.
        spec.parts_of all ≡ spec.all_give view.now terms.now env.old) }
    ensures same { IfOk result (λ _. env.new ≡ env.old) }
{
    let mut values = Vec::new(alloc);
    for term in terms {
        match evaluate(alloc, view, env, term.get())? {
            Outcome::Value(value) => values.push(value)?,
            Outcome::Fault(fault) => return Ok(Evaluated::Fault(fault)),
        }
    }
    Ok(Evaluated::Values(values))
}

/// What a function that is defined by a term gives.
#[cycle(eval)]
fn call(
    alloc: Global,
    view: &View<'_>,
    function: u16,
    args: Vec<Value>,
) -> Result<Outcome, AllocError>
    ensures { IfOk result (λ out. out ≡ spec.call_gives view.now function args.items) }
{
    match body_of(view.program(), function) {
        Some(body) => {
            let mut variables = Env::of_values(args);
            evaluate(alloc, view, &mut variables, body)
        }
        None => Ok(undefined()),
    }
}

/// The members of each domain.
pub(crate) fn ranges_of(
    alloc: Global,
    view: &View<'_>,
    domains: &[Domain],
) -> Result<List<List<Value>>, AllocError>
    ensures { IfOk result (λ lists. lists ≡ ranges_in view.now domains.now) }
{
    let mut lists = List::new(alloc);
    for domain in domains {
        lists.push(view.members(alloc, domain)?)?;
    }
    Ok(lists)
}

/// A quantifier over the combinations of the domains' members.
#[cycle(eval)]
fn quantified(
    alloc: Global,
    view: &View<'_>,
    env: &mut Env,
    quantifier: Quantifier,
    ranges: &[Domain],
    body: &Term,
) -> Result<Outcome, AllocError>
    ensures outcome { IfOk result (λ out.
        out ≡ spec.quantifier_gives view.now quantifier ranges.now body.now env.old) }
    ensures same { IfOk result (λ _. env.new ≡ env.old) }
{
    let lists = ranges_of(alloc, view, ranges)?;
    let progress = walk(alloc, view, env, quantifier, false, lists.as_slice(), body)?;
    Ok(finished(quantifier, progress))
}

/// Steps through the combinations of one member of each range, the first range slowest.
#[cycle(eval)]
fn walk(
    alloc: Global,
    view: &View<'_>,
    env: &mut Env,
    quantifier: Quantifier,
    found: bool,
    ranges: &[List<Value>],
    body: &Term,
) -> Result<Progress, AllocError>
    ensures outcome { IfOk result (λ progress.
        progress ≡ spec.walks view.now quantifier found (tuples ranges.now) body.now env.old) }
    ensures same { IfOk result (λ _. env.new ≡ env.old) }
{
    match ranges {
        [] => {
            let outcome = evaluate(alloc, view, env, body)?;
            Ok(step(quantifier, found, outcome))
        }
        [first, others @ ..] => walk_members(
            alloc,
            view,
            env,
            quantifier,
            found,
            first.as_slice(),
            others,
            body,
        ),
    }
}

/// Steps through the combinations that begin with each of these members.
#[cycle(eval)]
fn walk_members(
    alloc: Global,
    view: &View<'_>,
    env: &mut Env,
    quantifier: Quantifier,
    found: bool,
    members: &[Value],
    others: &[List<Value>],
    body: &Term,
) -> Result<Progress, AllocError>
    ensures outcome { IfOk result (λ progress.
        progress ≡ spec.walks view.now quantifier found
        (each_first members.now (tuples others.now)) body.now env.old) }
    ensures same { IfOk result (λ _. env.new ≡ env.old) }
{
    let mut found = found;
    for member in members {
        match walk_with(alloc, view, env, quantifier, found, member, others, body)? {
            Progress::GoesOn(later) => found = later,
            Progress::Ends(outcome) => return Ok(Progress::Ends(outcome)),
        }
    }
    Ok(Progress::GoesOn(found))
}

/// Steps through the combinations that begin with this member.
#[cycle(eval)]
fn walk_with(
    alloc: Global,
    view: &View<'_>,
    env: &mut Env,
    quantifier: Quantifier,
    found: bool,
    member: &Value,
    others: &[List<Value>],
    body: &Term,
) -> Result<Progress, AllocError>
    ensures outcome { IfOk result (λ progress.
        progress ≡ spec.walks view.now quantifier found
        (put_first member.now (tuples others.now)) body.now env.old) }
    ensures same { IfOk result (λ _. env.new ≡ env.old) }
{
    let outer = env.len();
    env.push(member.copy(alloc)?)?;
    let progress = walk(alloc, view, env, quantifier, found, others, body)?;
    env.truncate(outer);
    Ok(progress)
}
