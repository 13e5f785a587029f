//! The update of one rule.
ghost use Rattle.std.specs.Prelude.{◌≡◌, List, ℕ, map, IfOk};
ghost use Rattle.asm_value.specs.UpdateSet as set;
ghost use Rattle.asm_program.specs.Meaning as meaning;
ghost use Rattle.asm_program.specs.Meaning.{eval, all_of};
ghost use Rattle.asm_program.specs.Yields as spec;
ghost use Rattle.asm_terms.specs.Views.{map_of, program_of};
ghost use Rattle.asm_rules.specs.Outcomes.{yielded};

use crate::outcome::RuleOutcome;
use crate::values::all_values;
use asm_program::{Fault, FaultKind, Outcome, Parts, Program, Term};
use asm_syntax::Span;
use asm_terms::{Env, View, eval_in, function_takes, is_in_codomain, location_of};
use asm_updates::UpdateSet;
use asm_value::{Boxed, Update, Value};
use std::alloc::{AllocError, Global};

/// The set of the one update. `AllocError` is want of memory.
fn only(alloc: Global, function: u16, args: &[Value], value: Value) -> Result<UpdateSet, AllocError>
    ensures { IfOk result (λ updates. updates ≡ set.add set.empty
        (record { location = meaning.location_of function args.now; value = value })) }
{
    let location = location_of(alloc, function, args)?;
    let mut updates = UpdateSet::new(alloc);
    updates.add(Update { location, value })?;
    Ok(updates)
}

/// The one update, unless an argument isn't in its domain or the value neither undef nor in the
/// codomain. `AllocError` is want of memory.
fn update_of(
    alloc: Global,
    program: &Program,
    function: u16,
    span: Span,
    args: &[Value],
    value: Value,
) -> Result<RuleOutcome, AllocError>
    ensures { IfOk result (λ out. (next : List ℕ) →
        yielded out next ≡ spec.update_of program.now function span args.now value next) }
{
    if !function_takes(program, function, args) {
        return Ok(RuleOutcome::Fault(Fault {
            kind: FaultKind::OutOfDomain,
            span,
        }));
    }
    if value.is_undef() || is_in_codomain(program, function, &value) {
        return Ok(RuleOutcome::Set(only(alloc, function, args, value)?));
    }
    Ok(RuleOutcome::Fault(Fault {
        kind: FaultKind::OutOfCodomain,
        span,
    }))
}

/// What an update yields: its arguments are evaluated, and then its value. `AllocError` is want of
/// memory.
pub fn update(
    alloc: Global,
    view: &View<'_>,
    env: &mut Env,
    function: u16,
    args: &[Boxed<Term>],
    value: &Term,
    span: Span,
) -> Result<RuleOutcome, AllocError>
    ensures outcome { IfOk result (λ out. (next : List ℕ) → yielded out next
        ≡ spec.on_terms
        (all_of (map (eval (program_of view.now) (map_of view.now)) args.now) env.old) (λ vs.
        spec.on_term (eval (program_of view.now) (map_of view.now) value.now env.old) (λ v.
        spec.update_of (program_of view.now) function span vs v next))) }
    ensures same { IfOk result (λ _. env.new ≡ env.old) }
{
    match all_values(alloc, view, env, args)? {
        Parts::Values(args) => match eval_in(alloc, view, env, value)? {
            Outcome::Value(value) => {
                update_of(
                    alloc,
                    view.program(),
                    function,
                    span,
                    args.as_slice(),
                    value,
                )
            }
            Outcome::Fault(fault) => Ok(RuleOutcome::Fault(fault)),
        },
        Parts::Fault(fault) => Ok(RuleOutcome::Fault(fault)),
    }
}
