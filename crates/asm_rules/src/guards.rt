//! Guards, and the comparisons of cases.
ghost use Rattle.std.specs.Prelude.{◌≡◌, ◌++◌, IfOk};
ghost use Rattle.asm_program.specs.Meaning.{eval};
ghost use Rattle.asm_program.specs.Yields.{guard_of};
ghost use Rattle.asm_terms.specs.Views.{map_of, program_of};
ghost use Rattle.asm_rules.specs.Outcomes.{judged, compared};

use crate::values::push_all;
use asm_program::{Fault, Outcome, Term};
use asm_terms::{Env, View, eval_in, is_true};
use asm_value::{Boxed, List, Value};
use std::alloc::{AllocError, Global};

/// What a guard says.
#[derive(Clone, Copy)]
pub enum Guard {
    /// Its value is true.
    Holds,
    /// Its value is another one, as false or undef.
    Fails,
    /// It has no value.
    Fault(Fault),
}

/// Whether the term is true. `AllocError` is want of memory.
pub fn judge(
    alloc: Global,
    view: &View<'_>,
    env: &mut Env,
    term: &Term,
) -> Result<Guard, AllocError>
    ensures outcome { IfOk result (λ out. out
        ≡ judged (eval (program_of view.now) (map_of view.now) term.now env.old)) }
    ensures same { IfOk result (λ _. env.new ≡ env.old) }
{
    match eval_in(alloc, view, env, term)? {
        Outcome::Value(value) => {
            if is_true(&value) {
                Ok(Guard::Holds)
            } else {
                Ok(Guard::Fails)
            }
        }
        Outcome::Fault(fault) => Ok(Guard::Fault(fault)),
    }
}

/// Whether the guard is true, as it is where there is none. `AllocError` is want of memory.
pub fn judge_guard(
    alloc: Global,
    view: &View<'_>,
    env: &mut Env,
    guard: &Option<Boxed<Term>>,
) -> Result<Guard, AllocError>
    ensures outcome { IfOk result (λ out. out
        ≡ judged (guard_of (program_of view.now) (map_of view.now) guard.now env.old)) }
    ensures same { IfOk result (λ _. env.new ≡ env.old) }
{
    match guard {
        Some(term) => judge(alloc, view, env, term.get()),
        None => Ok(Guard::Holds),
    }
}

/// Whether the guard is true with these values for new variables. `AllocError` is want of memory.
pub fn judge_at(
    alloc: Global,
    view: &View<'_>,
    env: &mut Env,
    guard: &Option<Boxed<Term>>,
    values: &List<Value>,
) -> Result<Guard, AllocError>
    ensures outcome { IfOk result (λ out. out ≡ judged
        (guard_of (program_of view.now) (map_of view.now) guard.now (env.old ++ values.now))) }
    ensures same { IfOk result (λ _. env.new ≡ env.old) }
{
    let depth = env.len();
    push_all(alloc, env, values.as_slice())?;
    let judged = judge_guard(alloc, view, env, guard)?;
    env.truncate(depth);
    Ok(judged)
}

/// Whether the term has this value. `AllocError` is want of memory.
pub fn compare(
    alloc: Global,
    view: &View<'_>,
    env: &mut Env,
    value: &Value,
    term: &Term,
) -> Result<Guard, AllocError>
    ensures outcome { IfOk result (λ out. out
        ≡ compared value.now (eval (program_of view.now) (map_of view.now) term.now env.old)) }
    ensures same { IfOk result (λ _. env.new ≡ env.old) }
{
    match eval_in(alloc, view, env, term)? {
        Outcome::Value(other) => {
            if value.compare(&other).is_eq() {
                Ok(Guard::Holds)
            } else {
                Ok(Guard::Fails)
            }
        }
        Outcome::Fault(fault) => Ok(Guard::Fault(fault)),
    }
}
