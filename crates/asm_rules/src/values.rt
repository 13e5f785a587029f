//! The values of several terms, and variables that they are bound to.
ghost use Rattle.std.specs.Prelude.{◌≡◌, ◌++◌, List, length, take, map, IfOk, OnOk};
ghost use Rattle.asm_value.specs.declared.value.Value.{Value};
ghost use Rattle.asm_program.specs.Meaning.{eval, all_of};
ghost use Rattle.asm_program.specs.Yields.{Yielded, bind_all};
ghost use Rattle.asm_terms.specs.Views.{map_of, program_of};
ghost use Rattle.asm_rules.specs.Outcomes.{going};

use asm_program::{Fault, Outcome, Parts, Term};
use asm_terms::{Env, View, eval_in};
use asm_value::{Boxed, List, Value};
use std::alloc::{AllocError, Global};

/// What the terms give, from left to right; the first fault ends it. `AllocError` is want of
/// memory.
#[tactic(auto, using(crate::proofs::Parts::value_steps))]
pub fn all_values(
    alloc: Global,
    view: &View<'_>,
    env: &mut Env,
    terms: &[Boxed<Term>],
) -> Result<Parts, AllocError>
    ensures outcome { IfOk result (λ out. out
        ≡ all_of (map (eval (program_of view.now) (map_of view.now)) terms.now) env.old) }
    ensures same { IfOk result (λ _. env.new ≡ env.old) }
{
    let mut values = List::new(alloc);
    for term in terms {
        match eval_in(alloc, view, env, term.get())? {
            Outcome::Value(value) => values.push(value)?,
            Outcome::Fault(fault) => return Ok(Parts::Fault(fault)),
        }
    }
    Ok(Parts::Values(values))
}

/// Binds copies of the values, from left to right. `AllocError` is want of memory.
pub fn push_all(alloc: Global, env: &mut Env, values: &[Value]) -> Result<(), AllocError>
    ensures { OnOk result (env.new ≡ env.old ++ values.now) }
{
    for value in values {
        env.push(value.copy(alloc)?)?;
    }
    Ok(())
}

/// Binds what the terms give, from left to right, each seeing the values before it; the first fault
/// is the answer, and ends it. `AllocError` is want of memory.
pub fn bind(
    alloc: Global,
    view: &View<'_>,
    env: &mut Env,
    terms: &[Boxed<Term>],
) -> Result<Option<Fault>, AllocError>
    ensures bound { IfOk result (λ out. (go : List Value → Yielded) →
        bind_all (eval (program_of view.now) (map_of view.now)) terms.now env.old go
        ≡ going out (go env.new)) }
    ensures kept { IfOk result (λ _. take (length env.old) env.new ≡ env.old) }
{
    for term in terms {
        match eval_in(alloc, view, env, term.get())? {
            Outcome::Value(value) => env.push(value)?,
            Outcome::Fault(fault) => return Ok(Some(fault)),
        }
    }
    Ok(None)
}
