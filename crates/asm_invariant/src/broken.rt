//! The first invariant that doesn't hold in a state.
ghost use Rattle.std.specs.Prelude.{◌≡◌, ◌↔◌, [], None, option_map, IfOk};
ghost use Rattle.asm_value.specs.Living as truth;
ghost use Rattle.asm_program.specs.Meaning as meaning;
ghost use Rattle.asm_program.specs.Invariants as spec;
ghost use Rattle.asm_program.specs.Invariants.{AllHold};
ghost use Rattle.asm_terms.specs.Views.{program_of, map_of};

use asm_program::{Inv, Outcome, Program, Term, none_is_broken_exactly_where_all_hold};
use asm_state::State;
use asm_terms::{Env, View, eval_in};
use asm_value::{List, Shared, Text, Value};
use std::alloc::{AllocError, Global};

/// Whether a value is true.
fn is_true(value: &Value) -> bool
    ensures { result ≡ truth.is_true value.now }
{
    value.as_truth().unwrap_or(false)
}

/// Whether an outcome is the value true. Undef isn't, nor is a fault.
fn gives_true(outcome: &Outcome) -> bool
    ensures { result ≡ spec.gives_true outcome.now }
{
    match outcome {
        Outcome::Value(value) => is_true(value),
        Outcome::Fault(_) => false,
    }
}

/// Whether a term without variables is true in a view.
fn is_met(alloc: Global, view: &View<'_>, term: &Term) -> Result<bool, AllocError>
    ensures { IfOk result (λ met. met
        ≡ spec.gives_true (meaning.eval (program_of view.now) (map_of view.now) term.now [])) }
{
    let mut env = Env::new(alloc);
    let outcome = eval_in(alloc, view, &mut env, term)?;
    Ok(gives_true(&outcome))
}

/// The first of the invariants that doesn't hold in a view.
fn broken_in<'a>(
    alloc: Global,
    view: &View<'_>,
    invs: &'a [Shared<Inv>],
) -> Result<Option<&'a Inv>, AllocError>
    ensures { IfOk result (λ found. option_map (λ inv. inv.now) found
        ≡ spec.first_broken (program_of view.now) (map_of view.now) invs.now) }
{
    for inv in invs {
        if !is_met(alloc, view, inv.get().term.get())? {
            return Ok(Some(inv.get()));
        }
    }
    Ok(None)
}

/// The name of the first of the invariants that is broken.
fn broken_name(
    alloc: Global,
    program: &Program,
    invs: &List<Shared<Inv>>,
    state: &State,
) -> Result<Option<Text>, AllocError>
    ensures { IfOk result (λ name. name
        ≡ option_map (λ inv. inv.name) (spec.first_broken program.now state.now invs.now)) }
{
    let view = View::new(alloc, program, state)?;
    match broken_in(alloc, &view, invs.as_slice())? {
        Some(inv) => Ok(Some(inv.name.copy(alloc)?)),
        None => Ok(None),
    }
}

/// The name of the first of the invariants that is broken in a state of the program: whose term is
/// false or undef there, or has a fault. None exactly where all of them hold. `AllocError` is want
/// of memory.
pub fn first_broken(
    alloc: Global,
    program: &Program,
    invs: &List<Shared<Inv>>,
    state: &State,
) -> Result<Option<Text>, AllocError>
    ensures first { IfOk result (λ name. name
        ≡ option_map (λ inv. inv.name) (spec.first_broken program.now state.now invs.now)) }
    ensures none { IfOk result (λ name. (name ≡ None) ↔ AllHold program.now state.now invs.now) }
{
    none_is_broken_exactly_where_all_hold();
    broken_name(alloc, program, invs, state)
}
