//! The combinations that a `choose` can take, and the one that it takes.
ghost use Rattle.std.specs.Prelude.{◌≡◌, ◌≢◌, ◌++◌, List, Some, None, length, slice_get, IfOk, IfSome, IsNone};
ghost use Rattle.asm_value.specs.declared.value.Value.{Value};
ghost use Rattle.asm_program.specs.Members as members;
ghost use Rattle.asm_program.specs.Yields as spec;
ghost use Rattle.asm_program.specs.Yields.{Satisfying, Yielded, guard_of};
ghost use Rattle.asm_terms.specs.Views.{map_of, program_of};
ghost use Rattle.asm_rules.specs.Outcomes.{found_of, found_before, unless_faulted, chosen};

use crate::guards::{Guard, judge_at};
use asm_program::{Fault, Term};
use asm_terms::{Env, View};
use asm_value::{Boxed, Domain, List, Value, copy_all, tuples};
use std::alloc::{AllocError, Global};

/// What a `choose` takes.
#[derive(Drop)]
pub enum Chosen {
    /// One of the combinations at which the guard is true.
    Values(List<Value>),
    /// The guard is true at none.
    Nothing,
    /// The guard has no value at one of them; this is the first such fault.
    Fault(Fault),
}

/// The combinations at which a guard is true.
#[derive(Drop)]
pub enum Found {
    /// In their order.
    Combinations(List<List<Value>>),
    /// The guard has no value at one of them; this is the first such fault.
    Fault(Fault),
}

/// One member of each domain, in every combination, the first domain slowest. `AllocError` is want
/// of memory.
pub fn combinations(
    alloc: Global,
    view: &View<'_>,
    ranges: &[Domain],
) -> Result<List<List<Value>>, AllocError>
    ensures { IfOk result (λ all. all
        ≡ members.combinations (program_of view.now).domains (map_of view.now) ranges.now) }
{
    let mut lists = List::new(alloc);
    for range in ranges {
        lists.push(view.members(alloc, range)?)?;
    }
    tuples(alloc, lists.as_slice())
}

/// Adds a copy of the combination where the guard is true at it. A fault of the guard is the
/// answer. `AllocError` is want of memory.
#[tactic(auto, using(crate::proofs::Combined::found_steps))]
fn add_satisfying(
    alloc: Global,
    view: &View<'_>,
    env: &mut Env,
    guard: &Option<Boxed<Term>>,
    combination: &List<Value>,
    found: &mut List<List<Value>>,
) -> Result<Option<Fault>, AllocError>
    ensures outcome { IfOk result (λ out. (rest : Satisfying) →
        found_before found.old (spec.then_found
        (guard_of (program_of view.now) (map_of view.now) guard.now (env.old ++ combination.now))
        combination.now rest)
        ≡ unless_faulted out (found_before found.new rest)) }
    ensures same { IfOk result (λ _. env.new ≡ env.old) }
{
    match judge_at(alloc, view, env, guard, combination)? {
        Guard::Holds => {
            found.push(copy_all(alloc, combination.as_slice())?)?;
            Ok(None)
        }
        Guard::Fails => Ok(None),
        Guard::Fault(fault) => Ok(Some(fault)),
    }
}

/// The combinations at which the guard is true. It is evaluated at each one, until there is a
/// fault. `AllocError` is want of memory.
#[tactic(auto, using(crate::proofs::Combined::choice_steps))]
fn satisfying(
    alloc: Global,
    view: &View<'_>,
    env: &mut Env,
    guard: &Option<Boxed<Term>>,
    combinations: &[List<Value>],
) -> Result<Found, AllocError>
    ensures outcome { IfOk result (λ out. found_of out
        ≡ spec.satisfying
        (λ c. guard_of (program_of view.now) (map_of view.now) guard.now (env.old ++ c))
        combinations.now) }
    ensures same { IfOk result (λ _. env.new ≡ env.old) }
{
    let mut found = List::new(alloc);
    for combination in combinations {
        if let Some(fault) = add_satisfying(alloc, view, env, guard, combination, &mut found)? {
            return Ok(Found::Fault(fault));
        }
    }
    Ok(Found::Combinations(found))
}

/// Which of so many is taken: the first without a pick, else number `(pick + place) mod count`.
fn picked(pick: Option<u64>, place: usize, count: usize) -> usize
    ensures { count ≢ 0 → result ≡ spec.picked pick place count }
{
    match pick {
        Some(pick) if count > 0 => { ((u128::from(pick) + place as u128) % count as u128) as usize }
        Some(_) | None => 0,
    }
}

/// The combination that is taken, where there is one. Takes no memory.
fn taken(pick: Option<u64>, place: usize, found: &[List<Value>]) -> Option<&List<Value>>
    ensures some { IfSome result (λ c.
        slice_get found.now (spec.picked pick place (length found.now)) ≡ Some c.now) }
    ensures none { IsNone result →
        slice_get found.now (spec.picked pick place (length found.now)) ≡ None }
{
    found.get(picked(pick, place, found.len()))
}

/// What is taken of the combinations of members of the domains. `AllocError` is want of memory.
pub fn choose_one(
    alloc: Global,
    pick: Option<u64>,
    view: &View<'_>,
    env: &mut Env,
    ranges: &[Domain],
    guard: &Option<Boxed<Term>>,
    place: usize,
) -> Result<Chosen, AllocError>
    ensures outcome { IfOk result (λ out. (body : List Value → Yielded) (other : Yielded) →
        spec.on_found
        (spec.satisfying
        (λ c. guard_of (program_of view.now) (map_of view.now) guard.now (env.old ++ c))
        (members.combinations (program_of view.now).domains (map_of view.now) ranges.now))
        (spec.choice pick place body other)
        ≡ chosen out body other) }
    ensures same { IfOk result (λ _. env.new ≡ env.old) }
{
    let all = combinations(alloc, view, ranges)?;
    match satisfying(alloc, view, env, guard, all.as_slice())? {
        Found::Combinations(found) => match taken(pick, place, found.as_slice()) {
            Some(values) => Ok(Chosen::Values(copy_all(alloc, values.as_slice())?)),
            None => Ok(Chosen::Nothing),
        },
        Found::Fault(fault) => Ok(Chosen::Fault(fault)),
    }
}
