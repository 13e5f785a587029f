//! The counts of functions and macro rules, in rounds until nothing changes.
ghost use Rattle.std.specs.Prelude.{◌≡◌, IfOk, IsTrue, Bool, true};
ghost use Rattle.asm_limits.specs.Rounds as spec;

use crate::known::{body_counts, macro_counts};
use asm_counts::Counts;
use asm_program::{MacroInfo, Term};
use asm_value::{Boxed, Domains};
use std::alloc::{AllocError, Global};

/// How deep calls are followed.
const MOST_ROUNDS: usize = 512;

fn equal(first: Counts, second: Counts) -> bool
    ensures { result ≡ true → first ≡ second }
{
    first.depth == second.depth && first.work == second.work
}

/// Whether these are the same.
#[tactic(auto, using(crate::proofs::RoundSteps::same_steps))]
fn same(first: &[Counts], second: &[Counts]) -> bool
    ensures { result ≡ true → first.now ≡ second.now }
{
    if first.len() != second.len() {
        return false;
    }
    for at in 0..first.len() {
        if !equal(first[at], second[at]) {
            return false;
        }
    }
    true
}

/// The counts of all functions, from those that are known of what they call.
#[tactic(auto, using(crate::proofs::RoundSteps::function_steps))]
fn function_round(
    alloc: Global,
    domains: &Domains,
    bodies: &[Option<Boxed<Term>>],
    functions: &[Counts],
) -> Result<Vec<Counts>, AllocError>
    ensures { IfOk result
        (λ next. next.items ≡ spec.function_round domains.now bodies.now functions.now) }
{
    let mut next = Vec::new(alloc);
    for body in bodies {
        next.push(body_counts(domains, functions, body))?;
    }
    Ok(next)
}

/// The counts of all macro rules, from those that are known of what they call.
#[tactic(auto, using(crate::proofs::RoundSteps::macro_steps))]
fn macro_round(
    alloc: Global,
    domains: &Domains,
    functions: &[Counts],
    infos: &[MacroInfo],
    macros: &[Counts],
) -> Result<Vec<Counts>, AllocError>
    ensures { IfOk result (λ next. next.items
        ≡ spec.macro_round domains.now functions.now infos.now macros.now) }
{
    let mut next = Vec::new(alloc);
    for info in infos {
        next.push(macro_counts(domains, functions, macros, info))?;
    }
    Ok(next)
}

/// The counts of all functions where calls are followed 512 deep, from a first guess on.
#[tactic(auto, using(crate::proofs::RoundSteps::functions_steps))]
pub(crate) fn functions_settled(
    alloc: Global,
    domains: &Domains,
    bodies: &[Option<Boxed<Term>>],
    first: Vec<Counts>,
) -> Result<Vec<Counts>, AllocError>
    ensures { IfOk result (λ counts. counts.items
        ≡ spec.iterated 512 (spec.function_round domains.now bodies.now) first.items) }
{
    let mut counts = first;
    for round in 0..MOST_ROUNDS {
        match function_round(alloc, domains, bodies, counts.as_slice()) {
            Ok(next) => {
                if same(counts.as_slice(), next.as_slice()) {
                    return Ok(next);
                }
                counts = next;
            }
            Err(fault) => return Err(fault),
        }
    }
    Ok(counts)
}

/// The counts of all macro rules where calls are followed 512 deep, from a first guess on.
#[tactic(auto, using(crate::proofs::RoundSteps::macros_steps))]
pub(crate) fn macros_settled(
    alloc: Global,
    domains: &Domains,
    functions: &[Counts],
    infos: &[MacroInfo],
    first: Vec<Counts>,
) -> Result<Vec<Counts>, AllocError>
    ensures { IfOk result (λ counts. counts.items
        ≡ spec.iterated 512 (spec.macro_round domains.now functions.now infos.now)
        first.items) }
{
    let mut counts = first;
    for round in 0..MOST_ROUNDS {
        match macro_round(alloc, domains, functions, infos, counts.as_slice()) {
            Ok(next) => {
                if same(counts.as_slice(), next.as_slice()) {
                    return Ok(next);
                }
                counts = next;
            }
            Err(fault) => return Err(fault),
        }
    }
    Ok(counts)
}
