//! The depth and the work of a term over a program.
ghost use Rattle.std.specs.Prelude.{◌≡◌, ◌≤◌, ◌++◌, ◌^◌, map, min, IfOk};
ghost use Rattle.asm_program.specs.Checks.{Checks};
ghost use Rattle.asm_program.specs.Counts.{term_depth, term_work};
ghost use Rattle.asm_program.specs.Typed.{depth_refused, work_refused};
ghost use Rattle.asm_counts.specs.CountLaws.{Tells};
ghost use Rattle.asm_typed_alone.specs.Kept.{kept_counts};

use asm_counts::{Counts, MOST_COUNT, term_counts};
use asm_program::{FunctionInfo, Limited, Program, Term, TypeRefusal};
use asm_syntax::Span;
use asm_value::List;
use std::alloc::{AllocError, Global};

/// The most nodes in one another.
const MAX_DEPTH: u64 = 512;

/// The most nodes that are looked at.
const MAX_WORK: u64 = 1 << 24;

/// A count as it is told.
fn told(count: u64) -> u64
    ensures { result ≡ min count (2 ^ 32) }
{
    if count < MOST_COUNT {
        count
    } else {
        MOST_COUNT
    }
}

/// The counts that functions carry, in their order.
fn counts_kept(alloc: Global, functions: &[FunctionInfo]) -> Result<List<Counts>, AllocError>
    ensures { IfOk result (λ counts. counts ≡ map kept_counts functions.now) }
{
    let mut counts = List::new(alloc);
    for info in functions {
        counts.push(Counts {
            depth: told(info.depth),
            work: info.work,
        })?;
    }
    Ok(counts)
}

/// The counts of a term.
fn counts_in(alloc: Global, program: &Program, term: &Term) -> Result<Counts, AllocError>
    ensures { IfOk result (λ counts. Tells counts
        (term_depth program.now.functions term.now)
        (term_work program.now.domains program.now.functions term.now)) }
{
    let functions = counts_kept(alloc, program.functions.as_slice())?;
    Ok(term_counts(&program.domains, functions.as_slice(), term))
}

/// The work of a term over what the program declares: the nodes that its evaluation looks at, at
/// most, and 2^32 where it is more. `AllocError` is want of memory.
pub fn work_of(alloc: Global, program: &Program, term: &Term) -> Result<u64, AllocError>
    ensures { IfOk result (λ work. work
        ≡ min (term_work program.now.domains program.now.functions term.now) (2 ^ 32)) }
{
    let counts = counts_in(alloc, program, term)?;
    Ok(counts.work)
}

/// A depth that is allowed.
#[tactic(auto, using(crate::proofs::LimitSteps::capped))]
fn depth_checked(depth: u64, place: Span) -> Result<(), TypeRefusal>
    requires { depth ≤ 2 ^ 32 }
    ensures { Checks result (depth_refused depth place) (λ _. Unit {0}) }
{
    if depth > MAX_DEPTH {
        Err(TypeRefusal::Limit(Limited::Depth, u128::from(depth), place))
    } else {
        Ok(())
    }
}

/// A work that is allowed.
#[tactic(auto, using(crate::proofs::LimitSteps::capped))]
fn work_checked(work: u64, place: Span) -> Result<u64, TypeRefusal>
    requires { work ≤ 2 ^ 32 }
    ensures { Checks result (work_refused work place) (λ allowed. allowed ≡ work) }
{
    if work <= MAX_WORK {
        Ok(work)
    } else {
        Err(TypeRefusal::TooMuchWork(work, place))
    }
}

/// The work of a term, if its depth and its work are allowed; what counts is placed here.
#[tactic(auto, using(crate::proofs::LimitSteps::limit_steps))]
pub(crate) fn counts_checked(
    alloc: Global,
    program: &Program,
    term: &Term,
    place: Span,
) -> Result<u64, TypeRefusal>
    ensures { Checks result
        (depth_refused (term_depth program.now.functions term.now) place
        ++ work_refused (term_work program.now.domains program.now.functions term.now) place)
        (λ work. work ≡ term_work program.now.domains program.now.functions term.now) }
{
    let counts = counts_in(alloc, program, term)?;
    depth_checked(counts.depth, place)?;
    work_checked(counts.work, place)
}
