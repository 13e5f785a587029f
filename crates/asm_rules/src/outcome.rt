//! What a rule yields, and how the updates of its parts come together.
ghost use Rattle.std.specs.Prelude.{◌≡◌, true, List, ℕ, IfOk};
ghost use Rattle.asm_value.specs.State.{StateMap, IsConsistent, fire, overlaid};
ghost use Rattle.asm_value.specs.UpdateSet.{UpdateSet as Updates, union};
ghost use Rattle.asm_program.specs.Yields as spec;
ghost use Rattle.asm_program.specs.Yields.{Yielded, on_set, clashes};
ghost use Rattle.asm_terms.specs.Views.{map_of, program_of};
ghost use Rattle.asm_rules.specs.Outcomes.{yielded, going, after};

use asm_program::{Fault, FaultKind};
use asm_syntax::Span;
use asm_terms::View;
use asm_updates::UpdateSet;
use std::alloc::{AllocError, Global};

/// The greatest weight of an update set, in units of weight.
const HEAVIEST: u64 = 131_072;

/// What a rule yields.
#[derive(Drop)]
pub enum RuleOutcome {
    /// The updates. They may clash.
    Set(UpdateSet),
    /// The first fault, at the part of the text that it is placed at.
    Fault(Fault),
}

/// How a sequence of rules goes on after one of them.
#[derive(Clone, Copy)]
pub enum Progress {
    /// With the next rule.
    Goes,
    /// Not at all, since the updates so far clash.
    Clashes,
    /// Not at all, since there was a fault.
    Stops(Fault),
}

/// The fault of a rule whose updates weigh too much.
fn too_heavy(span: Span) -> Fault
    ensures { (next : List ℕ) → spec.stop FaultKind.UpdatesTooLarge span ≡ spec.Stops result }
{
    Fault {
        kind: FaultKind::UpdatesTooLarge,
        span,
    }
}

/// The set, unless it is too heavy. Takes no memory.
pub fn limited(span: Span, updates: UpdateSet) -> RuleOutcome
    ensures { (next : List ℕ) → yielded result next ≡ spec.limited span updates next }
{
    if updates.weight() <= HEAVIEST {
        RuleOutcome::Set(updates)
    } else {
        RuleOutcome::Fault(too_heavy(span))
    }
}

/// Adds what a part yields to the updates of those before it, as `par` does, unless it faults or
/// they weigh too much: then that fault is the answer. `AllocError` is want of memory.
pub fn unite(
    all: &mut UpdateSet,
    outcome: RuleOutcome,
    span: Span,
) -> Result<Option<Fault>, AllocError>
    ensures { IfOk result (λ out. (next : List ℕ) (go : Updates → List ℕ → Yielded) →
        on_set (yielded outcome next) (λ updates later.
        on_set (spec.limited span (union all.old updates) later) go)
        ≡ going out (go all.new next)) }
{
    match outcome {
        RuleOutcome::Set(updates) => {
            all.absorb(&updates)?;
            if all.weight() <= HEAVIEST {
                Ok(None)
            } else {
                Ok(Some(too_heavy(span)))
            }
        }
        RuleOutcome::Fault(fault) => Ok(Some(fault)),
    }
}

/// Lets what a part yields follow the consistent updates of those before it, as `seq` does, and
/// fires it over the view, unless they clash then. `AllocError` is want of memory.
pub fn follow(
    alloc: Global,
    view: &mut View<'_>,
    all: &mut UpdateSet,
    outcome: RuleOutcome,
    span: Span,
) -> Result<Progress, AllocError>
    requires { IsConsistent all.old }
    ensures outcome { IfOk result (λ out. (next : List ℕ) (go : Updates → List ℕ → Yielded) →
        on_set (yielded outcome next) (λ updates later.
        on_set (spec.limited span (overlaid all.old updates) later) go)
        ≡ after out (go all.new next)) }
    ensures goes { IfOk result (λ out. out ≡ Progress.Goes → IsConsistent all.new) }
    ensures fired { IfOk result (λ out. out ≡ Progress.Goes → (state : StateMap) →
        map_of view.old ≡ fire state all.old → map_of view.new ≡ fire state all.new) }
    ensures clashes { IfOk result (λ out. out ≡ Progress.Clashes → clashes all.new ≡ true) }
    ensures program { IfOk result (λ _. program_of view.new ≡ program_of view.old) }
{
    match outcome {
        RuleOutcome::Set(updates) => {
            all.then(&updates)?;
            if all.weight() > HEAVIEST {
                return Ok(Progress::Stops(too_heavy(span)));
            }
            if updates.clash().is_some() {
                return Ok(Progress::Clashes);
            }
            view.fire(alloc, &updates)?;
            Ok(Progress::Goes)
        }
        RuleOutcome::Fault(fault) => Ok(Progress::Stops(fault)),
    }
}
