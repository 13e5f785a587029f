//! How a model steps.
ghost use Rattle.std.specs.Prelude.{◌≡◌, IfOk};
ghost use Rattle.asm_board.specs.Stepping as spec;
ghost use Rattle.asm_program.specs.Yields as meaning;
ghost use Rattle.asm_board.specs.declared.stepped.Stepped.TheVariants as stepped;

use crate::admission::admitted;
use crate::inputs::{stays, with_inputs};
use asm_board::{Content, Stepped, the_first_clash_is_the_clash};
use asm_fire::fire;
use asm_rules::{RuleOutcome, yields};
use asm_state::State;
use asm_updates::{ClashRef, UpdateSet};
use asm_value::{List, Shared, Update};
use std::alloc::{AllocError, Global};

/// A step that ends at a clash.
fn clashes(alloc: Global, clash: &ClashRef<'_>) -> Result<Stepped, AllocError>
    ensures { IfOk result (λ out. out
        ≡ stepped.Clash clash.now.location.now clash.now.first.now clash.now.second.now) }
{
    Ok(Stepped::Clash {
        location: clash.location.copy(alloc)?,
        first: clash.first.copy(alloc)?,
        second: clash.second.copy(alloc)?,
    })
}

/// The content with the updates fired in a state, unless they clash.
fn fired(
    alloc: Global,
    content: &Content,
    state: &State,
    updates: &UpdateSet,
) -> Result<Stepped, AllocError>
    ensures { IfOk result (λ out. out ≡ spec.fired content.now state.now updates.now) }
{
    the_first_clash_is_the_clash();
    match updates.clash() {
        Some(clash) => clashes(alloc, &clash),
        None => {
            let next = Shared::new(alloc, fire(alloc, state, updates)?)?;
            let program = content.program().share()?;
            let invs = content.invs().share()?;
            admitted(alloc, program, invs, next)
        }
    }
}

/// A step whose main rule is evaluated in this state.
fn stepped_in(
    alloc: Global,
    content: &Content,
    state: &State,
    pick: Option<u64>,
) -> Result<Stepped, AllocError>
    ensures { IfOk result (λ out. out ≡ spec.after_yield content.now state.now
        (meaning.main_yields content.now.program state.now pick)) }
{
    match yields(alloc, content.program().get(), state, pick)? {
        RuleOutcome::Set(updates) => fired(alloc, content, state, &updates),
        RuleOutcome::Fault(fault) => Ok(Stepped::Fault(fault)),
    }
}

/// One step of a model: what monitored functions held is gone, the inputs are set, and the updates
/// that the main rule yields there for the pick are fired. Done, Fault, Clash, StateFull or Broken,
/// each exactly where the definition gives it, in this order. `AllocError` is want of memory.
pub fn step_model(
    alloc: Global,
    content: &Content,
    inputs: &List<Update>,
    pick: Option<u64>,
) -> Result<Stepped, AllocError>
    ensures { IfOk result (λ out. out ≡ spec.after_yield content.now
        (spec.with_inputs content.now.program content.now.state inputs.now)
        (meaning.main_yields content.now.program
        (spec.with_inputs content.now.program content.now.state inputs.now) pick)) }
{
    let program = content.program().get();
    if stays(program, inputs) {
        return stepped_in(alloc, content, content.state().get(), pick);
    }
    let before = with_inputs(alloc, program, content.state().get(), inputs)?;
    stepped_in(alloc, content, &before, pick)
}
