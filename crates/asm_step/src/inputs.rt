//! The state in which a step is evaluated.
ghost use Rattle.std.specs.Prelude.{◌≡◌, map, not, IfOk, IsTrue};
ghost use Rattle.std.specs.FinMap as finite;
ghost use Rattle.std.specs.List.{list_any};
ghost use Rattle.asm_value.specs.State as states;
ghost use Rattle.asm_board.specs.Kinds as kinds;
ghost use Rattle.asm_board.specs.Stepping as spec;

use asm_program::{FunctionKind, Program};
use asm_state::State;
use asm_value::{List, Update};
use std::alloc::{AllocError, Global};

/// Whether the environment gives a function its values anew with each step.
fn is_monitored(kind: FunctionKind) -> bool
    ensures { result ≡ kinds.is_monitored kind }
{
    match kind {
        FunctionKind::Monitored => true,
        FunctionKind::Static
        | FunctionKind::Derived
        | FunctionKind::Controlled
        | FunctionKind::Shared
        | FunctionKind::Out
        | FunctionKind::Constant => false,
    }
}

/// Of each function of the program, whether it is monitored.
fn monitored(alloc: Global, program: &Program) -> Result<Vec<bool>, AllocError>
    ensures { IfOk result (λ marks. marks.items
        ≡ map (λ info. kinds.is_monitored info.kind) program.now.functions) }
{
    let mut marks = Vec::new(alloc);
    for info in program.functions.as_slice() {
        marks.push(is_monitored(info.kind))?;
    }
    Ok(marks)
}

/// The state without what monitored functions hold.
fn unmonitored(alloc: Global, program: &Program, state: &State) -> Result<State, AllocError>
    ensures { IfOk result (λ kept. kept ≡ finite.retain_keys state.now
        (λ location. not (kinds.is_monitored_subject program.now location.subject))) }
{
    let marks = monitored(alloc, program)?;
    state.without(alloc, marks.as_slice())
}

/// The state without what monitored functions hold, with the inputs set.
pub(crate) fn with_inputs(
    alloc: Global,
    program: &Program,
    state: &State,
    inputs: &List<Update>,
) -> Result<State, AllocError>
    ensures { IfOk result (λ before. before
        ≡ spec.with_inputs program.now state.now inputs.now) }
{
    let mut before = unmonitored(alloc, program, state)?;
    for input in inputs.as_slice() {
        before.apply(input)?;
    }
    Ok(before)
}

/// Whether some function of the program is monitored.
fn monitors(program: &Program) -> bool
    ensures { result ≡ list_any (λ info. kinds.is_monitored info.kind) program.now.functions }
{
    for info in program.functions.as_slice() {
        if is_monitored(info.kind) {
            return true;
        }
    }
    false
}

/// Whether the state stays as it is: no function is monitored, and nothing is set.
pub(crate) fn stays(program: &Program, inputs: &List<Update>) -> bool
    ensures { IsTrue result → (state : states.StateMap)
        → spec.with_inputs program.now state inputs.now ≡ state }
{
    match inputs.as_slice() {
        [] => !monitors(program),
        [_, ..] => false,
    }
}
