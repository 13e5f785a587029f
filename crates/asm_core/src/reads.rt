//! Reads: what a client is shown of texts and models.
ghost use Rattle.std.specs.Prelude.{◌≡◌, [], Ok, IfOk};
ghost use Rattle.asm_program.specs.Meaning as meaning;
ghost use Rattle.asm_board.specs.Changes as changes;
ghost use Rattle.asm_board.specs.Reads as spec;
ghost use Rattle.asm_board.specs.Refusals.{after};
ghost use Rattle.asm_board.specs.Shown as show;
ghost use Rattle.asm_board.specs.Coming.{Comes};
ghost use Rattle.asm_core.specs.Language.{asmeta};

use crate::steps::steps;
use crate::texts::{program_in, term_in};
use asm_board::{Board, Call, Content, Refusal, Slot, Stop};
use asm_checking::canonical_of;
use asm_portable::Port;
use asm_program::{Outcome, Program, Term};
use asm_showing::{models_shown, run_shown, state_shown, text_shown, value_told};
use asm_terms::{Env, eval};
use asm_value::{List, Shared, Text};
use std::alloc::{AllocError, Global};

/// The model of a name, or the refusal of the name.
pub fn found<'a>(alloc: Global, board: &'a Board, name: &Text) -> Result<&'a Slot, Stop>
    ensures { Comes (λ slot. slot.now) (changes.found asmeta board.now.slots name.now) result }
{
    match board.slot(name) {
        Some(slot) => Ok(slot),
        None => Err(Stop::Refused(Refusal::unknown_model(alloc, name.as_str())?)),
    }
}

/// What some steps of a program show.
fn ran(
    alloc: Global,
    program: &Shared<Program>,
    count: u64,
    pick: Option<u64>,
) -> Result<Port, Stop>
    ensures { Comes (λ tree. tree)
        (after (spec.steps_of asmeta pick program.now count)
        (λ content. Ok (show.run_shown program.now count content.state))) result }
{
    let content = steps(alloc, program, count, pick)?;
    Ok(run_shown(alloc, program.get(), count, content.state().get())?)
}

/// What some steps of a text show.
fn run(alloc: Global, text: &str, count: u64, pick: Option<u64>) -> Result<Port, Stop>
    ensures { Comes (λ tree. tree) (spec.run asmeta text.now count pick) result }
{
    let program = Shared::new(alloc, program_in(alloc, text)?)?;
    ran(alloc, &program, count, pick)
}

/// What a model shows.
fn state(alloc: Global, board: &Board, name: &Text) -> Result<Port, Stop>
    ensures { Comes (λ tree. tree) (spec.state asmeta board.now.slots name.now) result }
{
    let slot = found(alloc, board, name)?;
    Ok(state_shown(alloc, slot)?)
}

/// What a term without variables gives in the state of a content.
fn given_by(alloc: Global, content: &Content, term: &Term) -> Result<Outcome, AllocError>
    ensures { IfOk result (λ outcome. outcome
        ≡ meaning.eval content.now.program content.now.state term.now []) }
{
    let none = Env::new(alloc);
    let program = content.program().get();
    let state = content.state().get();
    eval(alloc, program, state, &none, term)
}

/// What the term of a text shows in a model's state.
fn value(alloc: Global, board: &Board, name: &Text, text: &str) -> Result<Port, Stop>
    ensures { Comes (λ tree. tree) (spec.value asmeta board.now.slots name.now text.now) result }
{
    let content = found(alloc, board, name)?.content.get();
    let program = content.program().get();
    let term = term_in(alloc, program, text)?;
    let outcome = given_by(alloc, content, term.term.get())?;
    value_told(alloc, name.as_str(), program, &outcome)
}

/// What a model's text shows, in its canonical form.
fn canonical_text(alloc: Global, board: &Board, name: &Text) -> Result<Port, Stop>
    ensures { Comes (λ tree. tree) (spec.canonical_text asmeta board.now.slots name.now) result }
{
    let content = found(alloc, board, name)?.content.get();
    let text = canonical_of(alloc, content.program().get().text.as_str())?;
    Ok(text_shown(alloc, text)?)
}

/// What a read shows of the models alone. A log shows none of its entries here.
pub fn shown(alloc: Global, board: &Board, call: &Call) -> Result<Port, Stop>
    ensures { Comes (λ tree. tree) (spec.read asmeta board.now.slots call.now) result }
{
    match call {
        Call::Run {
            text,
            steps,
            pick,
            ..
        } => run(alloc, text.as_str(), *steps, *pick),
        Call::State { name, .. } => state(alloc, board, name),
        Call::Value { name, term, .. } => value(alloc, board, name, term.as_str()),
        Call::ShowText { name, .. } => canonical_text(alloc, board, name),
        Call::Models { .. } => Ok(models_shown(alloc, board.slots.as_slice())?),
        Call::Log { .. }
        | Call::Load { .. }
        | Call::Unload { .. }
        | Call::Step { .. }
        | Call::AddInvariant { .. }
        | Call::DropInvariant { .. }
        | Call::Rollback { .. } => Ok(Port::Fields(List::new(alloc))),
    }
}
