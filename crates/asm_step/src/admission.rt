//! The tests of a new content.
ghost use Rattle.std.specs.Prelude.{◌≡◌, IfOk};
ghost use Rattle.asm_board.specs.Stepping as spec;

use asm_board::{Content, Stepped};
use asm_invariant::first_broken;
use asm_program::{Inv, Program};
use asm_state::State;
use asm_value::{List, Shared};
use std::alloc::{AllocError, Global};

/// The most that a state weighs.
const STATE_WEIGHT: u64 = 65_536;

/// The content, unless its state weighs too much or breaks an invariant.
pub(crate) fn admitted(
    alloc: Global,
    program: Shared<Program>,
    invs: Shared<List<Shared<Inv>>>,
    state: Shared<State>,
) -> Result<Stepped, AllocError>
    ensures { IfOk result (λ out. out
        ≡ spec.admitted (record { program = program; invs = invs; state = state })) }
{
    let weight = state.get().weight();
    if weight > STATE_WEIGHT {
        return Ok(Stepped::StateFull(weight));
    }
    match first_broken(alloc, program.get(), invs.get(), state.get())? {
        Some(name) => Ok(Stepped::Broken(name)),
        None => Ok(Stepped::Done(Content::new(program, invs, state))),
    }
}
