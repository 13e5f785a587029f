//! How a model starts.
ghost use Rattle.std.specs.Prelude.{◌≡◌, IfOk};
ghost use Rattle.asm_board.specs.Stepping as spec;
ghost use Rattle.asm_program.specs.Initial as meaning;

use crate::admission::admitted;
use asm_board::Stepped;
use asm_program::{Inv, Program};
use asm_terms::{InitOutcome, initial};
use asm_value::{List, Shared};
use std::alloc::{AllocError, Global};

/// The invariants of a text, shared with its program.
fn text_invariants(alloc: Global, program: &Program) -> Result<List<Shared<Inv>>, AllocError>
    ensures { IfOk result (λ invs. invs ≡ program.now.invariants) }
{
    let mut invs = List::new(alloc);
    for inv in program.invariants.as_slice() {
        invs.push(inv.share()?)?;
    }
    Ok(invs)
}

/// A model of the program in its initial state: Done, Fault, StateFull or Broken, each exactly where
/// the definition gives it, in this order. `AllocError` is want of memory.
pub fn start_model(alloc: Global, program: Shared<Program>) -> Result<Stepped, AllocError>
    ensures { IfOk result (λ out. out ≡ spec.after_start program (meaning.initial program)) }
{
    let invs = Shared::new(alloc, text_invariants(alloc, program.get())?)?;
    match initial(alloc, program.get())? {
        InitOutcome::Done(state) => admitted(alloc, program, invs, Shared::new(alloc, state)?),
        InitOutcome::Fault(fault) => Ok(Stepped::Fault(fault)),
    }
}
