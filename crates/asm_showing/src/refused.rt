//! A start or a step that isn't done, as a refusal.
ghost use Rattle.asm_board.specs.Changes as spec;
ghost use Rattle.asm_board.specs.Coming.{Comes};
ghost use Rattle.asm_showing.specs.Showing.{whose_by};

use crate::clashes::clash_shown;
use crate::faults::{broken, fault_shown, state_full};
use asm_board::{Content, Refusal, RefusalName, Stepped, Stop};
use asm_program::Program;
use std::alloc::Global;

/// The content in which a start or a step ends, or its refusal: of a model by its name, or of a run
/// by the number of its step. A fault is refused under this name. `NoMemory` is want of memory.
pub fn content_after(
    alloc: Global,
    refusal: RefusalName,
    name: &str,
    step: Option<u64>,
    program: &Program,
    stepped: Stepped,
) -> Result<Content, Stop>
    ensures { Comes (λ content. content)
        (spec.content_after refusal (whose_by name.now step) program.now stepped) result }
{
    let refused = match stepped {
        Stepped::Done(content) => return Ok(content),
        Stepped::Fault(fault) => fault_shown(alloc, refusal, name, step, program, fault)?,
        Stepped::Clash {
            location,
            first,
            second,
        } => clash_shown(alloc, name, step, program, &location, &first, &second)?,
        Stepped::StateFull(weight) => state_full(alloc, name, step, weight)?,
        Stepped::Broken(inv) => broken(alloc, name, step, inv.as_str())?,
    };
    Err(Stop::Refused(refused))
}
