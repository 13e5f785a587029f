//! Models that start and step, or the refusals of their starts and steps.
ghost use Rattle.std.specs.Prelude.{◌≡◌, []};
ghost use Rattle.asm_board.specs.Changes as spec;
ghost use Rattle.asm_board.specs.Coming.{Comes};
ghost use Rattle.asm_board.specs.Reads as reads;
ghost use Rattle.asm_core.specs.Language.{asmeta};
ghost use Rattle.asm_showing.specs.Showing.{whose_by};

use asm_board::{Content, RefusalName, Stop};
use asm_program::Program;
use asm_showing::content_after;
use asm_step::{start_model, step_model};
use asm_value::{List, Shared, Update};
use std::alloc::Global;

/// A model of the program in its initial state: a model of a name, or the start of a run.
pub(crate) fn started(
    alloc: Global,
    name: &str,
    step: Option<u64>,
    program: &Shared<Program>,
) -> Result<Content, Stop>
    ensures { Comes (λ content. content)
        (spec.started asmeta (whose_by name.now step) program.now) result }
{
    let stepped = start_model(alloc, program.share()?)?;
    content_after(
        alloc,
        RefusalName::InitFault,
        name,
        step,
        program.get(),
        stepped,
    )
}

/// The content after one step: of a model of a name, or of a run with the number of this step.
pub(crate) fn stepped_from(
    alloc: Global,
    name: &str,
    step: Option<u64>,
    pick: Option<u64>,
    content: &Content,
    inputs: &List<Update>,
) -> Result<Content, Stop>
    ensures { Comes (λ next. next)
        (spec.stepped_from asmeta (whose_by name.now step) pick content.now inputs.now) result }
{
    let stepped = step_model(alloc, content, inputs, pick)?;
    let program = content.program().get();
    content_after(alloc, RefusalName::Fault, name, step, program, stepped)
}

/// This many steps of a run, of which the first has the number 1.
fn steps_from(alloc: Global, count: u64, pick: Option<u64>, first: Content) -> Result<Content, Stop>
    ensures { Comes (λ content. content) (reads.steps_from asmeta pick count 1 first) result }
{
    let none = List::new(alloc);
    let mut content = first;
    for made in 0..count {
        match stepped_from(alloc, "", Some(made + 1), pick, &content, &none) {
            Ok(next) => content = next,
            Err(stop) => return Err(stop),
        }
    }
    Ok(content)
}

/// This many steps of a program from its initial state, which is step 0.
pub(crate) fn steps(
    alloc: Global,
    program: &Shared<Program>,
    count: u64,
    pick: Option<u64>,
) -> Result<Content, Stop>
    ensures { Comes (λ content. content) (reads.steps_of asmeta pick program.now count) result }
{
    let content = started(alloc, "", Some(0), program)?;
    steps_from(alloc, count, pick, content)
}
