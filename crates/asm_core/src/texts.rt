//! The program and the term of a text, or the refusal of the text.
ghost use Rattle.std.specs.Prelude.{◌≡◌, IfOk};
ghost use Rattle.asm_board.specs.declared.stop.Stop.TheVariants as stops;
ghost use Rattle.asm_board.specs.Refusals as refusals;
ghost use Rattle.asm_board.specs.Changes as spec;
ghost use Rattle.asm_board.specs.Reads as reads;
ghost use Rattle.asm_board.specs.Coming.{Comes};
ghost use Rattle.asm_core.specs.Language.{asmeta};

use asm_board::{Refusal, Stop};
use asm_checking::{program_of, term_of};
use asm_program::{BadText, CheckedTerm, Program};
use asm_value::Domain;
use std::alloc::{AllocError, Global};

/// The refusal of a text of which this is reported.
fn bad_text(alloc: Global, bad: &BadText) -> Result<Stop, AllocError>
    ensures { IfOk result (λ stop. stop ≡ stops.Refused (refusals.bad_text bad.now)) }
{
    Ok(Stop::Refused(Refusal::bad_text(alloc, bad)?))
}

/// The program of a text, or its refusal. `NoMemory` is want of memory.
pub(crate) fn program_in(alloc: Global, text: &str) -> Result<Program, Stop>
    ensures { Comes (λ program. program) (spec.program_in asmeta text.now) result }
{
    match program_of(alloc, text)? {
        Ok(program) => Ok(program),
        Err(bad) => Err(bad_text(alloc, &bad)?),
    }
}

/// The Boolean term of a text over what a program declares, or its refusal. `NoMemory` is want of
/// memory.
pub(crate) fn condition_in(
    alloc: Global,
    program: &Program,
    text: &str,
) -> Result<CheckedTerm, Stop>
    ensures { Comes (λ term. term) (spec.condition_in asmeta program.now text.now) result }
{
    match term_of(alloc, program, Some(Domain::Truth), text)? {
        Ok(term) => Ok(term),
        Err(bad) => Err(bad_text(alloc, &bad)?),
    }
}

/// The term of a text, of any domain, over what a program declares, or its refusal. `NoMemory` is
/// want of memory.
pub(crate) fn term_in(alloc: Global, program: &Program, text: &str) -> Result<CheckedTerm, Stop>
    ensures { Comes (λ term. term) (reads.term_in asmeta program.now text.now) result }
{
    match term_of(alloc, program, None, text)? {
        Ok(term) => Ok(term),
        Err(bad) => Err(bad_text(alloc, &bad)?),
    }
}
