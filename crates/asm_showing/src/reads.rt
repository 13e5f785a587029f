//! What a client is shown of a term's value and of a text.
ghost use Rattle.std.specs.Prelude.{◌≡◌, [], ◌∷◌, IfOk};
ghost use Rattle.asm_portable.specs.Ports as ports;
ghost use Rattle.asm_board.specs.Coming.{Comes};
ghost use Rattle.asm_board.specs.Reads as spec;

use crate::faults::fault_text;
use asm_board::{Refusal, Stop};
use asm_portable::{Port, port_of, push_field};
use asm_program::{Outcome, Program};
use asm_value::{List, Text};
use std::alloc::{AllocError, Global};

/// A tree under a key, alone.
fn alone(alloc: Global, key: &str, tree: Port) -> Result<Port, AllocError>
    ensures { IfOk result (λ port. port ≡ ports.fields (ports.field key.now tree ∷ [])) }
{
    let mut fields = List::new(alloc);
    push_field(alloc, &mut fields, key, tree)?;
    Ok(Port::Fields(fields))
}

/// What the term of a model gives: its value, undef as null, or the refusal of its fault. `NoMemory`
/// is want of memory.
pub fn value_told(
    alloc: Global,
    model: &str,
    program: &Program,
    outcome: &Outcome,
) -> Result<Port, Stop>
    ensures { Comes (λ tree. tree) (spec.value_told model.now program.now outcome.now) result }
{
    match outcome {
        Outcome::Value(value) => {
            let tree = port_of(alloc, &program.domains, value)?;
            Ok(alone(alloc, "value", tree)?)
        }
        Outcome::Fault(fault) => {
            let refusal = Refusal::value_fault(alloc, fault_text(fault.kind), model)?;
            Err(Stop::Refused(refusal))
        }
    }
}

/// A text as it is shown.
pub fn text_shown(alloc: Global, text: Text) -> Result<Port, AllocError>
    ensures { IfOk result (λ port. port ≡ spec.text_shown text) }
{
    alone(alloc, "text", Port::Text(text))
}
