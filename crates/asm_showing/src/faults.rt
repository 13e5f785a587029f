//! What a client is shown of a fault, and of a state that is too heavy.
ghost use Rattle.std.specs.Prelude.{◌≡◌, ◌≤◌, length, IfOk};
ghost use Rattle.asm_board.specs.Refusals as refusals;
ghost use Rattle.asm_board.specs.Shown as spec;
ghost use Rattle.asm_board.specs.Shown.{line_at, column_at};
ghost use Rattle.asm_showing.specs.Showing.{whose_by};

use crate::clashes::push_step;
use asm_board::{Refusal, RefusalName};
use asm_portable::{Port, push_field};
use asm_program::{Fault, FaultKind, Program};
use asm_syntax::within;
use asm_value::List;
use std::alloc::{AllocError, Global};

/// A place in a text: its line, and its column in bytes, both from 1.
#[derive(Clone, Copy)]
struct Place {
    line: u64,
    column: u64,
}

/// The line and the column of a byte offset.
fn place_of(text: &str, at: u32) -> Place
    requires { at ≤ length text.now }
    ensures line { result.line ≡ line_at text.now at }
    ensures column { result.column ≡ column_at text.now at }
{
    let bytes = text.as_bytes();
    let mut line: u64 = 1;
    let mut column: u64 = 1;
    for i in 0..at as usize {
        if bytes[i] == b'\n' {
            line += 1;
            column = 1;
        } else {
            column += 1;
        }
    }
    Place { line, column }
}

pub(crate) fn fault_text(kind: FaultKind) -> &'static str
    ensures { result.now ≡ spec.fault_text kind }
{
    match kind {
        FaultKind::Overflow => "Overflow",
        FaultKind::ValueTooLarge => "ValueTooLarge",
        FaultKind::DomainFull => "DomainFull",
        FaultKind::OutOfDomain => "OutOfDomain",
        FaultKind::OutOfCodomain => "OutOfCodomain",
        FaultKind::UpdatesTooLarge => "UpdatesTooLarge",
    }
}

/// The refusal of a fault of this kind, at this place.
fn fault_at(
    alloc: Global,
    refusal: RefusalName,
    name: &str,
    step: Option<u64>,
    there: Place,
    kind: &str,
) -> Result<Refusal, AllocError>
    ensures { IfOk result (λ shown. shown ≡ refusals.fault_at refusal (whose_by name.now step)
        there.column kind.now there.line) }
{
    let mut fields = List::new(alloc);
    push_field(
        alloc,
        &mut fields,
        "column",
        Port::from_number(there.column),
    )?;
    push_field(alloc, &mut fields, "kind", Port::from_text(alloc, kind)?)?;
    push_field(alloc, &mut fields, "line", Port::from_number(there.line))?;
    push_field(alloc, &mut fields, "model", Port::from_text(alloc, name)?)?;
    push_step(alloc, &mut fields, step)?;
    Ok(Refusal::with_fields(refusal, fields))
}

/// The refusal of a fault under this name, at its place in the program's text.
pub(crate) fn fault_shown(
    alloc: Global,
    refusal: RefusalName,
    name: &str,
    step: Option<u64>,
    program: &Program,
    fault: Fault,
) -> Result<Refusal, AllocError>
    ensures { IfOk result (λ shown. shown
        ≡ spec.fault_shown refusal (whose_by name.now step) program.now fault) }
{
    let text = program.text.as_str();
    let there = place_of(text, within(text, fault.span.start));
    fault_at(alloc, refusal, name, step, there, fault_text(fault.kind))
}

/// The refusal of a state with this weight.
pub(crate) fn state_full(
    alloc: Global,
    name: &str,
    step: Option<u64>,
    weight: u64,
) -> Result<Refusal, AllocError>
    ensures { IfOk result
        (λ shown. shown ≡ refusals.state_full (whose_by name.now step) weight) }
{
    let mut fields = List::new(alloc);
    push_field(alloc, &mut fields, "model", Port::from_text(alloc, name)?)?;
    push_step(alloc, &mut fields, step)?;
    push_field(alloc, &mut fields, "weight", Port::from_number(weight))?;
    Ok(Refusal::with_fields(RefusalName::StateFull, fields))
}

/// The refusal of a state that breaks an invariant: of a model by its name, or of a run by the
/// number of its step.
pub fn broken(
    alloc: Global,
    name: &str,
    step: Option<u64>,
    inv: &str,
) -> Result<Refusal, AllocError>
    ensures { IfOk result (λ shown. shown ≡ refusals.broken (whose_by name.now step) inv.now) }
{
    let mut fields = List::new(alloc);
    push_field(alloc, &mut fields, "inv", Port::from_text(alloc, inv)?)?;
    push_field(alloc, &mut fields, "model", Port::from_text(alloc, name)?)?;
    push_step(alloc, &mut fields, step)?;
    Ok(Refusal::with_fields(RefusalName::Broken, fields))
}
