//! What a client is shown of a clash.
ghost use Rattle.std.specs.Prelude.{◌≡◌, [], ◌∷◌, ◌++◌, IfOk, OnOk};
ghost use Rattle.asm_portable.specs.Ports as ports;
ghost use Rattle.asm_portable.specs.Values.{port_of};
ghost use Rattle.asm_board.specs.Refusals.{clash_at};
ghost use Rattle.asm_board.specs.Shown as spec;
ghost use Rattle.asm_showing.specs.Showing.{whose_by, step_fields};

use asm_board::{Refusal, RefusalName};
use asm_portable::{Field, Port, port_of, ports_of, push_field};
use asm_program::Program;
use asm_value::{Domains, List, Location, Subject, Text, Value};
use std::alloc::{AllocError, Global};

/// The name of the function of a location.
fn subject_name(alloc: Global, program: &Program, subject: Subject) -> Result<Text, AllocError>
    ensures { IfOk result (λ name. name ≡ spec.subject_name program.now subject) }
{
    match subject {
        Subject::Function(number) => match program.functions.as_slice().get(usize::from(number)) {
            Some(info) => info.name.copy(alloc),
            None => Ok(Text::new(alloc)),
        },
        Subject::Domain(_) => Ok(Text::new(alloc)),
    }
}

/// The trees of two values.
fn both_shown(
    alloc: Global,
    domains: &Domains,
    first: &Value,
    second: &Value,
) -> Result<List<Port>, AllocError>
    ensures { IfOk result (λ trees. trees
        ≡ port_of domains.now first.now ∷ port_of domains.now second.now ∷ []) }
{
    let first = port_of(alloc, domains, first)?;
    let second = port_of(alloc, domains, second)?;
    Ok(List::from_vec(vec![in alloc; first, second]?))
}

/// Puts the number of a run's step after the fields, if there is one.
pub(crate) fn push_step(
    alloc: Global,
    fields: &mut List<Field>,
    step: Option<u64>,
) -> Result<(), AllocError>
    ensures { OnOk result (fields.new ≡ fields.old ++ step_fields step) }
{
    match step {
        Some(step) => push_field(alloc, fields, "step", Port::from_number(step)),
        None => Ok(()),
    }
}

/// The refusal of a clash: of a model by its name, or of a run by the number of its step.
fn clash_at(
    alloc: Global,
    name: &str,
    step: Option<u64>,
    args: List<Port>,
    function: Text,
    values: List<Port>,
) -> Result<Refusal, AllocError>
    ensures { IfOk result
        (λ refusal. refusal ≡ clash_at (whose_by name.now step) args function values) }
{
    let mut fields = List::new(alloc);
    push_field(alloc, &mut fields, "args", Port::List(args))?;
    push_field(alloc, &mut fields, "function", Port::Text(function))?;
    push_field(alloc, &mut fields, "model", Port::from_text(alloc, name)?)?;
    push_step(alloc, &mut fields, step)?;
    push_field(alloc, &mut fields, "values", Port::List(values))?;
    Ok(Refusal::with_fields(RefusalName::Clash, fields))
}

/// The refusal of a clash, with its location and its two values.
pub(crate) fn clash_shown(
    alloc: Global,
    name: &str,
    step: Option<u64>,
    program: &Program,
    location: &Location,
    first: &Value,
    second: &Value,
) -> Result<Refusal, AllocError>
    ensures { IfOk result (λ refusal. refusal ≡ spec.clash_shown (whose_by name.now step)
        program.now location.now first.now second.now) }
{
    let args = ports_of(alloc, &program.domains, location.args.as_slice())?;
    let function = subject_name(alloc, program, location.subject)?;
    let values = both_shown(alloc, &program.domains, first, second)?;
    clash_at(alloc, name, step, args, function, values)
}
