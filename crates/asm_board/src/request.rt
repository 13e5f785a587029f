//! Calls as the requests that ask for them.
ghost use Rattle.std.specs.Prelude.{◌≡◌, ◌++◌, IfOk, OnOk};
ghost use Rattle.asm_board.specs.CallPorts as spec;
ghost use Rattle.asm_board.specs.declared.call.Call.TheVariants as calls;

use crate::call::Call;
use crate::refusal::push_text;
use asm_portable::{Field, Port, push_field};
use asm_value::{List, Text};
use std::alloc::{AllocError, Global};

// ---- fields

/// Puts a number under a key after the fields.
fn push_number(
    alloc: Global,
    fields: &mut List<Field>,
    key: &str,
    value: u64,
) -> Result<(), AllocError>
    ensures { OnOk result (fields.new ≡ fields.old ++ spec.numbers key.now value) }
{
    push_field(alloc, fields, key, Port::from_number(value))
}

/// Puts a pick after the fields, where there is one.
fn push_pick(alloc: Global, fields: &mut List<Field>, pick: Option<u64>) -> Result<(), AllocError>
    ensures { OnOk result (fields.new ≡ fields.old ++ spec.pick_named pick) }
{
    match pick {
        Some(pick) => push_number(alloc, fields, "pick", pick),
        None => Ok(()),
    }
}

/// Puts the least number of entries of a read after the fields, where it isn't 0.
fn push_since(alloc: Global, fields: &mut List<Field>, since: u64) -> Result<(), AllocError>
    ensures { OnOk result (fields.new ≡ fields.old ++ spec.since_named since) }
{
    if since == 0 {
        return Ok(());
    }
    push_number(alloc, fields, "since", since)
}

/// Puts inputs after the fields, where there are some.
fn push_inputs(alloc: Global, fields: &mut List<Field>, inputs: &Port) -> Result<(), AllocError>
    ensures { OnOk result (fields.new ≡ fields.old ++ spec.inputs_named inputs.now) }
{
    match inputs.fields() {
        [] => Ok(()),
        [_, ..] => push_field(alloc, fields, "inputs", inputs.copy(alloc)?),
    }
}

// ---- reads

fn run_fields(
    alloc: Global,
    text: &Text,
    steps: u64,
    pick: Option<u64>,
    since: u64,
) -> Result<List<Field>, AllocError>
    ensures { IfOk result
        (λ fields. fields ≡ spec.request_fields (calls.Run text.now steps pick since)) }
{
    let mut fields = List::new(alloc);
    push_text(alloc, &mut fields, "op", "run")?;
    push_pick(alloc, &mut fields, pick)?;
    push_since(alloc, &mut fields, since)?;
    push_number(alloc, &mut fields, "steps", steps)?;
    push_text(alloc, &mut fields, "text", text.as_str())?;
    Ok(fields)
}

/// The first fields of a call of a model: its name, and the word of the operation.
fn named(alloc: Global, op: &str, name: &Text) -> Result<List<Field>, AllocError>
    ensures { IfOk result (λ fields. fields ≡ spec.named op.now name.now) }
{
    let mut fields = List::new(alloc);
    push_text(alloc, &mut fields, "name", name.as_str())?;
    push_text(alloc, &mut fields, "op", op)?;
    Ok(fields)
}

/// The fields of a read of a model, by the word of its operation.
fn read_fields(alloc: Global, op: &str, name: &Text, since: u64) -> Result<List<Field>, AllocError>
    ensures { IfOk result
        (λ fields. fields ≡ spec.named op.now name.now ++ spec.since_named since) }
{
    let mut fields = named(alloc, op, name)?;
    push_since(alloc, &mut fields, since)?;
    Ok(fields)
}

fn value_fields(
    alloc: Global,
    name: &Text,
    term: &Text,
    since: u64,
) -> Result<List<Field>, AllocError>
    ensures { IfOk result
        (λ fields. fields ≡ spec.request_fields (calls.Value name.now term.now since)) }
{
    let mut fields = read_fields(alloc, "value", name, since)?;
    push_text(alloc, &mut fields, "term", term.as_str())?;
    Ok(fields)
}

fn models_fields(alloc: Global, since: u64) -> Result<List<Field>, AllocError>
    ensures { IfOk result (λ fields. fields ≡ spec.request_fields (calls.Models since)) }
{
    let mut fields = List::new(alloc);
    push_text(alloc, &mut fields, "op", "models")?;
    push_since(alloc, &mut fields, since)?;
    Ok(fields)
}

fn log_fields(alloc: Global, from: u64, count: u64, since: u64) -> Result<List<Field>, AllocError>
    ensures { IfOk result (λ fields. fields ≡ spec.request_fields (calls.Log from count since)) }
{
    let mut fields = List::new(alloc);
    push_number(alloc, &mut fields, "count", count)?;
    push_number(alloc, &mut fields, "from", from)?;
    push_text(alloc, &mut fields, "op", "log")?;
    push_since(alloc, &mut fields, since)?;
    Ok(fields)
}

// ---- changes

fn load_fields(alloc: Global, name: &Text, text: &Text) -> Result<List<Field>, AllocError>
    ensures { IfOk result
        (λ fields. fields ≡ spec.request_fields (calls.Load name.now text.now)) }
{
    let mut fields = named(alloc, "load", name)?;
    push_text(alloc, &mut fields, "text", text.as_str())?;
    Ok(fields)
}

fn step_fields(
    alloc: Global,
    formula: &Text,
    inputs: &Port,
    pick: Option<u64>,
) -> Result<List<Field>, AllocError>
    ensures { IfOk result
        (λ fields. fields ≡ spec.request_fields (calls.Step formula.now inputs.now pick)) }
{
    let mut fields = List::new(alloc);
    push_text(alloc, &mut fields, "formula", formula.as_str())?;
    push_inputs(alloc, &mut fields, inputs)?;
    push_text(alloc, &mut fields, "op", "step")?;
    push_pick(alloc, &mut fields, pick)?;
    Ok(fields)
}

fn add_fields(
    alloc: Global,
    name: &Text,
    inv: &Text,
    term: &Text,
) -> Result<List<Field>, AllocError>
    ensures { IfOk result
        (λ fields. fields ≡ spec.request_fields (calls.AddInvariant name.now inv.now term.now)) }
{
    let mut fields = List::new(alloc);
    push_text(alloc, &mut fields, "inv", inv.as_str())?;
    push_text(alloc, &mut fields, "name", name.as_str())?;
    push_text(alloc, &mut fields, "op", "addinv")?;
    push_text(alloc, &mut fields, "term", term.as_str())?;
    Ok(fields)
}

fn drop_fields(alloc: Global, name: &Text, inv: &Text) -> Result<List<Field>, AllocError>
    ensures { IfOk result
        (λ fields. fields ≡ spec.request_fields (calls.DropInvariant name.now inv.now)) }
{
    let mut fields = List::new(alloc);
    push_text(alloc, &mut fields, "inv", inv.as_str())?;
    push_text(alloc, &mut fields, "name", name.as_str())?;
    push_text(alloc, &mut fields, "op", "dropinv")?;
    Ok(fields)
}

fn rollback_fields(alloc: Global, name: &Text, to: u64) -> Result<List<Field>, AllocError>
    ensures { IfOk result (λ fields. fields ≡ spec.request_fields (calls.Rollback name.now to)) }
{
    let mut fields = named(alloc, "rollback", name)?;
    push_number(alloc, &mut fields, "to", to)?;
    Ok(fields)
}

/// The fields of the request that asks for a call.
fn request_fields(alloc: Global, call: &Call) -> Result<List<Field>, AllocError>
    ensures { IfOk result (λ fields. fields ≡ spec.request_fields call.now) }
{
    match call {
        Call::Run {
            text,
            steps,
            pick,
            since,
        } => run_fields(alloc, text, *steps, *pick, *since),
        Call::Load { name, text } => load_fields(alloc, name, text),
        Call::Unload { name } => named(alloc, "unload", name),
        Call::Step {
            formula,
            inputs,
            pick,
        } => step_fields(alloc, formula, inputs, *pick),
        Call::State { name, since } => read_fields(alloc, "state", name, *since),
        Call::Value { name, term, since } => value_fields(alloc, name, term, *since),
        Call::ShowText { name, since } => read_fields(alloc, "text", name, *since),
        Call::Models { since } => models_fields(alloc, *since),
        Call::Log { from, count, since } => log_fields(alloc, *from, *count, *since),
        Call::AddInvariant { name, inv, term } => add_fields(alloc, name, inv, term),
        Call::DropInvariant { name, inv } => drop_fields(alloc, name, inv),
        Call::Rollback { name, to } => rollback_fields(alloc, name, *to),
    }
}

/// The request that asks for a call, as fields, which ascend by key. A field that holds its default
/// is left out.
pub fn call_port(alloc: Global, call: &Call) -> Result<Port, AllocError>
    ensures { IfOk result (λ port. port ≡ spec.call_port call.now) }
{
    Ok(Port::Fields(request_fields(alloc, call)?))
}
