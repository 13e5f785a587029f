//! What is given for models.
ghost use Rattle.std.specs.Prelude.{◌≡◌, ◌++◌, option_map, OnOk};
ghost use Rattle.asm_portable.specs.Ports.{fields_of};
ghost use Rattle.asm_board.specs.Coming.{Comes};
ghost use Rattle.asm_board.specs.Inputs as spec;
ghost use Rattle.asm_board.specs.Slots.{slot_in, only};

use crate::functions::function_in;
use crate::offers::offered;
use crate::values::Present;
use asm_board::{Board, Content, Refusal, Slot, Stop};
use asm_compose::Given;
use asm_portable::{Field, Port};
use asm_value::{List, Text, Update};
use std::alloc::{AllocError, Global};

/// Moves updates behind others.
fn append(updates: &mut Vec<Update>, others: List<Update>) -> Result<(), AllocError>
    ensures { OnOk result (updates.new.items ≡ updates.old.items ++ others) }
{
    let mut moved = others.into_vec();
    updates.append(&mut moved)
}

/// What is given for a function of the model.
fn function_given(
    alloc: Global,
    name: &str,
    present: &Present<'_>,
    field: &Field,
) -> Result<List<Update>, Stop>
    ensures { Comes (λ updates. updates) (spec.unless_misfit field.now.key name.now
        (spec.function_in present.now.content.now field.now.key field.now.tree)) result }
{
    let function = field.key.as_str();
    match function_in(alloc, present, function, &field.tree)? {
        Some(updates) => Ok(updates),
        None => Err(Stop::Refused(Refusal::bad_input(alloc, function, name)?)),
    }
}

/// What is given for the functions of the model.
fn functions_given(
    alloc: Global,
    name: &str,
    present: &Present<'_>,
    fields: &[Field],
) -> Result<List<Update>, Stop>
    ensures { Comes (λ updates. updates)
        (spec.functions_given name.now present.now.content.now fields.now) result }
{
    let mut updates = Vec::new(alloc);
    for field in fields {
        match function_given(alloc, name, present, field) {
            Ok(others) => append(&mut updates, others)?,
            Err(stop) => return Err(stop),
        }
    }
    Ok(List::from_vec(updates))
}

/// The model of a name among those of some names. Takes no memory.
pub fn stepping<'a>(board: &'a Board, names: &[Text], name: &str) -> Option<&'a Slot>
    ensures { option_map (λ slot. slot.now) result
        ≡ slot_in (only board.now.slots names.now) name.now }
{
    for other in names {
        if name == other.as_str() {
            return board.slot(other);
        }
    }
    None
}

/// What a field gives for the model of its key, which has to step.
fn model_given(
    alloc: Global,
    board: &Board,
    names: &[Text],
    field: &Field,
) -> Result<List<Update>, Stop>
    ensures { Comes (λ updates. updates)
        (spec.model_given (only board.now.slots names.now) field.now) result }
{
    let name = field.key.as_str();
    match stepping(board, names, name) {
        Some(slot) => {
            let present = Present::new(alloc, slot.content.get())?;
            functions_given(alloc, name, &present, field.tree.fields())
        }
        None => Err(Stop::Refused(Refusal::bad_input(alloc, "", name)?)),
    }
}

/// Whether what the environment gives fits the models of these names: fields by model, each with
/// fields by function, a value for a function without arguments, else a list of pairs of arguments
/// and value, where null stands for undef. BadInput of the first field, by model and then by
/// function, that is for another model, for no monitored or shared function, doesn't fit or gives
/// one location twice. Members are those of a model's state.
pub fn all_given(alloc: Global, board: &Board, names: &[Text], inputs: &Port) -> Result<(), Stop>
    ensures { Comes (λ fit. fit)
        (spec.all_given (only board.now.slots names.now) (fields_of inputs.now)) result }
{
    for field in inputs.fields() {
        match model_given(alloc, board, names, field) {
            Ok(_) => {}
            Err(stop) => return Err(stop),
        }
    }
    Ok(())
}

/// What the environment gives for a model: the fields under its name.
fn given_for<'a>(inputs: &'a Port, name: &str) -> &'a [Field]
    ensures { result.now ≡ spec.given_for (fields_of inputs.now) name.now }
{
    let fields = inputs.fields();
    for field in fields {
        if field.key.as_str() == name {
            return field.tree.fields();
        }
    }
    &fields[..0]
}

/// The inputs of a model's step: what the environment gives for it, which fits, and what it takes of
/// what other models offer it. WireUnfit of the first function that is offered a value which doesn't
/// fit, or two values for one location.
pub fn inputs_of(
    alloc: Global,
    name: &str,
    content: &Content,
    inputs: &Port,
    offer: &[Given],
) -> Result<List<Update>, Stop>
    ensures { Comes (λ updates. updates) (spec.inputs_of content.now name.now
        (spec.given_for (fields_of inputs.now) name.now) offer.now) result }
{
    let present = Present::new(alloc, content)?;
    let fields = given_for(inputs, name);
    let own = functions_given(alloc, name, &present, fields)?;
    let others = offered(alloc, name, &present, fields, offer)?;
    let mut updates = own.into_vec();
    append(&mut updates, others)?;
    Ok(List::from_vec(updates))
}
