//! What other models offer a model.
ghost use Rattle.std.specs.Prelude.{◌≡◌, ◌++◌, [], ◌∷◌, slice_get, IfOk};
ghost use Rattle.asm_board.specs.Coming.{Comes, IsRefused};
ghost use Rattle.asm_board.specs.Refusals as refusals;
ghost use Rattle.asm_board.specs.Inputs as spec;

use crate::functions::is_input;
use crate::values::{Present, update_in};
use asm_board::{Refusal, Stop};
use asm_compose::Given;
use asm_portable::Field;
use asm_value::{List, Text, Update};
use std::alloc::{AllocError, Global};

/// Whether the function of a name is a monitored or a shared one.
fn hears(present: &Present<'_>, name: &str) -> bool
    ensures { result ≡ spec.hears present.now.content.now name.now }
{
    let program = present.program();
    match program.function(name) {
        Some(function) => match program.functions.as_slice().get(usize::from(function)) {
            Some(info) => is_input(info.kind),
            None => false,
        },
        None => false,
    }
}

/// Whether the environment gives something for the function of a name.
fn is_given(fields: &[Field], name: &str) -> bool
    ensures { result ≡ spec.is_given fields.now name.now }
{
    for field in fields {
        if field.key.as_str() == name {
            return true;
        }
    }
    false
}

/// Whether the model takes what it is offered: its function hears, and nothing else is given for it.
fn is_taken(present: &Present<'_>, fields: &[Field], given: &Given) -> bool
    ensures { result ≡ spec.is_taken present.now.content.now fields.now given.now }
{
    let name = given.function.as_str();
    hears(present, name) && !is_given(fields, name)
}

/// The update of the model's location to what is offered, if it fits.
fn offered_in(
    alloc: Global,
    present: &Present<'_>,
    function: u16,
    given: &Given,
) -> Result<Option<Update>, AllocError>
    ensures { IfOk result (λ update. update ≡ spec.offered_in present.now.content.now function
        (slice_get present.now.content.now.program.functions function) given.now) }
{
    match present
        .program()
        .functions
        .as_slice()
        .get(usize::from(function))
    {
        Some(info) => update_in(
            alloc,
            present,
            function,
            info,
            given.args.as_slice(),
            &given.value,
        ),
        None => Ok(None),
    }
}

/// The update of the location of a function by its name to what is offered, if it fits.
fn offered_update(
    alloc: Global,
    present: &Present<'_>,
    given: &Given,
) -> Result<Option<Update>, AllocError>
    ensures { IfOk result (λ update. update
        ≡ spec.offered_update present.now.content.now given.now) }
{
    match present.program().function(given.function.as_str()) {
        Some(function) => offered_in(alloc, present, function, given),
        None => Ok(None),
    }
}

/// Whether one of the updates gives the location of another a different value.
fn disagrees(updates: &[Update], update: &Update) -> bool
    ensures { result ≡ spec.disagrees updates.now update.now }
{
    for other in updates {
        if update.location.compare(&other.location).is_eq()
            && !update.value.compare(&other.value).is_eq()
        {
            return true;
        }
    }
    false
}

/// The refusal of what a function of a model is offered.
fn unfit(alloc: Global, function: &Text, name: &str) -> Stop
    ensures { IsRefused (refusals.wire_unfit function.now name.now) result }
{
    match Refusal::wire_unfit(alloc, function.as_str(), name) {
        Ok(refusal) => Stop::Refused(refusal),
        Err(AllocError) => Stop::NoMemory,
    }
}

/// One more update, if it fits and no location gets a second value.
fn with_offered(
    alloc: Global,
    name: &str,
    present: &Present<'_>,
    given: &Given,
    updates: &[Update],
) -> Result<Update, Stop>
    ensures { Comes (λ update. updates.now ++ update ∷ []) (spec.with_offered
        present.now.content.now given.now.function name.now updates.now
        (spec.offered_update present.now.content.now given.now)) result }
{
    match offered_update(alloc, present, given)? {
        Some(update) => {
            if disagrees(updates, &update) {
                return Err(unfit(alloc, &given.function, name));
            }
            Ok(update)
        }
        None => Err(unfit(alloc, &given.function, name)),
    }
}

/// The updates that a model takes of an offer, or WireUnfit of the first function that is offered
/// what doesn't fit or a second value for a location.
pub(crate) fn offered(
    alloc: Global,
    name: &str,
    present: &Present<'_>,
    fields: &[Field],
    offer: &[Given],
) -> Result<List<Update>, Stop>
    ensures { Comes (λ updates. updates)
        (spec.offered present.now.content.now name.now fields.now offer.now) result }
{
    let mut updates = Vec::new(alloc);
    for given in offer {
        if is_taken(present, fields, given) {
            match with_offered(alloc, name, present, given, updates.as_slice()) {
                Ok(update) => match updates.push(update) {
                    Ok(()) => {}
                    Err(error) => return Err(AllocError::from(error).into()),
                },
                Err(stop) => return Err(stop),
            }
        }
    }
    Ok(List::from_vec(updates))
}
