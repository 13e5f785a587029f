//! The fields of a request, each with its test.
ghost use Rattle.std.specs.Prelude.{◌≡◌, map, option_map, IfOk};
ghost use Rattle.serde_json.specs.View.{view, members_view};
ghost use Rattle.asm_board.specs.Refusals.{needs, bad_request};
ghost use Rattle.asm_wire.specs.Refused.{Reports, ReportsAs};
ghost use Rattle.asm_wire.specs.Requests as spec;

use crate::inputs::is_inputs;
use crate::refusal::WireRefusal;
use crate::words::is_among;
use asm_board::is_identifier;
use asm_portable::{Port, tree_of};
use asm_value::{List, Text};
use serde_json::{Map, Value};
use std::alloc::{AllocError, Global};

/// Refuses a field that isn't fit.
fn needs_field(alloc: Global, fits: bool, key: &str) -> Result<(), WireRefusal>
    ensures { Reports (needs fits (bad_request key.now)) result }
{
    if fits {
        return Ok(());
    }
    Err(WireRefusal::BadRequest(Text::from_str(alloc, key)?))
}

/// A string that has to be there.
pub(crate) fn string_in<'a>(
    alloc: Global,
    key: &str,
    request: &'a Value,
) -> Result<&'a str, WireRefusal>
    ensures { ReportsAs (λ s. s.now) (spec.string_in key.now (view request.now)) result }
{
    match request.get(key).and_then(Value::as_str) {
        Some(text) => Ok(text),
        None => Err(WireRefusal::BadRequest(Text::from_str(alloc, key)?)),
    }
}

/// An identifier, which has to be there.
pub(crate) fn identifier_in<'a>(
    alloc: Global,
    key: &str,
    request: &'a Value,
) -> Result<&'a str, WireRefusal>
    ensures { ReportsAs (λ s. s.now) (spec.identifier_in key.now (view request.now)) result }
{
    let name = string_in(alloc, key, request)?;
    if is_identifier(name) {
        return Ok(name);
    }
    Err(WireRefusal::BadRequest(Text::from_str(alloc, key)?))
}

/// A whole number from 0 to this, which has to be there.
pub(crate) fn number_in(
    alloc: Global,
    most: u64,
    key: &str,
    request: &Value,
) -> Result<u64, WireRefusal>
    ensures { Reports (spec.number_in most key.now (view request.now)) result }
{
    match request.get(key).and_then(Value::as_u64) {
        Some(number) if number <= most => Ok(number),
        _ => Err(WireRefusal::BadRequest(Text::from_str(alloc, key)?)),
    }
}

/// A whole number from 1 to 2^64 - 1, which has to be there.
pub(crate) fn positive_in(alloc: Global, key: &str, request: &Value) -> Result<u64, WireRefusal>
    ensures { Reports (spec.positive_in key.now (view request.now)) result }
{
    match request.get(key).and_then(Value::as_u64) {
        Some(number) if number >= 1 => Ok(number),
        _ => Err(WireRefusal::BadRequest(Text::from_str(alloc, key)?)),
    }
}

/// A whole number from 0 to 2^64 - 1 that may be there.
pub(crate) fn optional_natural(alloc: Global, key: &str, request: &Value) -> Result<(), WireRefusal>
    ensures { Reports (spec.optional spec.is_natural key.now (view request.now)) result }
{
    match request.get(key) {
        None => Ok(()),
        Some(value) => needs_field(alloc, value.is_u64(), key),
    }
}

fn is_pick(value: &Value) -> bool
    ensures { result ≡ spec.is_pick (view value.now) }
{
    match value {
        Value::Null => true,
        Value::Number(number) => number.is_u64(),
        Value::Bool(_) | Value::String(_) | Value::Array(_) | Value::Object(_) => false,
    }
}

/// Null or such a number, which may be there.
pub(crate) fn optional_pick(alloc: Global, key: &str, request: &Value) -> Result<(), WireRefusal>
    ensures { Reports (spec.optional spec.is_pick key.now (view request.now)) result }
{
    match request.get(key) {
        None => Ok(()),
        Some(value) => needs_field(alloc, is_pick(value), key),
    }
}

/// The number of a pick, None where it is null or isn't there.
pub(crate) fn pick_in(key: &str, request: &Value) -> Option<u64>
    ensures { result ≡ spec.pick_in key.now (view request.now) }
{
    request.get(key).and_then(Value::as_u64)
}

/// The number of the field `since`, 0 where it isn't there.
pub(crate) fn since_in(request: &Value) -> u64
    ensures { result ≡ spec.since_in (view request.now) }
{
    match request.get("since").and_then(Value::as_u64) {
        Some(since) => since,
        None => 0,
    }
}

/// The inputs of a step, which may be there.
pub(crate) fn optional_inputs(alloc: Global, key: &str, request: &Value) -> Result<(), WireRefusal>
    ensures { Reports (spec.optional spec.is_inputs key.now (view request.now)) result }
{
    match request.get(key) {
        None => Ok(()),
        Some(value) => needs_field(alloc, is_inputs(value), key),
    }
}

/// The tree of the inputs of a step, empty fields where they aren't there.
pub(crate) fn inputs_in(alloc: Global, key: &str, request: &Value) -> Result<Port, AllocError>
    ensures { IfOk result (λ inputs. inputs ≡ spec.inputs_in key.now (view request.now)) }
{
    match request.get(key) {
        Some(inputs) => tree_of(alloc, inputs),
        None => Ok(Port::Fields(List::new(alloc))),
    }
}

/// The first key that isn't among these.
fn first_other<'a>(keys: &[&str], members: &'a Map<String, Value>) -> Option<&'a str>
    ensures { option_map (λ key. key.now) result
        ≡ spec.first_other (map (λ k. k.now) keys.now) (members_view members.now.entries) }
{
    for (key, _member) in members.iter() {
        if !is_among(keys, key.as_str()) {
            return Some(key.as_str());
        }
    }
    None
}

/// Refuses the least field that isn't among these.
pub(crate) fn only(alloc: Global, keys: &[&str], request: &Value) -> Result<(), WireRefusal>
    ensures { Reports (spec.only (map (λ k. k.now) keys.now) (view request.now)) result }
{
    match request
        .as_object()
        .and_then(|members| first_other(keys, members))
    {
        None => Ok(()),
        Some(key) => Err(WireRefusal::BadRequest(Text::from_str(alloc, key)?)),
    }
}
