//! Lines as calls.
ghost use Rattle.std.specs.Prelude.{◌≡◌, Ok, IfOk, IfErr};
ghost use Rattle.serde_json.specs.View.{view};
ghost use Rattle.asm_wire.specs.Refused.{refusal_in, IsRefused, Reports};
ghost use Rattle.asm_wire.specs.Requests as spec;
ghost use Rattle.asm_wire.specs.Requests.{Asks};
ghost use Rattle.asm_board.specs.declared.call.Call as calls;
ghost use Rattle.asm_board.specs.Refusals.{Tried};

use crate::fields::{
    identifier_in, inputs_in, number_in, only, optional_inputs, optional_natural, optional_pick,
    pick_in, positive_in, since_in, string_in,
};
use crate::refusal::WireRefusal;
use asm_board::Call;
use asm_value::Text;
use serde_json::Value;
use std::alloc::Global;

/// The most steps of a run.
const MOST_STEPS: u64 = 64;

/// The most entries of a log.
const MOST_ENTRIES: u64 = 16;

fn run_in(alloc: Global, request: &Value) -> Result<Call, WireRefusal>
    ensures { Reports (spec.run_in (view request.now)) result }
{
    let text = string_in(alloc, "text", request)?;
    let steps = number_in(alloc, MOST_STEPS, "steps", request)?;
    optional_pick(alloc, "pick", request)?;
    optional_natural(alloc, "since", request)?;
    only(alloc, &["op", "pick", "since", "steps", "text"], request)?;
    let text = Text::from_str(alloc, text)?;
    let pick = pick_in("pick", request);
    let since = since_in(request);
    Ok(Call::Run {
        text,
        steps,
        pick,
        since,
    })
}

fn load_in(alloc: Global, request: &Value) -> Result<Call, WireRefusal>
    ensures { Reports (spec.load_in (view request.now)) result }
{
    let name = string_in(alloc, "name", request)?;
    let text = string_in(alloc, "text", request)?;
    only(alloc, &["name", "op", "text"], request)?;
    let name = Text::from_str(alloc, name)?;
    let text = Text::from_str(alloc, text)?;
    Ok(Call::Load { name, text })
}

fn step_in(alloc: Global, request: &Value) -> Result<Call, WireRefusal>
    ensures { Reports (spec.step_in (view request.now)) result }
{
    let formula = string_in(alloc, "formula", request)?;
    optional_inputs(alloc, "inputs", request)?;
    optional_pick(alloc, "pick", request)?;
    only(alloc, &["formula", "inputs", "op", "pick"], request)?;
    let formula = Text::from_str(alloc, formula)?;
    let inputs = inputs_in(alloc, "inputs", request)?;
    let pick = pick_in("pick", request);
    Ok(Call::Step {
        formula,
        inputs,
        pick,
    })
}

fn state_in(alloc: Global, request: &Value) -> Result<Call, WireRefusal>
    ensures { Reports (spec.state_in (view request.now)) result }
{
    let name = string_in(alloc, "name", request)?;
    optional_natural(alloc, "since", request)?;
    only(alloc, &["name", "op", "since"], request)?;
    let name = Text::from_str(alloc, name)?;
    let since = since_in(request);
    Ok(Call::State { name, since })
}

fn value_in(alloc: Global, request: &Value) -> Result<Call, WireRefusal>
    ensures { Reports (spec.value_in (view request.now)) result }
{
    let name = string_in(alloc, "name", request)?;
    let term = string_in(alloc, "term", request)?;
    optional_natural(alloc, "since", request)?;
    only(alloc, &["name", "op", "since", "term"], request)?;
    let name = Text::from_str(alloc, name)?;
    let term = Text::from_str(alloc, term)?;
    let since = since_in(request);
    Ok(Call::Value { name, term, since })
}

fn text_in(alloc: Global, request: &Value) -> Result<Call, WireRefusal>
    ensures { Reports (spec.text_in (view request.now)) result }
{
    let name = string_in(alloc, "name", request)?;
    optional_natural(alloc, "since", request)?;
    only(alloc, &["name", "op", "since"], request)?;
    let name = Text::from_str(alloc, name)?;
    let since = since_in(request);
    Ok(Call::ShowText { name, since })
}

fn models_in(alloc: Global, request: &Value) -> Result<Call, WireRefusal>
    ensures { Reports (spec.models_in (view request.now)) result }
{
    optional_natural(alloc, "since", request)?;
    only(alloc, &["op", "since"], request)?;
    let since = since_in(request);
    Ok(Call::Models { since })
}

fn log_in(alloc: Global, request: &Value) -> Result<Call, WireRefusal>
    ensures { Reports (spec.log_in (view request.now)) result }
{
    let from = positive_in(alloc, "from", request)?;
    let count = number_in(alloc, MOST_ENTRIES, "count", request)?;
    optional_natural(alloc, "since", request)?;
    only(alloc, &["count", "from", "op", "since"], request)?;
    let since = since_in(request);
    Ok(Call::Log { from, count, since })
}

fn add_invariant_in(alloc: Global, request: &Value) -> Result<Call, WireRefusal>
    ensures { Reports (spec.add_invariant_in (view request.now)) result }
{
    let name = string_in(alloc, "name", request)?;
    let inv = identifier_in(alloc, "inv", request)?;
    let term = string_in(alloc, "term", request)?;
    only(alloc, &["inv", "name", "op", "term"], request)?;
    let name = Text::from_str(alloc, name)?;
    let inv = Text::from_str(alloc, inv)?;
    let term = Text::from_str(alloc, term)?;
    Ok(Call::AddInvariant { name, inv, term })
}

fn drop_invariant_in(alloc: Global, request: &Value) -> Result<Call, WireRefusal>
    ensures { Reports (spec.drop_invariant_in (view request.now)) result }
{
    let name = string_in(alloc, "name", request)?;
    let inv = identifier_in(alloc, "inv", request)?;
    only(alloc, &["inv", "name", "op"], request)?;
    let name = Text::from_str(alloc, name)?;
    let inv = Text::from_str(alloc, inv)?;
    Ok(Call::DropInvariant { name, inv })
}

fn rollback_in(alloc: Global, request: &Value) -> Result<Call, WireRefusal>
    ensures { Reports (spec.rollback_in (view request.now)) result }
{
    let name = string_in(alloc, "name", request)?;
    let to = number_in(alloc, u64::MAX, "to", request)?;
    only(alloc, &["name", "op", "to"], request)?;
    let name = Text::from_str(alloc, name)?;
    Ok(Call::Rollback { name, to })
}

/// Why no other operation is built.
fn other_in(alloc: Global, op: &str) -> Result<Call, WireRefusal>
    ensures { Reports (spec.other_in op.now) result }
{
    if op == "swap" || op == "unload" {
        return Err(WireRefusal::Unbuilt);
    }
    Err(WireRefusal::BadRequest(Text::from_str(alloc, "op")?))
}

fn call_by(alloc: Global, op: &str, request: &Value) -> Result<Call, WireRefusal>
    ensures { Reports (spec.call_by op.now (view request.now)) result }
{
    match op {
        "run" => run_in(alloc, request),
        "load" => load_in(alloc, request),
        "step" => step_in(alloc, request),
        "state" => state_in(alloc, request),
        "value" => value_in(alloc, request),
        "text" => text_in(alloc, request),
        "models" => models_in(alloc, request),
        "log" => log_in(alloc, request),
        "addinv" => add_invariant_in(alloc, request),
        "dropinv" => drop_invariant_in(alloc, request),
        "rollback" => rollback_in(alloc, request),
        _ => other_in(alloc, op),
    }
}

fn call_in(alloc: Global, request: &Value) -> Result<Call, WireRefusal>
    ensures { Reports (spec.call_in (view request.now)) result }
{
    if !request.is_object() {
        return Err(WireRefusal::BadRequest(Text::new(alloc)));
    }
    let op = string_in(alloc, "op", request)?;
    call_by(alloc, op, request)
}

fn call_of(alloc: Global, line: &[u8]) -> Result<Call, WireRefusal>
    ensures asked { IfOk result (λ call. Asks line.now (Ok call)) }
    ensures refused { IfErr result (λ why. IsRefused line.now (refusal_in why)) }
{
    match Value::from_slice(alloc, line) {
        Ok(value) => call_in(alloc, &value),
        Err(error) if error.is_memory() => Err(WireRefusal::NoMemory),
        Err(_) => Err(WireRefusal::BadJson),
    }
}

/// The call that a line asks for, or the first reason why it asks for none: it isn't JSON; it is no
/// object; its operation is missing or unknown; a field, in the order of the operation's fields, is
/// missing or unfit; it has another field, the least of which is reported; or it isn't built.
pub fn read_request(alloc: Global, line: &[u8]) -> Result<Call, WireRefusal>
    ensures asked { IfOk result (λ call. Asks line.now (Ok call)) }
    ensures refused { IfErr result (λ why. IsRefused line.now (refusal_in why)) }

    // whatever the line asks for is what is reported, unless memory runs out
    ensures reported { (asked : Tried calls.Call) → Asks line.now asked → Reports asked result }
{
    call_of(alloc, line)
}
