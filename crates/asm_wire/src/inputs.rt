//! The inputs of a step.
ghost use Rattle.std.specs.Prelude.{◌≡◌};
ghost use Rattle.serde_json.specs.View.{view, members_view};
ghost use Rattle.asm_wire.specs.Requests as spec;

use asm_portable::has_float;
use serde_json::{Map, Value};

/// Whether a value is an object of objects in which each number is a whole number of 64 bits.
pub(crate) fn is_inputs(value: &Value) -> bool
    ensures { result ≡ spec.is_inputs (view value.now) }
{
    match value.as_object() {
        None => false,
        Some(members) => are_objects(members),
    }
}

#[tactic(auto, using(crate::proofs::Members::members_by_values))]
fn are_objects(members: &Map<String, Value>) -> bool
    ensures { result ≡ spec.are_objects (members_view members.now.entries) }
{
    for member in members.values() {
        if !member.is_object() || has_float(member) {
            return false;
        }
    }
    true
}
