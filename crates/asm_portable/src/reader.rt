//! Trees from the bytes of JSON.
ghost use Rattle.std.specs.Prelude.{◌≡◌};
ghost use Rattle.serde_json.specs.View.{view, items_view, members_view};
ghost use Rattle.serde_json.specs.Written as written;
ghost use Rattle.asm_portable.specs.ReadPort.{ReadsPort, ReadsValue};

use crate::json::tree_of;
use crate::port::Port;
use serde_json::{Map, Value};
use std::alloc::{AllocError, Global};

/// Why bytes stand for no tree.
#[derive(Clone, Copy, Debug, PartialEq, Eq)]
pub enum PortRefusal {
    /// They aren't UTF-8, or aren't JSON.
    BadJson,
    /// They are JSON, and some number of it isn't a whole one of 64 bits. A value that another
    /// one of the same key replaces doesn't count.
    HasFloat,
    /// Memory ran out. It says nothing of the bytes.
    NoMemory,
}

impl From<AllocError> for PortRefusal {
    ghost use Rattle.std.specs.Prelude.{◌≡◌};
    ghost use Rattle.asm_portable.specs.declared.reader.PortRefusal.TheVariants.{NoMemory};

    ghost from_gives = { λ _ e. e ≡ NoMemory };

    fn from(_error: AllocError) -> PortRefusal {
        PortRefusal::NoMemory
    }
}

/// Whether some number of a JSON value isn't a whole one of 64 bits. Takes no memory.
#[cycle(float)]
pub fn has_float(value: &Value) -> bool
    ensures { result ≡ written.has_float (view value.now) }
{
    match value {
        Value::Null | Value::Bool(_) | Value::String(_) => false,
        Value::Number(number) => number.is_f64(),
        Value::Array(items) => items_have_float(items),
        Value::Object(members) => members_have_float(members),
    }
}

#[cycle(float)]
fn items_have_float(items: &[Value]) -> bool
    ensures { result ≡ written.items_have_float (items_view items.now) }
{
    for item in items {
        if has_float(item) {
            return true;
        }
    }
    false
}

#[cycle(float)]
#[tactic(auto, using(crate::proofs::MemberValues::members_have_float_by_values))]
fn members_have_float(members: &Map<String, Value>) -> bool
    ensures { result ≡ written.members_have_float (members_view members.now.entries) }
{
    for member in members.values() {
        if has_float(member) {
            return true;
        }
    }
    false
}

/// The tree of a JSON value, where each number of it is whole.
fn whole_tree(alloc: Global, value: &Value) -> Result<Port, PortRefusal>
    ensures { ReadsValue (view value.now) result }
{
    if has_float(value) {
        return Err(PortRefusal::HasFloat);
    }
    Ok(tree_of(alloc, value)?)
}

/// The tree of some bytes, as `serde_json` reads them: of equal keys the last counts.
pub fn read_port(alloc: Global, bytes: &[u8]) -> Result<Port, PortRefusal>
    ensures { ReadsPort bytes.now result }
{
    match Value::from_slice(alloc, bytes) {
        Ok(value) => whole_tree(alloc, &value),
        Err(error) if error.is_memory() => Err(PortRefusal::NoMemory),
        Err(_) => Err(PortRefusal::BadJson),
    }
}
