//! The JSON of trees, and trees of JSON.
ghost use Rattle.std.specs.Prelude.{◌≡◌, map, IfOk};
ghost use Rattle.serde_json.specs.Data.{no_members};
ghost use Rattle.serde_json.specs.View.{view, items_view, members_view};
ghost use Rattle.asm_portable.specs.Json as spec;
ghost use Rattle.asm_portable.specs.Json.{data_of, field_data, integer_data, json_text, put_all};

use crate::port::{Field, Port, push_field};
use asm_value::{List, Text};
use serde_json::{Map, Value};
use std::alloc::{AllocError, Global};

/// The compact JSON text of a tree. An integer that is neither one of 64 bits nor below 2^64
/// is a string of its digits.
#[tactic(auto, using(crate::proofs::Floats::no_float))]
pub fn port_text(alloc: Global, port: &Port) -> Result<Text, AllocError>
    ensures { IfOk result (λ text. text ≡ json_text port.now) }
{
    let text = tree_json(alloc, port)?.to_string(alloc)?;
    Ok(Text::from_string(text))
}

fn integer_json(alloc: Global, number: i128) -> Result<Value, AllocError>
    ensures { IfOk result (λ json. view json ≡ integer_data number) }
{
    if let Ok(natural) = u64::try_from(number) {
        return Ok(Value::from(natural));
    }
    if let Ok(short) = i64::try_from(number) {
        return Ok(Value::from(short));
    }
    Ok(Value::String(number.to_string(alloc)?))
}

#[cycle(json)]
#[tactic(auto, using(crate::proofs::JsonLaws::port_steps))]
fn tree_json(alloc: Global, port: &Port) -> Result<Value, AllocError>
    ensures { IfOk result (λ json. view json ≡ data_of port.now) }
{
    match port {
        Port::Null => Ok(Value::Null),
        Port::Bool(truth) => Ok(Value::Bool(*truth)),
        Port::Int(number) => integer_json(alloc, *number),
        Port::Text(text) => Value::try_from_str(alloc, text.as_str()),
        Port::List(trees) => Ok(Value::Array(trees_json(alloc, trees.as_slice())?)),
        Port::Fields(fields) => Ok(Value::Object(members_json(alloc, fields.as_slice())?)),
    }
}

#[cycle(json)]
#[tactic(auto, using(crate::proofs::JsonLaws::port_steps))]
fn trees_json(alloc: Global, trees: &[Port]) -> Result<Vec<Value>, AllocError>
    ensures { IfOk result (λ items. map view items.items ≡ map data_of trees.now) }
{
    let mut items = Vec::new(alloc);
    for tree in trees {
        items.push(tree_json(alloc, tree)?)?;
    }
    Ok(items)
}

#[cycle(json)]
#[tactic(auto, using(crate::proofs::JsonLaws::port_steps))]
fn members_json(alloc: Global, fields: &[Field]) -> Result<Map<String, Value>, AllocError>
    ensures { IfOk result
        (λ members. members_view members.entries ≡ put_all no_members (map field_data fields.now)) }
{
    let mut members = Map::new(alloc);
    for field in fields {
        let member = tree_json(alloc, &field.tree)?;
        serde_json::put(&mut members, alloc, field.key.as_str(), member)?;
    }
    Ok(members)
}

/// The tree of a JSON value in which each number is a whole one of 64 bits; 0 stands in place of
/// any other number.
#[cycle(tree)]
#[tactic(auto, using(crate::proofs::TreeLaws::data_steps))]
pub fn tree_of(alloc: Global, value: &Value) -> Result<Port, AllocError>
    ensures { IfOk result (λ port. port ≡ spec.tree_of (view value.now)) }
{
    match value {
        Value::Null => Ok(Port::Null),
        Value::Bool(truth) => Ok(Port::Bool(*truth)),
        Value::Number(number) => Ok(Port::Int(number.as_i128().unwrap_or(0))),
        Value::String(text) => Ok(Port::Text(Text::from_str(alloc, text.as_str())?)),
        Value::Array(items) => Ok(Port::List(trees_of(alloc, items)?)),
        Value::Object(members) => Ok(Port::Fields(members_of(alloc, members)?)),
    }
}

#[cycle(tree)]
#[tactic(auto, using(crate::proofs::TreeLaws::data_steps))]
fn trees_of(alloc: Global, items: &[Value]) -> Result<List<Port>, AllocError>
    ensures { IfOk result (λ trees. trees ≡ spec.trees_of (items_view items.now)) }
{
    let mut trees = List::new(alloc);
    for item in items {
        trees.push(tree_of(alloc, item)?)?;
    }
    Ok(trees)
}

#[cycle(tree)]
#[tactic(auto, using(crate::proofs::TreeLaws::data_steps))]
fn members_of(alloc: Global, members: &Map<String, Value>) -> Result<List<Field>, AllocError>
    ensures { IfOk result (λ fields. fields ≡ spec.members_of (members_view members.now.entries)) }
{
    let mut fields = List::new(alloc);
    for (key, member) in members.iter() {
        let tree = tree_of(alloc, member)?;
        push_field(alloc, &mut fields, key.as_str(), tree)?;
    }
    Ok(fields)
}
