//! Values as trees.
ghost use Rattle.std.specs.Prelude.{◌≡◌, map, IfOk};
ghost use Rattle.asm_portable.specs.Values as spec;
ghost use Rattle.asm_portable.specs.Values.{port_of};

use crate::port::Port;
use asm_value::{DomainKind, Domains, List, Text, Value};
use std::alloc::{AllocError, Global};

fn integer_port(alloc: Global, number: i128) -> Result<Port, AllocError>
    ensures { IfOk result (λ port. port ≡ spec.integer_port number) }
{
    if i64::try_from(number).is_ok() {
        return Ok(Port::Int(number));
    }
    let digits = number.to_string(alloc)?;
    Ok(Port::Text(Text::from_str(alloc, digits.as_str())?))
}

fn numbered(alloc: Global, domain: &Text, index: u16) -> Result<Text, AllocError>
    ensures { IfOk result (λ name. name ≡ spec.numbered domain.now index) }
{
    let mut name = domain.copy(alloc)?;
    name.push_str("!")?;
    name.push_str(index.to_string(alloc)?.as_str())?;
    Ok(name)
}

pub(crate) fn member_name(
    alloc: Global,
    domains: &Domains,
    domain: u16,
    index: u16,
) -> Result<Text, AllocError>
    ensures { IfOk result (λ name. name ≡ spec.member_name domains.now domain index) }
{
    match domains.as_slice().get(usize::from(domain)) {
        Some(info) => match &info.kind {
            DomainKind::Enum(names) => match names.as_slice().get(usize::from(index)) {
                Some(name) => name.copy(alloc),
                None => Ok(Text::new(alloc)),
            },
            DomainKind::Abstract(names) => match names.as_slice().get(usize::from(index)) {
                Some(name) => name.copy(alloc),
                None => numbered(alloc, &info.name, index),
            },
            DomainKind::Subset(_) => Ok(Text::new(alloc)),
        },
        None => Ok(Text::new(alloc)),
    }
}

/// The tree of a value: undef is null, an integer beyond 64 bits the string of its digits, and a
/// member its name. A tuple, a sequence and a set are lists of their parts.
#[cycle(values)]
#[tactic(auto, using(crate::proofs::ValuesLaws::value_steps))]
pub fn port_of(alloc: Global, domains: &Domains, value: &Value) -> Result<Port, AllocError>
    ensures { IfOk result (λ port. port ≡ port_of domains.now value.now) }
{
    match value {
        Value::Undef => Ok(Port::Null),
        Value::Truth(truth) => Ok(Port::Bool(*truth)),
        Value::Int(number) => integer_port(alloc, *number),
        Value::Chars(text) => Ok(Port::Text(text.copy(alloc)?)),
        Value::Member { domain, index } => {
            Ok(Port::Text(member_name(alloc, domains, *domain, *index)?))
        }
        Value::Tuple(parts) | Value::Seq(parts) | Value::Set(parts) => {
            Ok(Port::List(ports_of(alloc, domains, parts.as_slice())?))
        }
    }
}

/// The trees of values, in their order.
#[cycle(values)]
#[tactic(auto, using(crate::proofs::ValuesLaws::value_steps))]
pub fn ports_of(
    alloc: Global,
    domains: &Domains,
    values: &[Value],
) -> Result<List<Port>, AllocError>
    ensures { IfOk result (λ trees. trees ≡ map (port_of domains.now) values.now) }
{
    let mut trees = List::new(alloc);
    for value in values {
        trees.push(port_of(alloc, domains, value)?)?;
    }
    Ok(trees)
}
