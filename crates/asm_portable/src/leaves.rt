//! Values of domains without parts, from trees.
ghost use Rattle.std.specs.Prelude.{◌≡◌, true, min, find, IfOk};
ghost use Rattle.std.specs.List.{range_with_len};
ghost use Rattle.std.specs.Str.{bytes_eq};
ghost use Rattle.asm_value.specs.Domain as fitting;
ghost use Rattle.asm_value.specs.Members as members;
ghost use Rattle.asm_portable.specs.Values.{member_name as name_of};
ghost use Rattle.asm_portable.specs.Reading as spec;
ghost use Rattle.asm_portable.specs.Reads.{Reads};

use crate::port::Port;
use crate::reading::{PortableRefusal, misfit};
use crate::values::member_name;
use asm_value::{DomainKind, Domains, Live, Text, Value};
use std::alloc::{AllocError, Global};

// ---- truth values and strings

/// A truth value.
#[tactic(auto, using(crate::proofs::PortLaws::tree_steps))]
pub(crate) fn truth_in(alloc: Global, port: &Port) -> Result<Value, PortableRefusal>
    ensures { Reads result (spec.truth_read port.now) }
{
    match port {
        Port::Bool(truth) => Ok(Value::Truth(*truth)),
        Port::Null | Port::Int(_) | Port::Text(_) | Port::List(_) | Port::Fields(_) => {
            Err(misfit(alloc))
        }
    }
}

/// A string of at most 1,024 bytes.
pub(crate) fn string_in(alloc: Global, port: &Port) -> Result<Value, PortableRefusal>
    ensures { Reads result (spec.string_read port.now) }
{
    match port.as_text() {
        Some(text) => {
            if text.len() <= 1024 {
                Ok(Value::Chars(Text::from_str(alloc, text)?))
            } else {
                Err(misfit(alloc))
            }
        }
        None => Err(misfit(alloc)),
    }
}

// ---- integers

/// The integer that is written so.
fn integer_written(alloc: Global, digits: &str) -> Result<Option<i128>, AllocError>
    ensures { IfOk result (λ number. number ≡ spec.integer_written digits.now) }
{
    match i128::from_str_radix(digits, 10) {
        Ok(number) => {
            let written = number.to_string(alloc)?;
            Ok((written.as_str() == digits).then_some(number))
        }
        Err(_) => Ok(None),
    }
}

/// The integer for which a tree stands, by itself or by its digits.
#[tactic(auto, using(crate::proofs::PortLaws::tree_steps))]
fn integer_of(alloc: Global, port: &Port) -> Result<Option<i128>, AllocError>
    ensures { IfOk result (λ number. number ≡ spec.integer_of port.now) }
{
    match port {
        Port::Int(number) => Ok(Some(*number)),
        Port::Text(digits) => integer_written(alloc, digits.as_str()),
        Port::Null | Port::Bool(_) | Port::List(_) | Port::Fields(_) => Ok(None),
    }
}

/// Any integer.
pub(crate) fn integer_in(alloc: Global, port: &Port) -> Result<Value, PortableRefusal>
    ensures { Reads result (spec.integer_read (λ n. true) port.now) }
{
    match integer_of(alloc, port)? {
        Some(number) => Ok(Value::Int(number)),
        None => Err(misfit(alloc)),
    }
}

/// An integer from 0 on.
pub(crate) fn natural_in(alloc: Global, port: &Port) -> Result<Value, PortableRefusal>
    ensures { Reads result (spec.integer_read fitting.is_natural port.now) }
{
    match integer_of(alloc, port)? {
        Some(number) => {
            if number >= 0 {
                Ok(Value::Int(number))
            } else {
                Err(misfit(alloc))
            }
        }
        None => Err(misfit(alloc)),
    }
}

/// Whether the declared domain is a subset with this integer.
fn is_in_subset(domains: &Domains, domain: u16, number: i128) -> bool
    ensures { result ≡ fitting.is_in_subset domains.now domain number }
{
    match domains.as_slice().get(usize::from(domain)) {
        Some(info) => match &info.kind {
            DomainKind::Subset(numbers) => numbers.as_slice().contains(&number),
            DomainKind::Enum(_) | DomainKind::Abstract(_) => false,
        },
        None => false,
    }
}

/// An integer of the declared subset.
pub(crate) fn subset_in(
    alloc: Global,
    domains: &Domains,
    domain: u16,
    port: &Port,
) -> Result<Value, PortableRefusal>
    ensures { Reads result
        (spec.integer_read (fitting.is_in_subset domains.now domain) port.now) }
{
    match integer_of(alloc, port)? {
        Some(number) => {
            if is_in_subset(domains, domain, number) {
                Ok(Value::Int(number))
            } else {
                Err(misfit(alloc))
            }
        }
        None => Err(misfit(alloc)),
    }
}

// ---- members

/// Whether the member of the declared domain with this index goes by the name.
fn goes_by(
    alloc: Global,
    domains: &Domains,
    domain: u16,
    index: u16,
    name: &str,
) -> Result<bool, AllocError>
    ensures { IfOk result (λ is. is ≡ bytes_eq name.now (name_of domains.now domain index)) }
{
    let own = member_name(alloc, domains, domain, index)?;
    Ok(name == own.as_str())
}

/// How many literals the declared domain has.
fn literal_count(domains: &Domains, domain: u16) -> usize
    ensures { result ≡ members.literal_count domains.now domain }
{
    match domains.as_slice().get(usize::from(domain)) {
        Some(info) => match &info.kind {
            DomainKind::Enum(names) => names.len(),
            DomainKind::Abstract(_) | DomainKind::Subset(_) => 0,
        },
        None => 0,
    }
}

/// The first of so many literals that goes by the name.
#[tactic(auto, using(crate::proofs::Named::first_named_more))]
fn first_literal(
    alloc: Global,
    domains: &Domains,
    domain: u16,
    count: u16,
    name: &str,
) -> Result<Option<u16>, AllocError>
    ensures { IfOk result (λ index. index
        ≡ spec.first_named domains.now domain (range_with_len 0 count) name.now) }
{
    for index in 0..count {
        if goes_by(alloc, domains, domain, index, name)? {
            return Ok(Some(index));
        }
    }
    Ok(None)
}

/// The first of the members with these indexes that goes by the name.
fn first_member(
    alloc: Global,
    domains: &Domains,
    domain: u16,
    indexes: &[u16],
    name: &str,
) -> Result<Option<u16>, AllocError>
    ensures { IfOk result (λ index. index
        ≡ spec.first_named domains.now domain indexes.now name.now) }
{
    for index in indexes {
        if goes_by(alloc, domains, domain, *index, name)? {
            return Ok(Some(*index));
        }
    }
    Ok(None)
}

/// The literal that goes by the name.
fn literal_named(
    alloc: Global,
    domains: &Domains,
    domain: u16,
    name: &str,
) -> Result<Option<u16>, AllocError>
    ensures { IfOk result (λ index. index
        ≡ spec.first_named domains.now domain (spec.literals_in domains.now domain) name.now) }
{
    let count = literal_count(domains, domain).min(65_535);
    first_literal(
        alloc,
        domains,
        domain,
        u16::try_from(count).unwrap_or(u16::MAX),
        name,
    )
}

/// The member that goes by the name, among those that the domain has.
fn live_named(
    alloc: Global,
    domains: &Domains,
    domain: u16,
    live: &Live,
    name: &str,
) -> Result<Option<u16>, AllocError>
    ensures { IfOk result (λ index. index
        ≡ spec.first_named domains.now domain (members.live_indexes live.now domain) name.now) }
{
    match live.members.as_slice().get(usize::from(domain)) {
        Some(indexes) => first_member(alloc, domains, domain, indexes.as_slice(), name),
        None => Ok(None),
    }
}

/// The member with the index, if there is one.
fn member_at(alloc: Global, domain: u16, index: Option<u16>) -> Result<Value, PortableRefusal>
    ensures { Reads result (spec.member_if domain index) }
{
    match index {
        Some(index) => Ok(Value::Member { domain, index }),
        None => Err(misfit(alloc)),
    }
}

/// A literal of the declared enumeration, by its name.
pub(crate) fn literal_in(
    alloc: Global,
    domains: &Domains,
    domain: u16,
    port: &Port,
) -> Result<Value, PortableRefusal>
    ensures { Reads result (spec.member_read
        domains.now domain (spec.literals_in domains.now domain) port.now) }
{
    match port.as_text() {
        Some(name) => {
            let index = literal_named(alloc, domains, domain, name)?;
            member_at(alloc, domain, index)
        }
        None => Err(misfit(alloc)),
    }
}

/// A member that the declared abstract domain has, by its name.
pub(crate) fn live_in(
    alloc: Global,
    domains: &Domains,
    domain: u16,
    live: &Live,
    port: &Port,
) -> Result<Value, PortableRefusal>
    ensures { Reads result (spec.member_read
        domains.now domain (members.live_indexes live.now domain) port.now) }
{
    match port.as_text() {
        Some(name) => {
            let index = live_named(alloc, domains, domain, live, name)?;
            member_at(alloc, domain, index)
        }
        None => Err(misfit(alloc)),
    }
}
