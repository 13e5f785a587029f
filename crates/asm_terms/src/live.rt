//! The members of abstract domains after an update.
ghost use Rattle.std.specs.Prelude.{◌≡◌, ◌++◌, filter, nat_lt, true, OnOk, IfOk};
ghost use Rattle.asm_value.specs.Living.{only_index, said_at, is_abstract_kind};
ghost use Rattle.asm_terms.specs.Lives as spec;

use crate::results::is_true;
use asm_value::{DomainInfo, DomainKind, Domains, List, Live, Location, Subject, Update, Value};
use std::alloc::{AllocError, Global};

/// The index of the only argument, where it is a member of the domain with this number.
fn only_index(domain: usize, args: &[Value]) -> Option<u16>
    ensures { result ≡ only_index domain args.now }
{
    match args {
        [arg] => match arg.as_member() {
            Some((of, index)) => (usize::from(of) == domain).then_some(index),
            None => None,
        },
        [] | [_, _, ..] => None,
    }
}

/// The member of the domain that the location is about.
fn member_at(domain: usize, location: &Location) -> Option<u16>
    ensures { result ≡ said_at domain location.now.subject true location.now.args }
{
    match location.subject {
        Subject::Function(_) => None,
        Subject::Domain(of) => {
            if usize::from(of) == domain {
                return only_index(domain, location.args.as_slice());
            }
            None
        }
    }
}

fn is_abstract(kind: &DomainKind) -> bool
    ensures { result ≡ is_abstract_kind kind.now }
{
    match kind {
        DomainKind::Abstract(_) => true,
        DomainKind::Enum(_) | DomainKind::Subset(_) => false,
    }
}

/// Appends the indexes that are below this one.
fn add_below(indexes: &[u16], index: u16, into: &mut List<u16>) -> Result<(), AllocError>
    ensures { OnOk result (into.new ≡ into.old ++ filter (λ i. nat_lt i index) indexes.now) }
{
    for other in indexes {
        if *other < index {
            into.push(*other)?;
        }
    }
    Ok(())
}

/// Appends the indexes that are above this one.
fn add_above(indexes: &[u16], index: u16, into: &mut List<u16>) -> Result<(), AllocError>
    ensures { OnOk result (into.new ≡ into.old ++ filter (λ i. nat_lt index i) indexes.now) }
{
    for other in indexes {
        if index < *other {
            into.push(*other)?;
        }
    }
    Ok(())
}

/// The indexes with this one in its place, or without it.
fn placed(
    alloc: Global,
    indexes: &[u16],
    index: u16,
    present: bool,
) -> Result<List<u16>, AllocError>
    ensures { IfOk result (λ list. list ≡ spec.placed index present indexes.now) }
{
    let mut list = List::new(alloc);
    add_below(indexes, index, &mut list)?;
    if present {
        list.push(index)?;
    }
    add_above(indexes, index, &mut list)?;
    Ok(list)
}

fn copied(alloc: Global, indexes: &[u16]) -> Result<List<u16>, AllocError>
    ensures { IfOk result (λ list. list ≡ indexes.now) }
{
    let mut list = List::new(alloc);
    for index in indexes {
        list.push(*index)?;
    }
    Ok(list)
}

/// The indexes of the domain's members after the update, where they were these.
fn indexes_after(
    alloc: Global,
    domain: usize,
    kind: &DomainKind,
    indexes: &[u16],
    update: &Update,
) -> Result<List<u16>, AllocError>
    ensures { IfOk result (λ list. list ≡ spec.after update.now domain kind.now indexes.now) }
{
    if is_abstract(kind) {
        if let Some(index) = member_at(domain, &update.location) {
            return placed(alloc, indexes, index, is_true(&update.value));
        }
    }
    copied(alloc, indexes)
}

/// The indexes of the members that the declared domain has.
fn indexes_of(live: &Live, domain: usize) -> &[u16]
    ensures { result.now ≡ spec.live_indexes live.now domain }
{
    match live.members.as_slice().get(domain) {
        Some(indexes) => indexes.as_slice(),
        None => &[],
    }
}

/// The members after an update, where they were these. `AllocError` is want of memory.
pub fn live_after(
    alloc: Global,
    domains: &Domains,
    live: &Live,
    update: &Update,
) -> Result<Live, AllocError>
    ensures { IfOk result (λ after. after ≡ spec.live_after update.now domains.now live.now) }
{
    let mut members = List::new(alloc);
    for (at, info) in domains.as_slice().iter().enumerate() {
        members.push(indexes_after(alloc, at, &info.kind, indexes_of(live, at), update)?)?;
    }
    Ok(Live { members })
}

/// The same members in memory of their own. `AllocError` is want of memory.
pub fn copy_of(alloc: Global, live: &Live) -> Result<Live, AllocError>
    ensures { IfOk result (λ same. same ≡ live.now) }
{
    let mut members = List::new(alloc);
    for indexes in live.members.as_slice() {
        members.push(copied(alloc, indexes.as_slice())?)?;
    }
    Ok(Live { members })
}
