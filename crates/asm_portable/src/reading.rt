//! Values from trees.
ghost use Rattle.std.specs.Prelude.{◌≡◌, [], ◌∷◌, map, IfOk};
ghost use Rattle.asm_value.specs.declared.value.Value.{Value as Item};
ghost use Rattle.asm_portable.specs.Reading as spec;
ghost use Rattle.asm_portable.specs.Reading.{Read};
ghost use Rattle.asm_portable.specs.Reads.{IsWhy, Reads};

use crate::leaves::{integer_in, literal_in, live_in, natural_in, string_in, subset_in, truth_in};
use crate::port::Port;
use asm_operations::{Applied, sequence_of, set_of, tuple_of};
use asm_value::{Domain, Domains, List, Live, Value};
use std::alloc::{AllocError, Global};

/// Why a tree isn't read.
#[derive(Debug, Drop)]
pub enum PortableRefusal {
    /// It stands for no value of the domain: the positions, from 0 on, that lead down to the first
    /// part that doesn't fit. A part comes before the tree that holds it.
    Misfit(List<usize>),
    /// Want of memory.
    NoMemory,
}

impl From<AllocError> for PortableRefusal {
    ghost use Rattle.std.specs.Prelude.{◌≡◌};
    ghost use Rattle.asm_portable.specs.declared.reading.PortableRefusal.TheVariants.{NoMemory};

    ghost from_gives = { λ _ e. e ≡ NoMemory };

    fn from(_error: AllocError) -> PortableRefusal {
        PortableRefusal::NoMemory
    }
}

/// The refusal of a tree that doesn't fit itself.
pub(crate) fn misfit(alloc: Global) -> PortableRefusal
    ensures { result ≡ PortableRefusal.Misfit [] }
{
    PortableRefusal::Misfit(List::new(alloc))
}

/// A position in front of others.
fn in_front(alloc: Global, at: usize, path: List<usize>) -> Result<List<usize>, AllocError>
    ensures { IfOk result (λ whole. whole ≡ at ∷ path) }
{
    let mut whole = List::only(alloc, at)?;
    for position in path.as_slice() {
        whole.push(*position)?;
    }
    Ok(whole)
}

/// The refusal of a tree, by that of its part at this position.
fn at_part(alloc: Global, at: usize, why: PortableRefusal) -> PortableRefusal
    ensures { (read : Read Item) → IsWhy read why → IsWhy (spec.of_part at read) result }
{
    match why {
        PortableRefusal::Misfit(path) => match in_front(alloc, at, path) {
            Ok(whole) => PortableRefusal::Misfit(whole),
            Err(_) => PortableRefusal::NoMemory,
        },
        PortableRefusal::NoMemory => PortableRefusal::NoMemory,
    }
}

/// A value that keeps the limits of values.
fn kept(alloc: Global, applied: Applied) -> Result<Value, PortableRefusal>
    ensures { Reads result (spec.kept applied) }
{
    match applied {
        Applied::Value(value) => Ok(value),
        Applied::Overflow | Applied::TooLarge => Err(misfit(alloc)),
    }
}

/// The value of the domain for which a tree stands, at the members that the abstract domains have,
/// `live`: as `port_of` writes values, but an integer may be a string of its digits also where it
/// fits 64 bits, and the items of a set may come in any order and more than once. A member of an
/// abstract domain is read only if it is in `live`.
#[cycle(reading)]
#[tactic(auto, using(crate::proofs::ReadingLaws::reading_steps))]
pub fn value_of(
    alloc: Global,
    domains: &Domains,
    domain: &Domain,
    live: &Live,
    port: &Port,
) -> Result<Value, PortableRefusal>
    ensures { Reads result (spec.value_of domains.now live.now domain.now port.now) }
{
    match domain {
        Domain::Truth => truth_in(alloc, port),
        Domain::Int => integer_in(alloc, port),
        Domain::Nat => natural_in(alloc, port),
        Domain::Chars => string_in(alloc, port),
        Domain::Enum(number) => literal_in(alloc, domains, *number, port),
        Domain::Abstract(number) => live_in(alloc, domains, *number, live, port),
        Domain::Subset(number) => subset_in(alloc, domains, *number, port),
        Domain::Prod(parts) => tuple_in(alloc, domains, parts.as_slice(), live, port),
        Domain::Seq(item) => sequence_in(alloc, domains, item.get(), live, port),
        Domain::Power(item) => set_in(alloc, domains, item.get(), live, port),
    }
}

/// A tuple with one item in each domain.
#[cycle(reading)]
#[tactic(auto, using(crate::proofs::ReadingLaws::reading_steps))]
fn tuple_in(
    alloc: Global,
    domains: &Domains,
    parts: &[Domain],
    live: &Live,
    port: &Port,
) -> Result<Value, PortableRefusal>
    ensures { Reads result
        (spec.tuple_read (map (spec.value_of domains.now live.now) parts.now) port.now) }
{
    match port.items() {
        Some(trees) => {
            let items = parts_of(alloc, domains, parts, live, trees)?;
            kept(alloc, tuple_of(items))
        }
        None => Err(misfit(alloc)),
    }
}

/// A sequence of values of the domain.
#[cycle(reading)]
#[tactic(auto, using(crate::proofs::ReadingLaws::reading_steps))]
fn sequence_in(
    alloc: Global,
    domains: &Domains,
    domain: &Domain,
    live: &Live,
    port: &Port,
) -> Result<Value, PortableRefusal>
    ensures { Reads result
        (spec.sequence_read (spec.value_of domains.now live.now domain.now) port.now) }
{
    match port.items() {
        Some(trees) => {
            let items = items_of(alloc, domains, domain, live, trees)?;
            kept(alloc, sequence_of(items))
        }
        None => Err(misfit(alloc)),
    }
}

/// A set of values of the domain.
#[cycle(reading)]
#[tactic(auto, using(crate::proofs::ReadingLaws::reading_steps))]
fn set_in(
    alloc: Global,
    domains: &Domains,
    domain: &Domain,
    live: &Live,
    port: &Port,
) -> Result<Value, PortableRefusal>
    ensures { Reads result
        (spec.set_read (spec.value_of domains.now live.now domain.now) port.now) }
{
    match port.items() {
        Some(trees) => {
            let items = items_of(alloc, domains, domain, live, trees)?;
            kept(alloc, set_of(alloc, items)?)
        }
        None => Err(misfit(alloc)),
    }
}

/// The values of the domain for which trees stand.
#[cycle(reading)]
#[tactic(auto, using(crate::proofs::ReadingLaws::reading_steps))]
fn items_of(
    alloc: Global,
    domains: &Domains,
    domain: &Domain,
    live: &Live,
    trees: &[Port],
) -> Result<List<Value>, PortableRefusal>
    ensures { Reads result
        (spec.items_read (spec.value_of domains.now live.now domain.now) 0 trees.now) }
{
    let mut items = List::new(alloc);
    for (at, tree) in trees.iter().enumerate() {
        match value_of(alloc, domains, domain, live, tree) {
            Ok(item) => items.push(item)?,
            Err(why) => return Err(at_part(alloc, at, why)),
        }
    }
    Ok(items)
}

/// The values for which trees stand, each of its own domain, as many as there are domains.
#[cycle(reading)]
#[tactic(auto, using(crate::proofs::ReadingLaws::reading_steps))]
fn parts_of(
    alloc: Global,
    domains: &Domains,
    parts: &[Domain],
    live: &Live,
    trees: &[Port],
) -> Result<List<Value>, PortableRefusal>
    ensures { Reads result
        (spec.parts_read (map (spec.value_of domains.now live.now) parts.now) 0 trees.now) }
{
    let mut items = List::new(alloc);
    for (at, part) in parts.iter().enumerate() {
        if at >= trees.len() {
            return Err(misfit(alloc));
        }
        match value_of(alloc, domains, part, live, &trees[at]) {
            Ok(item) => items.push(item)?,
            Err(why) => return Err(at_part(alloc, at, why)),
        }
    }
    if parts.len() < trees.len() {
        return Err(misfit(alloc));
    }
    Ok(items)
}
