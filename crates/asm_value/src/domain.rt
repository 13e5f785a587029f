//! Domains as types of values, and which values are in them.
ghost use Rattle.std.specs.Prelude.{◌≡◌, map};
ghost use Rattle.std.specs.List.{list_all};
ghost use Rattle.asm_value.specs.Domain as spec;
ghost use Rattle.asm_value.specs.Domain.{fits, each_passes};

use crate::value::Value;
use asm_base::{Boxed, List, Text};

/// A domain: the type of a function's argument or value. Numbers are indexes in the list of the
/// declared domains, from 0.
#[derive(Debug, Drop)]
pub enum Domain {
    /// The two truth values.
    Truth,
    /// All integers.
    Int,
    /// The integers from 0 on.
    Nat,
    /// All strings.
    Chars,
    /// The literals of the declared enumeration with this number.
    Enum(u16),
    /// The members that the declared abstract domain with this number has in a state.
    Abstract(u16),
    /// The integers of the declared subset with this number.
    Subset(u16),
    /// The tuples with one item in each of the parts.
    Prod(List<Domain>),
    /// The sequences of values of a domain.
    Seq(Boxed<Domain>),
    /// The sets of values of a domain.
    Power(Boxed<Domain>),
}

/// What a declared domain is. Its names are in text order.
#[derive(Debug, Drop)]
pub enum DomainKind {
    /// An enumeration: its literals.
    Enum(List<Text>),
    /// An abstract domain: its constants, which are members from the start.
    Abstract(List<Text>),
    /// A subset of the integers: its integers, ascending.
    Subset(List<i128>),
}

/// A declared domain.
#[derive(Debug, Drop)]
pub struct DomainInfo {
    /// Its name.
    pub name: Text,
    /// What it is.
    pub kind: DomainKind,
}

/// The declared domains, in text order.
pub type Domains = List<DomainInfo>;

/// The members of the abstract domains in a state.
#[derive(Debug, Drop)]
pub struct Live {
    /// For each declared domain the indexes of its members, ascending; empty for one that is not
    /// abstract.
    pub members: List<List<u16>>,
}

/// Whether the declared domain is an enumeration with a literal of this index.
fn is_literal(domains: &Domains, domain: u16, index: u16) -> bool
    ensures { result ≡ spec.is_literal domains.now domain index }
{
    match domains.as_slice().get(usize::from(domain)) {
        Some(info) => match &info.kind {
            DomainKind::Enum(names) => usize::from(index) < names.len(),
            DomainKind::Abstract(_) | DomainKind::Subset(_) => false,
        },
        None => false,
    }
}

/// Whether the declared domain is a subset with this integer.
fn is_in_subset(domains: &Domains, domain: u16, number: i128) -> bool
    ensures { result ≡ spec.is_in_subset domains.now domain number }
{
    match domains.as_slice().get(usize::from(domain)) {
        Some(info) => match &info.kind {
            DomainKind::Subset(numbers) => numbers.as_slice().contains(&number),
            DomainKind::Enum(_) | DomainKind::Abstract(_) => false,
        },
        None => false,
    }
}

/// Whether the domain has a member of this index in the state.
fn is_live(live: &Live, domain: u16, index: u16) -> bool
    ensures { result ≡ spec.is_live live.now domain index }
{
    match live.members.as_slice().get(usize::from(domain)) {
        Some(members) => members.as_slice().contains(&index),
        None => false,
    }
}

/// Whether the value is in the domain: members of abstract domains by those that are there in the
/// state, `live`. Undef is in no domain, and a number that no declared domain has is an empty
/// domain. Takes no memory.
#[cycle(fits)]
#[tactic(auto, using(crate::proofs::DomainLaws::domain_steps))]
pub fn fits(value: &Value, domains: &Domains, domain: &Domain, live: &Live) -> bool
    ensures { result ≡ fits domains.now live.now domain.now value.now }
{
    match domain {
        Domain::Truth => value.is_truth(),
        Domain::Int => value.as_int().is_some(),
        Domain::Nat => match value.as_int() {
            Some(number) => number >= 0,
            None => false,
        },
        Domain::Chars => value.is_chars(),
        Domain::Enum(domain) => match value.as_member() {
            Some((of, index)) => of == *domain && is_literal(domains, *domain, index),
            None => false,
        },
        Domain::Abstract(domain) => match value.as_member() {
            Some((of, index)) => of == *domain && is_live(live, *domain, index),
            None => false,
        },
        Domain::Subset(domain) => match value.as_int() {
            Some(number) => is_in_subset(domains, *domain, number),
            None => false,
        },
        Domain::Prod(parts) => match value {
            Value::Tuple(items) => fits_each(items.as_slice(), domains, parts.as_slice(), live),
            Value::Undef
            | Value::Truth(_)
            | Value::Int(_)
            | Value::Chars(_)
            | Value::Member { .. }
            | Value::Seq(_)
            | Value::Set(_) => false,
        },
        Domain::Seq(part) => match value {
            Value::Seq(items) => all_fit(items.as_slice(), domains, part.get(), live),
            Value::Undef
            | Value::Truth(_)
            | Value::Int(_)
            | Value::Chars(_)
            | Value::Member { .. }
            | Value::Tuple(_)
            | Value::Set(_) => false,
        },
        Domain::Power(part) => match value {
            Value::Set(items) => all_fit(items.as_slice(), domains, part.get(), live),
            Value::Undef
            | Value::Truth(_)
            | Value::Int(_)
            | Value::Chars(_)
            | Value::Member { .. }
            | Value::Tuple(_)
            | Value::Seq(_) => false,
        },
    }
}

/// Whether each item is in the domain.
#[cycle(fits)]
#[tactic(auto, using(crate::proofs::DomainLaws::domain_steps))]
fn all_fit(items: &[Value], domains: &Domains, domain: &Domain, live: &Live) -> bool
    ensures { result ≡ list_all (fits domains.now live.now domain.now) items.now }
{
    for item in items {
        if !fits(item, domains, domain, live) {
            return false;
        }
    }
    true
}

/// Whether there are as many items as domains, each item in the domain with its index.
#[cycle(fits)]
#[tactic(auto, using(crate::proofs::DomainLaws::domain_steps))]
fn fits_each(items: &[Value], domains: &Domains, parts: &[Domain], live: &Live) -> bool
    ensures { result ≡ each_passes (map (fits domains.now live.now) parts.now) items.now }
{
    if items.len() != parts.len() {
        return false;
    }
    for at in 0..items.len() {
        if !fits(&items[at], domains, &parts[at], live) {
            return false;
        }
    }
    true
}
