//! The members of a domain, listed.
ghost use Rattle.std.specs.Prelude.{◌≡◌, true, false, [], ◌∷◌, map, min, IfOk};
ghost use Rattle.std.specs.List.{range_with_len};
ghost use Rattle.asm_value.specs.declared.value.Value.TheVariants.{Truth, Int, Tuple, Set};
ghost use Rattle.asm_value.specs.Members as spec;
ghost use Rattle.asm_value.specs.Ranges as range;
ghost use Rattle.asm_value.specs.Domain.{fits};
ghost use Rattle.asm_value.specs.Members.{AreListed, Lists, is_finite, members, members_at};

use crate::domain::{Domain, DomainKind, Domains, Live};
use crate::range::{sets_of, tuples};
use crate::value::{Value, copy_all};
use asm_base::List;
use std::alloc::{AllocError, Global};

/// The two truth values.
fn truths(alloc: Global) -> Result<List<Value>, AllocError>
    ensures { IfOk result (λ list. list ≡ Truth false ∷ Truth true ∷ []) }
{
    let mut list = List::new(alloc);
    list.push(Value::Truth(false))?;
    list.push(Value::Truth(true))?;
    Ok(list)
}

/// How many literals the declared domain has.
fn literal_count(domains: &Domains, domain: u16) -> usize
    ensures { result ≡ spec.literal_count domains.now domain }
{
    match domains.as_slice().get(usize::from(domain)) {
        Some(info) => match &info.kind {
            DomainKind::Enum(names) => names.len(),
            DomainKind::Abstract(_) | DomainKind::Subset(_) => 0,
        },
        None => 0,
    }
}

/// The first `count` literals of the declared domain.
fn literals(alloc: Global, domain: u16, count: u16) -> Result<List<Value>, AllocError>
    ensures { IfOk result (λ list. list ≡ members_at domain (range_with_len 0 count)) }
{
    let mut list = List::new(alloc);
    for index in 0..count {
        list.push(Value::Member { domain, index })?;
    }
    Ok(list)
}

/// The literals of the declared domain.
fn enumerated(alloc: Global, domains: &Domains, domain: u16) -> Result<List<Value>, AllocError>
    ensures { IfOk result (λ list. list ≡ spec.listed_literals domains.now domain) }
{
    let count = literal_count(domains, domain).min(65_535);
    literals(alloc, domain, u16::try_from(count).unwrap_or(u16::MAX))
}

/// The members of these indexes.
fn members_of_indexes(
    alloc: Global,
    domain: u16,
    indexes: &[u16],
) -> Result<List<Value>, AllocError>
    ensures { IfOk result (λ list. list ≡ members_at domain indexes.now) }
{
    let mut list = List::new(alloc);
    for index in indexes {
        list.push(Value::Member {
            domain,
            index: *index,
        })?;
    }
    Ok(list)
}

/// The members that the declared domain has in the state.
fn live_members(alloc: Global, live: &Live, domain: u16) -> Result<List<Value>, AllocError>
    ensures { IfOk result (λ list. list ≡ members_at domain (spec.live_indexes live.now domain)) }
{
    match live.members.as_slice().get(usize::from(domain)) {
        Some(indexes) => members_of_indexes(alloc, domain, indexes.as_slice()),
        None => Ok(List::new(alloc)),
    }
}

/// The integers as values.
fn integers(alloc: Global, numbers: &[i128]) -> Result<List<Value>, AllocError>
    ensures { IfOk result (λ list. list ≡ map (λ n. Int n) numbers.now) }
{
    let mut list = List::new(alloc);
    for number in numbers {
        list.push(Value::Int(*number))?;
    }
    Ok(list)
}

/// The integers of the declared domain.
fn subset_members(alloc: Global, domains: &Domains, domain: u16) -> Result<List<Value>, AllocError>
    ensures { IfOk result (λ vs. vs ≡ map (λ n. Int n) (spec.subset_numbers domains.now domain)) }
{
    match domains.as_slice().get(usize::from(domain)) {
        Some(info) => match &info.kind {
            DomainKind::Subset(numbers) => integers(alloc, numbers.as_slice()),
            DomainKind::Enum(_) | DomainKind::Abstract(_) => Ok(List::new(alloc)),
        },
        None => Ok(List::new(alloc)),
    }
}

/// The tuples of these items.
fn tuple_values(alloc: Global, lists: &[List<Value>]) -> Result<List<Value>, AllocError>
    ensures { IfOk result (λ list. list ≡ map (λ xs. Tuple xs) lists.now) }
{
    let mut all = List::new(alloc);
    for list in lists {
        all.push(Value::Tuple(copy_all(alloc, list.as_slice())?))?;
    }
    Ok(all)
}

/// The sets of these items.
fn set_values(alloc: Global, lists: &[List<Value>]) -> Result<List<Value>, AllocError>
    ensures { IfOk result (λ list. list ≡ map (λ xs. Set xs) lists.now) }
{
    let mut all = List::new(alloc);
    for list in lists {
        all.push(Value::Set(copy_all(alloc, list.as_slice())?))?;
    }
    Ok(all)
}

/// All tuples with one item of each list.
fn products(alloc: Global, ranges: &[List<Value>]) -> Result<List<Value>, AllocError>
    ensures { IfOk result (λ list. list ≡ map (λ xs. Tuple xs) (range.tuples ranges.now)) }
{
    let lists = tuples(alloc, ranges)?;
    tuple_values(alloc, lists.as_slice())
}

/// All sets of the items.
fn powerset(alloc: Global, items: &[Value]) -> Result<List<Value>, AllocError>
    ensures { IfOk result (λ list. list ≡ map (λ xs. Set xs) (range.sets_of items.now)) }
{
    let lists = sets_of(alloc, items)?;
    set_values(alloc, lists.as_slice())
}

/// The members as `specs/Members.antt` defines them.
#[cycle(listed)]
#[tactic(auto, using(crate::proofs::MembersLaws::member_steps))]
fn listed(
    alloc: Global,
    domains: &Domains,
    domain: &Domain,
    live: &Live,
) -> Result<List<Value>, AllocError>
    ensures { IfOk result (λ list. list ≡ members domains.now live.now domain.now) }
{
    match domain {
        Domain::Truth => truths(alloc),
        Domain::Enum(domain) => enumerated(alloc, domains, *domain),
        Domain::Abstract(domain) => live_members(alloc, live, *domain),
        Domain::Subset(domain) => subset_members(alloc, domains, *domain),
        Domain::Prod(parts) => {
            let ranges = listed_each(alloc, domains, parts.as_slice(), live)?;
            products(alloc, ranges.as_slice())
        }
        Domain::Power(part) => {
            let items = listed(alloc, domains, part.get(), live)?;
            powerset(alloc, items.as_slice())
        }
        Domain::Int | Domain::Nat | Domain::Chars | Domain::Seq(_) => Ok(List::new(alloc)),
    }
}

/// The members of each domain.
#[cycle(listed)]
#[tactic(auto, using(crate::proofs::MembersLaws::member_steps))]
fn listed_each(
    alloc: Global,
    domains: &Domains,
    parts: &[Domain],
    live: &Live,
) -> Result<List<List<Value>>, AllocError>
    ensures { IfOk result (λ lists. lists ≡ map (members domains.now live.now) parts.now) }
{
    let mut all = List::new(alloc);
    for part in parts {
        all.push(listed(alloc, domains, part, live)?)?;
    }
    Ok(all)
}

/// The members of a domain that is built of Boolean and declared domains by products and powersets:
/// the values that fit it, in ascending order, at the members that the abstract domains have in a
/// state, `live`. Of any other domain none are listed. `AllocError` is want of memory.
pub fn members(
    alloc: Global,
    domains: &Domains,
    domain: &Domain,
    live: &Live,
) -> Result<List<Value>, AllocError>
    ensures list { IfOk result (λ list. list ≡ members domains.now live.now domain.now) }
    ensures exactly { AreListed domains.now live.now → is_finite domain.now ≡ true →
        IfOk result (Lists (fits domains.now live.now domain.now)) }
{
    listed(alloc, domains, domain, live)
}
