//! How many members a domain has where each is taken one by one.
ghost use Rattle.std.specs.Prelude.{◌≡◌, ◌^◌, map, length, min};
ghost use Rattle.asm_value.specs.Members.{literal_count, subset_numbers};
ghost use Rattle.asm_value.specs.Enumerable as spec;
ghost use Rattle.asm_typed.specs.Sizes.{told};

use asm_value::{Domain, DomainKind, Domains};

/// The most that a size is told as.
const MOST_SIZE: u128 = 1 << 64;

/// How many literals the declared domain has.
fn literal_count(domains: &Domains, number: u16) -> u64
    ensures { result ≡ literal_count domains.now number }
{
    match domains.as_slice().get(usize::from(number)) {
        Some(info) => match &info.kind {
            DomainKind::Enum(names) => names.len() as u64,
            DomainKind::Abstract(_) | DomainKind::Subset(_) => 0,
        },
        None => 0,
    }
}

/// How many integers the declared domain has.
fn number_count(domains: &Domains, number: u16) -> u64
    ensures { result ≡ length (subset_numbers domains.now number) }
{
    match domains.as_slice().get(usize::from(number)) {
        Some(info) => match &info.kind {
            DomainKind::Subset(numbers) => numbers.len() as u64,
            DomainKind::Enum(_) | DomainKind::Abstract(_) => 0,
        },
        None => 0,
    }
}

/// The number, or the most that is told.
fn at_most_told(count: u128) -> u128
    ensures { result ≡ min count (2 ^ 64) }
{
    if count < MOST_SIZE { count } else { MOST_SIZE }
}

/// The product, where both are there.
#[tactic(auto, using(crate::proofs::Products::times_steps))]
fn times(first: Option<u64>, rest: Option<u128>) -> Option<u128>
    ensures { result ≡ told (spec.times first rest) }
{
    match first {
        Some(first) => match rest {
            Some(rest) => {
                let product = u128::from(first) * at_most_told(rest);
                Some(at_most_told(product))
            }
            None => None,
        },
        None => None,
    }
}

/// The size as a refusal tells it.
#[tactic(auto, unfolding(crate::specs::Sizes::told))]
pub(crate) fn told(count: Option<u64>) -> Option<u128>
    ensures { result ≡ told count }
{
    match count {
        Some(count) => Some(u128::from(count)),
        None => None,
    }
}

/// The product of the sizes, where each is there.
#[cycle(size)]
#[tactic(auto, using(crate::proofs::Products::product_steps))]
pub(crate) fn product(domains: &Domains, parts: &[Domain]) -> Option<u128>
    ensures { result ≡ told (spec.product (map (spec.size domains.now) parts.now)) }
{
    let mut count: Option<u128> = Some(1);
    for part in parts {
        count = times(size(domains, part), count);
    }
    count
}

fn within(count: Option<u128>) -> Option<u64>
    ensures { result ≡ spec.at_most 65536 count }
{
    match count {
        Some(count) => {
            if count <= 65_536 {
                Some(count as u64)
            } else {
                None
            }
        }
        None => None,
    }
}

fn sets_over(count: Option<u64>) -> Option<u64>
    ensures { result ≡ spec.sets_over (spec.at_most 12 count) }
{
    match count {
        Some(count) => { if count <= 12 { Some(1 << count) } else { None } }
        None => None,
    }
}

/// The number of members of an enumerable domain, where an abstract domain counts 256; none for any
/// other domain. Takes no memory.
#[cycle(size)]
#[tactic(auto, using(crate::proofs::Products::size_steps))]
pub fn size(domains: &Domains, domain: &Domain) -> Option<u64>
    ensures { result ≡ spec.size domains.now domain.now }
{
    match domain {
        Domain::Truth => Some(2),
        Domain::Enum(number) => Some(literal_count(domains, *number)),
        Domain::Abstract(_) => Some(256),
        Domain::Subset(number) => Some(number_count(domains, *number)),
        Domain::Prod(parts) => within(product(domains, parts.as_slice())),
        Domain::Power(item) => sets_over(size(domains, item.get())),
        Domain::Int | Domain::Nat | Domain::Chars | Domain::Seq(_) => None,
    }
}
