//! Domains and their members, worked out by hand: the widest domains are listed whole.
use asm_value::{
    Boxed, Domain, DomainInfo, DomainKind, Domains, List, Live, Text, Value, fits, members,
};
use std::alloc::{AllocError, Global};
use std::test::Fail;

/// The integers from 1 on that are less than `end`.
fn counted(alloc: Global, end: i128) -> Result<DomainKind, AllocError> {
    let mut numbers = List::new(alloc);
    for number in 1..end {
        numbers.push(number)?;
    }
    Ok(DomainKind::Subset(numbers))
}

/// An enumeration of 256 literals.
fn enumeration(alloc: Global) -> Result<DomainKind, AllocError> {
    let mut names = List::new(alloc);
    for _ in 0..256 {
        names.push(Text::new(alloc))?;
    }
    Ok(DomainKind::Enum(names))
}

fn declare(alloc: Global, domains: &mut Domains, kind: DomainKind) -> Result<(), AllocError> {
    let name = Text::new(alloc);
    domains.push(DomainInfo { name, kind })
}

/// Subsets of 4,096, of 256 and of 12 integers, an abstract domain, and an enumeration of 256
/// literals.
fn wide_domains(alloc: Global) -> Result<Domains, AllocError> {
    let mut domains = List::new(alloc);
    for end in [4097, 257, 13] {
        declare(alloc, &mut domains, counted(alloc, end)?)?;
    }
    let things = DomainKind::Abstract(List::new(alloc));
    declare(alloc, &mut domains, things)?;
    declare(alloc, &mut domains, enumeration(alloc)?)?;
    Ok(domains)
}

fn indexes(alloc: Global) -> Result<List<u16>, AllocError> {
    let mut indexes = List::new(alloc);
    for index in 0..256 {
        indexes.push(index)?;
    }
    Ok(indexes)
}

/// The fourth domain has 256 members.
fn all_are_live(alloc: Global) -> Result<Live, AllocError> {
    let mut members = List::new(alloc);
    for _ in 0..3 {
        members.push(List::new(alloc))?;
    }
    members.push(indexes(alloc)?)?;
    Ok(Live { members })
}

fn pair(alloc: Global, first: Domain, second: Domain) -> Result<Domain, AllocError> {
    let mut parts = List::new(alloc);
    parts.push(first)?;
    parts.push(second)?;
    Ok(Domain::Prod(parts))
}

fn sets_of(alloc: Global, part: Domain) -> Result<Domain, AllocError> {
    Ok(Domain::Power(Boxed::new(alloc, part)?))
}

fn ascend(values: &[Value]) -> bool {
    values.windows(2).all(|pair| pair[0] < pair[1])
}

/// Whether so many members are listed, ascending, and each fits.
fn is_listed_whole(alloc: Global, domain: &Domain, count: usize) -> Result<bool, AllocError> {
    let domains = wide_domains(alloc)?;
    let live = all_are_live(alloc)?;
    let listed = members(alloc, &domains, domain, &live)?;
    let mut all_fit = true;
    for value in listed.as_slice() {
        all_fit = all_fit && fits(value, &domains, domain, &live);
    }
    Ok(all_fit && listed.len() == count && ascend(listed.as_slice()))
}

fn declared_ones_are_whole(alloc: Global) -> Result<bool, AllocError> {
    Ok(
        is_listed_whole(alloc, &Domain::Truth, 2)?
            && is_listed_whole(alloc, &Domain::Subset(0), 4096)?
            && is_listed_whole(alloc, &Domain::Abstract(3), 256)?
            && is_listed_whole(alloc, &Domain::Enum(4), 256)?,
    )
}

fn pairs_are_whole(alloc: Global) -> Result<bool, AllocError> {
    let pairs = pair(alloc, Domain::Subset(1), Domain::Subset(1))?;
    is_listed_whole(alloc, &pairs, 65_536)
}

fn sets_are_whole(alloc: Global) -> Result<bool, AllocError> {
    let sets = sets_of(alloc, Domain::Subset(2))?;
    is_listed_whole(alloc, &sets, 4096)
}

#[test]
fn the_widest_domains_are_listed_whole(rt: HostRuntime) -> Result<(), Fail> {
    assert!(rt; declared_ones_are_whole(rt.alloc())?);
    assert!(rt; pairs_are_whole(rt.alloc())?);
    assert!(rt; sets_are_whole(rt.alloc())?);
    Ok(())
}

/// A pair, and whether it has one of the first 12 integers and then an integer from 0 on.
const PAIRS: [(i128, i128, bool); 5] = [
    (1, 0, true),
    (12, 12, true),
    (0, 5, false),
    (13, 5, false),
    (5, -1, false),
];

/// An integer beside 2, and whether both are from 0 on, and among the first 12.
const BESIDE_TWO: [(i128, bool, bool); 3] = [
    (3, true, true),
    (13, true, false),
    (-1, false, false),
];

fn integers(alloc: Global, numbers: &[i128]) -> Result<List<Value>, AllocError> {
    let mut items = List::new(alloc);
    for number in numbers {
        items.push(Value::Int(*number))?;
    }
    Ok(items)
}

/// Declared domains with their members.
#[derive(Drop)]
struct World {
    domains: Domains,
    live: Live,
}

fn wide_world(alloc: Global) -> Result<World, AllocError> {
    let domains = wide_domains(alloc)?;
    let live = all_are_live(alloc)?;
    Ok(World { domains, live })
}

fn is_in(world: &World, domain: &Domain, value: &Value) -> bool {
    fits(value, &world.domains, domain, &world.live)
}

fn tuple_fits(
    alloc: Global,
    world: &World,
    domain: &Domain,
    items: &[i128],
) -> Result<bool, AllocError> {
    let tuple = Value::Tuple(integers(alloc, items)?);
    Ok(is_in(world, domain, &tuple))
}

fn pairs_fit(alloc: Global, world: &World, domain: &Domain) -> Result<bool, AllocError> {
    for (first, second, wanted) in PAIRS {
        if tuple_fits(alloc, world, domain, &[first, second])? != wanted {
            return Ok(false);
        }
    }
    Ok(true)
}

fn tuples_fit(alloc: Global) -> Result<bool, AllocError> {
    let domain = pair(alloc, Domain::Subset(2), Domain::Nat)?;
    let world = wide_world(alloc)?;
    pairs_fit(alloc, &world, &domain)
}

fn list_fits(
    alloc: Global,
    world: &World,
    domain: &Domain,
    items: &[i128],
) -> Result<bool, AllocError> {
    let list = Value::Seq(integers(alloc, items)?);
    Ok(is_in(world, domain, &list))
}

fn lists_fit(alloc: Global, world: &World, domain: &Domain) -> Result<bool, AllocError> {
    for (number, wanted, _) in BESIDE_TWO {
        if list_fits(alloc, world, domain, &[2, number])? != wanted {
            return Ok(false);
        }
    }
    Ok(true)
}

fn sequences_fit(alloc: Global) -> Result<bool, AllocError> {
    let domain = Domain::Seq(Boxed::new(alloc, Domain::Nat)?);
    let world = wide_world(alloc)?;
    lists_fit(alloc, &world, &domain)
}

fn set_fits(
    alloc: Global,
    world: &World,
    domain: &Domain,
    items: &[i128],
) -> Result<bool, AllocError> {
    let set = Value::Set(integers(alloc, items)?);
    Ok(is_in(world, domain, &set))
}

fn each_set_fits(alloc: Global, world: &World, domain: &Domain) -> Result<bool, AllocError> {
    for (number, _, wanted) in BESIDE_TWO {
        if set_fits(alloc, world, domain, &[2, number])? != wanted {
            return Ok(false);
        }
    }
    Ok(true)
}

fn sets_fit(alloc: Global) -> Result<bool, AllocError> {
    let domain = sets_of(alloc, Domain::Subset(2))?;
    let world = wide_world(alloc)?;
    each_set_fits(alloc, &world, &domain)
}

#[test]
fn a_value_is_in_a_domain_where_each_of_its_parts_is(rt: HostRuntime) -> Result<(), Fail> {
    assert!(rt; tuples_fit(rt.alloc())?);
    assert!(rt; sequences_fit(rt.alloc())?);
    assert!(rt; sets_fit(rt.alloc())?);
    Ok(())
}
