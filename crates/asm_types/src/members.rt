//! The members that abstract domains can have.
ghost use Rattle.std.specs.Prelude.{◌≡◌, map, IfOk};
ghost use Rattle.std.specs.List.{range_with_len};
ghost use Rattle.asm_program.specs.Members.{indexes_of, everyone_of};

use asm_value::{DomainInfo, DomainKind, Domains, List, Live};
use std::alloc::{AllocError, Global};

/// The indexes below a count.
#[tactic(auto, using(crate::proofs::Indexes::index_steps))]
fn indexes_below(alloc: Global, count: u16) -> Result<List<u16>, AllocError>
    ensures { IfOk result (λ indexes. indexes ≡ range_with_len 0 count) }
{
    let mut indexes = List::new(alloc);
    for index in 0..count {
        indexes.push(index)?;
    }
    Ok(indexes)
}

/// The indexes that members of a declared domain can have.
fn indexes(alloc: Global, kind: &DomainKind) -> Result<List<u16>, AllocError>
    ensures { IfOk result (λ indexes. indexes ≡ indexes_of kind.now) }
{
    match kind {
        DomainKind::Abstract(_) => indexes_below(alloc, 256),
        DomainKind::Enum(_) | DomainKind::Subset(_) => Ok(List::new(alloc)),
    }
}

/// Those of each declared domain.
#[tactic(auto, using(crate::proofs::Indexes::index_steps))]
fn all_indexes(alloc: Global, domains: &[DomainInfo]) -> Result<List<List<u16>>, AllocError>
    ensures { IfOk result (λ all. all ≡ map (λ info. indexes_of info.kind) domains.now) }
{
    let mut all = List::new(alloc);
    for info in domains {
        all.push(indexes(alloc, &info.kind)?)?;
    }
    Ok(all)
}

/// Each abstract domain with all its 256 members.
pub(crate) fn everyone(alloc: Global, domains: &Domains) -> Result<Live, AllocError>
    ensures { IfOk result (λ everyone. everyone ≡ everyone_of domains.now) }
{
    let members = all_indexes(alloc, domains.as_slice())?;
    Ok(Live { members })
}
