//! New members of abstract domains.
ghost use Rattle.std.specs.Prelude.{◌≡◌, ◌+◌, ◌≤◌, true, false, IfOk, IfSome, IsNone, map, slice_index, slice_set};
ghost use Rattle.std.specs.List.{range_with_len};
ghost use Rattle.asm_value.specs.declared.value.Value.TheVariants.{Truth};
ghost use Rattle.asm_value.specs.declared.location.Update.{Update};
ghost use Rattle.asm_value.specs.Living.{member_location};
ghost use Rattle.asm_program.specs.Yields as spec;
ghost use Rattle.asm_program.specs.Yields.{has_room};

use asm_program::Program;
use asm_state::State;
use asm_updates::UpdateSet;
use asm_value::{Args, List, Location, Subject, Update, Value};
use std::alloc::{AllocError, Global};
use std::marker::Model;

/// For each declared domain the index of its next new member: in a step it rises with each member
/// that is taken.
#[derive(Debug, Drop)]
pub struct Next {
    indexes: Vec<usize>,
}

impl Model for Next {
    ghost use Rattle.std.specs.Prelude.{List, ℕ};

    ghost Value = { List ℕ };

    ghost view = { λ next. next.indexes.items };
}

impl Next {
    /// The indexes as a step in the state begins: the numbers of members. `AllocError` is want of
    /// memory.
    pub fn at_the_start(alloc: Global, program: &Program, state: &State) -> Result<Next, AllocError>
        ensures { IfOk result (λ next. next ≡ spec.counts_in program.now state.now) }
    {
        let live = state.live(alloc, &program.domains)?;
        let mut indexes = Vec::new(alloc);
        for members in live.members.as_slice() {
            indexes.push(members.len())?;
        }
        Ok(Next { indexes })
    }

    /// Takes so many new members of the domain, and gives the index of the first. None where the
    /// domain would have more than 256, or isn't declared. Takes no memory.
    pub fn take(&mut self, domain: u16, count: usize) -> Option<u16>
        ensures first { IfSome result (λ first. first ≡ slice_index self.old domain) }
        ensures few { IfSome result (λ first. first + count ≤ 256) }
        ensures taken { IfSome result (λ first.
            self.new ≡ slice_set self.old domain (first + count)) }
        ensures room { IfSome result (λ _. has_room self.old domain count ≡ true) }
        ensures none { IsNone result → has_room self.old domain count ≡ false }
    {
        let at = usize::from(domain);
        if at >= self.indexes.len() {
            return None;
        }
        let first = self.indexes[at];
        if first > 256 || count > 256 - first {
            return None;
        }
        self.indexes[at] = first + count;
        Some(first as u16)
    }
}

/// The members of the domain with so many indexes from the first on. `AllocError` is want of
/// memory.
pub fn new_members(
    alloc: Global,
    domain: u16,
    first: u16,
    count: usize,
) -> Result<List<Value>, AllocError>
    requires { first + count ≤ 256 }
    ensures { IfOk result (λ members. members
        ≡ spec.new_members domain (range_with_len first count)) }
{
    let mut members = List::new(alloc);
    for index in 0..count {
        members.push(Value::Member {
            domain,
            index: first + index as u16,
        })?;
    }
    Ok(members)
}

/// The update by which the member is in its domain. `AllocError` is want of memory.
fn membership(alloc: Global, domain: u16, index: u16) -> Result<Update, AllocError>
    ensures { IfOk result (λ update. update
        ≡ record { location = member_location domain index; value = Truth true }) }
{
    let mut args = Args::new(alloc);
    args.push(Value::Member { domain, index })?;
    Ok(Update {
        location: Location {
            subject: Subject::Domain(domain),
            args,
        },
        value: Value::Truth(true),
    })
}

/// The updates by which so many members, from the first on, are in the domain. `AllocError` is want
/// of memory.
pub fn memberships(
    alloc: Global,
    domain: u16,
    first: u16,
    count: usize,
) -> Result<UpdateSet, AllocError>
    requires { first + count ≤ 256 }
    ensures { IfOk result (λ updates. updates
        ≡ spec.memberships domain (range_with_len first count)) }
{
    let mut updates = UpdateSet::new(alloc);
    for index in 0..count {
        updates.add(membership(alloc, domain, first + index as u16)?)?;
    }
    Ok(updates)
}
