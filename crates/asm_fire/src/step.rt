//! Firing an update set on a state.
ghost use Rattle.std.specs.Prelude.{◌≡◌, IfOk, OnOk, OnErr};
ghost use Rattle.asm_value.specs.State as spec;
ghost use Rattle.asm_value.specs.State.{IsConsistent};

use asm_state::State;
use asm_updates::UpdateSet;
use std::alloc::{AllocError, Global};

/// Fires an update set: the state `A + U`, where A stays as it is. `AllocError` is want of memory.
/// A is copied once.
pub fn fire(alloc: Global, state: &State, set: &UpdateSet) -> Result<State, AllocError>
    requires { IsConsistent set.now }
    ensures { IfOk result (λ next. next ≡ spec.fire state.now set.now) }
{
    let mut next = state.copy(alloc)?;
    let updates = set.items(alloc)?;
    for update in updates.as_slice() {
        next.apply(update)?;
    }
    Ok(next)
}

/// Fires an update set: `A + U` in place of A. On `AllocError`, want of memory, the state is as
/// before; for that it is copied first.
pub fn fire_in_place(alloc: Global, state: &mut State, set: &UpdateSet) -> Result<(), AllocError>
    requires { IsConsistent set.now }
    ensures ok { OnOk result (state.new ≡ spec.fire state.old set.now) }
    ensures err { OnErr result (state.new ≡ state.old) }
{
    let updates = set.items(alloc)?;
    state.set_all(&updates)
}
