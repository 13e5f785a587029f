//! The updates that take back what an update set does.
ghost use Rattle.std.specs.Prelude.{◌≡◌, ◌↔◌, true, IfOk};
ghost use Rattle.asm_value.specs.declared.location.Update.{Update};
ghost use Rattle.asm_value.specs.UpdateSet.{has};
ghost use Rattle.asm_value.specs.State as spec;
ghost use Rattle.asm_value.specs.State.{IsConsistent, updates_at, value_at};
ghost use Rattle.asm_fire.specs.Inverses.{was};

use asm_state::State;
use asm_updates::UpdateSet;
use asm_value::Update;
use std::alloc::{AllocError, Global};

/// The update of the same location to its value in the state.
fn update_back(alloc: Global, state: &State, update: &Update) -> Result<Update, AllocError>
    ensures back { IfOk result (λ back. back ≡ was state.now update.now) }
    ensures whole { IfOk result (λ _. spec.IsState state.now) }
{
    Ok(Update {
        location: update.location.copy(alloc)?,
        value: state.get(&update.location).copy(alloc)?,
    })
}

/// What takes an update set U back: for each location of U one update, to its value in the state A.
/// Fired in `A + U` it gives A. `AllocError` is want of memory.
pub fn inverse(alloc: Global, state: &State, set: &UpdateSet) -> Result<UpdateSet, AllocError>
    ensures updates { IfOk result (λ back. (update : Update) → (has back update ≡ true)
        ↔ ((updates_at set.now update.location ≡ true)
        × (update.value ≡ value_at state.now update.location))) }
    ensures consistent { IfOk result (λ back. IsConsistent back) }
    ensures restores { IsConsistent set.now →
        IfOk result (λ back. spec.fire (spec.fire state.now set.now) back ≡ state.now) }
{
    let updates = set.items(alloc)?;
    let mut back = UpdateSet::new(alloc);
    for update in updates.as_slice() {
        back.add(update_back(alloc, state, update)?)?;
    }
    Ok(back)
}
