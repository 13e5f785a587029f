//! The models that a formula joins, as a run sees them.
ghost use Rattle.std.specs.Prelude.{◌≡◌, List, [], ◌∷◌, IfOk, OnOk, OnErr};
ghost use Rattle.asm_compose.specs.Runs.{Beginning};
ghost use Rattle.asm_compose.specs.Steps.{Made, Makes, MakesNone, given_by, made_of};

use crate::offer::Offer;
use asm_base::Text;
use std::alloc::{AllocError, Global};

/// The models of a formula, by their names. Beside what it holds, a leaf has a meaning: what its
/// models held as the run began, what their steps come to, and which steps it has made.
pub trait Leaf {
    /// Why a step may be refused. The leaf may keep it.
    ghost Refusal: { Type 0 };

    /// What a step leaves of its model. The leaf may keep it.
    ghost Left: { Type 0 };

    /// What the models held as the run began, and what their steps come to: functions of the name,
    /// and of the name and the offer. No step changes them.
    ghost begins: { Self → Beginning Self.Refusal Self.Left };

    /// Whether it has made just these steps, in their order.
    ghost has_made: { Self → List (Made Self.Refusal Self.Left) → Type 0 };

    /// What the model's out locations held as the run began. `AllocError` is want of memory.
    fn held(&self, alloc: Global, name: &Text) -> Result<Offer, AllocError>
        ensures { IfOk result (λ offer. offer ≡ (begins self.now).held name.now) };

    /// Steps the model with what it is offered: what it gives; None where the step is refused. On
    /// `AllocError`, want of memory, it has made no step.
    fn step(
        &mut self,
        alloc: Global,
        name: &Text,
        offered: &Offer,
    ) -> Result<Option<Offer>, AllocError>
        ensures gives { IfOk result (λ gives. gives
            ≡ given_by ((begins self.old).step name.now offered.now)) }
        ensures makes { OnOk result (Makes has_made self.old self.new
            (made_of (begins self.old) name.now offered.now ∷ [])) }
        ensures err { OnErr result (MakesNone has_made self.old self.new) }
        ensures same { begins self.new ≡ begins self.old };
}
