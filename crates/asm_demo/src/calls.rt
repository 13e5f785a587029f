//! The calls of the demo.
ghost use Rattle.std.specs.Prelude.{◌≡◌, IfOk};
ghost use Rattle.asm_demo.specs.Calls as spec;

use asm_board::Call;
use asm_portable::Port;
use asm_value::{List, Text};
use std::alloc::{AllocError, Global};

/// The version of the content after ten steps.
const TEN_STEPS: u64 = 11;

/// The text of the model, whose function has the arguments 1 to the size.
#[tactic(auto, unfolding(crate::specs::Calls::demo_text))]
pub fn demo_text(alloc: Global, size: u64) -> Result<Text, AllocError>
    ensures { IfOk result (λ text. text ≡ spec.demo_text size) }
{
    let mut text = Text::from_str(
        alloc,
        "asm Demo signature: domain Ix subsetof Integer controlled c: Ix -> Integer ",
    )?;
    text.push_str("definitions: domain Ix = {1..")?;
    text.push_str(size.to_string(alloc)?.as_str())?;
    text.push_str("} main rule r_Main = forall $i in Ix do c($i) := c($i) + $i ")?;
    text.push_str("default init s0: function c($i in Ix) = 0")?;
    Ok(text)
}

/// The load of the model.
pub(crate) fn load(alloc: Global, size: u64) -> Result<Call, AllocError>
    ensures { IfOk result (λ call. call ≡ spec.load size) }
{
    let text = demo_text(alloc, size)?;
    Ok(Call::Load {
        name: Text::from_str(alloc, "demo")?,
        text,
    })
}

/// A step of the model.
pub(crate) fn step(alloc: Global) -> Result<Call, AllocError>
    ensures { IfOk result (λ call. call ≡ spec.step) }
{
    Ok(Call::Step {
        formula: Text::from_str(alloc, "demo")?,
        inputs: Port::Fields(List::new(alloc)),
        pick: None,
    })
}

/// The invariant that the 21st step would break.
pub(crate) fn add_cap(alloc: Global) -> Result<Call, AllocError>
    ensures { IfOk result (λ call. call ≡ spec.add_cap) }
{
    let name = Text::from_str(alloc, "demo")?;
    let inv = Text::from_str(alloc, "inv_cap")?;
    let term = Text::from_str(alloc, "(forall $i in Ix with c($i) <= 20 * $i)")?;
    Ok(Call::AddInvariant { name, inv, term })
}

/// The way back to the content after ten steps.
pub(crate) fn roll_back(alloc: Global) -> Result<Call, AllocError>
    ensures { IfOk result (λ call. call ≡ spec.roll_back) }
{
    Ok(Call::Rollback {
        name: Text::from_str(alloc, "demo")?,
        to: TEN_STEPS,
    })
}

/// What the model is.
pub(crate) fn state(alloc: Global) -> Result<Call, AllocError>
    ensures { IfOk result (λ call. call ≡ spec.state) }
{
    Ok(Call::State {
        name: Text::from_str(alloc, "demo")?,
        since: 0,
    })
}
