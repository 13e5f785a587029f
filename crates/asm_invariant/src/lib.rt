//! Invariants of states: the first that is broken.
#![tactic(auto)]

mod broken;

pub use asm_program::Inv;
pub use broken::first_broken;
