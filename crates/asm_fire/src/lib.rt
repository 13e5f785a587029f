//! Firing: the step from a state to the next one by an update set, and the way back.
#![tactic(auto)]

mod inverses;
mod step;

pub use inverses::inverse;
pub use step::{fire, fire_in_place};
