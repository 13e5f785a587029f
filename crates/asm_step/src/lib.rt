//! How models start and step.
#![tactic(auto)]

mod admission;
mod inputs;
mod start;
mod step;

pub use start::start_model;
pub use step::step_model;
