//! What the environment gives with a step and what models offer each other, read: the updates of
//! monitored and shared functions.
#![tactic(auto)]

mod functions;
mod models;
mod offers;
mod values;

pub use models::{all_given, inputs_of, stepping};
