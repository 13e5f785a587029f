//! The definitions of a text with numbers for their names: the fifth pass over a text.
#![tactic(auto)]

mod bodies;
mod definitions;
mod gathering;
mod invariants;
mod models;
mod starts;

pub use definitions::Definitions;
pub use models::definitions_typed;
