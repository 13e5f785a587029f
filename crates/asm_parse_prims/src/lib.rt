//! Primary terms and quantifiers: a method for each line of the grammar. They take the reader of a
//! line of terms as a value.
#![tactic(auto)]

mod ahead;
mod plain;
mod prims;
mod quantifiers;
mod sets;
mod trees;

pub use ahead::starts_term;
pub use prims::Prims;
