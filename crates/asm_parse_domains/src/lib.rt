//! Domains and what is read beside them: single tokens that trees keep, variables with their domains,
//! and integers. A function or method for each line of the grammar.
#![tactic(auto)]

mod domains;
mod variables;
mod words;

pub use domains::domain;
pub use variables::{int, params, ranges};
pub use words::{identifier, identifiers, maybe_identifier, maybe_word, variable};
