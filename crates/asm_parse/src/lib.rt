//! The one tree of a text, or its first refusal.
#![tactic(auto)]

mod foreign;
mod imports;
mod models;
mod parse;
mod refusal;

pub use parse::{one_refusal, one_term, one_tree, parse_model, parse_term};
pub use refusal::ParseRefusal;
