//! The canonical text of trees.
#![tactic(auto)]

mod decls;
mod defs;
mod models;
mod print;
mod rules;

pub use print::{print_model, print_term};
