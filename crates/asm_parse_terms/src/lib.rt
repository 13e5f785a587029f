//! The parser of terms: operators with their operands, and the public calls.
#![tactic(auto)]

mod heights;
mod lines;
mod operators;
mod terms;
mod trees;

pub use asm_parse_prims::starts_term;
pub use terms::{arguments, binds, call, term};
