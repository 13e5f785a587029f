//! The parser of transition rules.
#![tactic(auto)]

mod rules;
mod scopes;

pub use rules::rule;
