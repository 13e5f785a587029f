//! Typing of rules: each gets numbers for its names, or its first refusal.
#![tactic(auto)]

mod forms;
mod rules;
mod typed;
mod updates;

pub use rules::rule_typed;
pub use typed::TypedRule;
