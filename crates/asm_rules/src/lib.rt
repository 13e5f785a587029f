//! What rules yield: the update set of a program's step, or its first fault.
#![tactic(auto)]

mod choices;
mod guards;
mod members;
mod outcome;
mod rules;
mod updates;
mod values;

pub use outcome::RuleOutcome;
pub use rules::yields;
