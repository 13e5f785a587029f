//! Answers to calls: the definitions of what each means, carried out.
#![tactic(auto)]

mod changes;
mod formulas;
mod invariants;
mod laws;
mod logs;
mod one;
mod preparation;
mod reads;
mod steps;
mod texts;

pub use laws::{each_state_is_well_formed, world};
pub use logs::answer_log;
pub use one::One;
pub use preparation::prepare;
