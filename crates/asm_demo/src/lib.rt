//! The demo: a model with a function of some size is loaded, steps, gets an invariant that holds it
//! back, and goes back; one line tells of the answers.
#![tactic(auto)]

mod calls;
mod line;
mod run;
mod size;
mod sum;

pub use calls::demo_text;
pub use line::demo_line;
pub use size::size_in;
