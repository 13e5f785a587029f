//! The parts of the constructs of terms: lists of terms, what a `let` binds, the cases of a `switch`,
//! and ranges with a body. They take the reader of a line of terms as a value.
#![tactic(auto)]

mod binds;
mod cases;
mod grammar;
mod level;
mod line;

pub use grammar::Grammar;
pub use level::Level;
pub use line::Line;
