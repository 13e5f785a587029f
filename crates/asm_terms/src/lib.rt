//! What terms give in a state, and the initial state of a program.
#![tactic(auto)]

mod env;
mod evaluate;
mod functions;
mod live;
mod quantifier;
mod results;
mod start;
mod view;
mod written;

pub use env::Env;
pub use evaluate::{eval, eval_in};
pub use functions::{function_takes, is_in_codomain, location_of};
pub use results::is_true;
pub use start::{InitOutcome, initial};
pub use view::View;
