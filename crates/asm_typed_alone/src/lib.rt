//! Terms alone, over what a program declares.
#![tactic(auto)]

mod copies;
mod limits;
mod listing;
mod scope;
mod terms;

pub use copies::{all_copied, copied};
pub use limits::work_of;
pub use terms::{TypedTerm, check_term};
