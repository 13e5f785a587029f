//! The depth and the work of what a text defines: the sixth pass.
#![tactic(auto)]

mod known;
mod limits;
mod rounds;
mod walks;

pub use limits::{Counted, counts_of, text_work};
