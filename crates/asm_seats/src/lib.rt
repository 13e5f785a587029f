//! Seats at work: what the seats of a book do all day, one after another or in threads of their own.
#![tactic(auto)]

mod calls;
mod peeks;
mod threads;

pub use calls::{End, change, change_held, end_of, load, ready, settle, step};
pub use peeks::{Peeked, peek_until, peeked_after};
pub use threads::{MOST_STEPS, length_after};
