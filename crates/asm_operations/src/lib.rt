//! What each operator computes, and the values of tuples, sequences, sets and intervals.
#![tactic(auto)]

mod applied;
mod kinds;
mod laws;
mod numbers;
mod operations;
mod sequences;
mod sets;
mod terms;
mod texts;

pub use applied::Applied;
pub use laws::{
    operations_give_what_the_examples_say, quotients_are_rounded_down, sets_have_what_they_say,
    strict_operations_are_undef_of_undef, what_operations_give_is_limited,
    what_operations_give_is_proper,
};
pub use operations::apply;
pub use terms::{interval_of, sequence_of, set_of, tuple_of};
