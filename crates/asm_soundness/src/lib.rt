//! Which states are well formed for a program, and that steps lead from such states to such states.
//!
//! It holds definitions and laws alone, and no code that runs.
#![tactic(auto)]

mod laws;

pub use laws::{
    a_checked_program_is_sorted, a_step_leaves_a_state_well_formed,
    each_state_of_a_run_is_well_formed, inputs_leave_a_state_well_formed,
    the_initial_state_is_well_formed,
};
