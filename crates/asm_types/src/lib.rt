//! Checks a text, and numbers its names: the program of a text, or the first refusal of it.
#![tactic(auto)]

mod checker;
mod functions;
mod laws;
mod members;

pub use asm_program::{Limited, TypeRefusal};
pub use asm_typed_alone::{TypedTerm, check_term, work_of};
pub use checker::check;
pub use laws::an_unrefused_text_has_a_program;
