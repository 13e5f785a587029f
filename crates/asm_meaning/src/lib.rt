//! The tree and the program of a text as functions on its bytes, the term of a text alone, what is
//! reported of a text that has none, and that they are exact.
//!
//! It holds definitions and laws alone, and no code that runs.
#![tactic(auto)]

mod laws;

pub use laws::{
    a_bad_term_is_reported, a_bad_text_is_reported, a_text_has_its_program, a_text_has_its_term,
    a_text_has_its_term_tree, a_text_has_its_tree, each_term_has_one_meaning,
    each_text_has_one_meaning,
};
