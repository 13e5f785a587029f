//! That canonical text is read as the same tree. It holds definitions and laws alone, and no code
//! that runs.
#![tactic(auto)]

mod laws;

pub use laws::{a_canonical_model_is_read_again, a_canonical_term_is_read_again};
