//! The program of a text and the term of a text, or what is reported of one that has none.
#![tactic(auto)]

mod bad_texts;
mod canonical;
mod terms;
mod texts;
mod untyped;

pub use canonical::canonical_of;
pub use terms::term_of;
pub use texts::program_of;
