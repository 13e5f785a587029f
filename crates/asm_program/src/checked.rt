//! Terms that are checked alone.
use crate::trees::Term;
use asm_value::Boxed;

/// A term over what a program declares, without variables.
#[derive(Drop)]
pub struct CheckedTerm {
    pub term: Boxed<Term>,
    /// Its work: the nodes that its evaluation looks at, at most.
    pub work: u64,
    /// The byte of its text at which it begins, from 0.
    pub start: u32,
}
