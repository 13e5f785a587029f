//! The lines of terms.

/// A line of the grammar that is one construct deeper in another.
#[derive(Clone, Copy)]
pub enum Line {
    Term,
    Imp,
    And,
    Neg,
    Sum,
    Prod,
    Sign,
    /// A quantifier without its parentheses.
    Quantifier,
}
