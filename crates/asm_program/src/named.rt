//! What a declared name stands for.

/// What a declared name stands for. Numbers are positions in text order, from 0.
#[derive(Clone, Copy, Debug, PartialEq, Eq)]
pub enum Named {
    /// The declared domain with this number: an enumeration.
    Enum(u16),
    /// The declared domain with this number: an abstract one.
    Abstract(u16),
    /// The declared domain with this number: a subset of the integers.
    Subset(u16),
    /// A literal of an enumeration.
    Literal { domain: u16, index: u16 },
    /// The function with this number.
    Function(u16),
    /// The macro rule with this number.
    Macro(u16),
    /// The main rule.
    Main,
}
