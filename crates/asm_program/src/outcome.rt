//! What a term gives in a state.
pub use asm_syntax::Span;
use asm_value::{List, Value};

/// Why a term has no value, or a rule no update set.
#[derive(Clone, Copy, Debug, PartialEq, Eq)]
pub enum FaultKind {
    /// An operator's result isn't from -2^127 to 2^127 - 1.
    Overflow,
    /// A value has more than 256 items, a weight above 4,096, or is a string of over 1,024 bytes.
    ValueTooLarge,
    /// An abstract domain has its 256 members already.
    DomainFull,
    /// An updated location's argument isn't in its declared domain.
    OutOfDomain,
    /// A new value is neither undef nor in the function's codomain.
    OutOfCodomain,
    /// An update set weighs more than 131,072.
    UpdatesTooLarge,
}

/// A fault, and the part of the text that it is placed at.
#[derive(Clone, Copy, Debug, PartialEq, Eq)]
pub struct Fault {
    pub kind: FaultKind,
    pub span: Span,
}

/// What a term gives.
#[derive(Drop)]
pub enum Outcome {
    Value(Value),
    Fault(Fault),
}

/// What several terms give, one after another: all values, or the first fault.
#[derive(Drop)]
pub enum Parts {
    Values(List<Value>),
    Fault(Fault),
}
