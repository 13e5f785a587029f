//! How a start or a step of a model ends.
use crate::content::Content;
use asm_program::Fault;
use asm_value::{Location, Text, Value};

/// How a start or a step ends. Where it isn't done, nothing has changed.
#[derive(Drop)]
pub enum Stepped {
    /// In a content.
    Done(Content),
    /// At a fault of an evaluation.
    Fault(Fault),
    /// At an update set that gives one location two values: the least such location, with its two
    /// least values. A start has no such end.
    Clash {
        location: Location,
        first: Value,
        second: Value,
    },
    /// In a state that weighs more than 65,536, with its weight.
    StateFull(u64),
    /// In a state in which an invariant doesn't hold, with the name of the first.
    Broken(Text),
}
