//! What a run of a formula comes to.
use crate::offer::Offer;
use asm_base::{List, Text};
use asm_portable::Port;

/// What a run of a formula came to.
#[derive(Debug, Drop)]
pub enum FormulaOutcome {
    /// Each model stepped, and the whole gives this.
    Done(Offer),
    /// The step of this model was refused.
    Stopped(Text),
    /// A location has two values in a union, or in what the models of a part held: the least such
    /// location, with its two least values.
    JoinClash {
        function: Text,
        args: List<Port>,
        first: Port,
        second: Port,
    },
}
