//! The parser of declarations, of definitions and of initial states.
#![tactic(auto)]

mod declarations;
mod definitions;
mod equations;
mod initial;
mod integer_sets;

pub use declarations::decls;
pub use definitions::Defs;
pub use initial::init;
