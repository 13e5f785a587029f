//! The earlier contents of a model.
#![tactic(auto)]

mod trail;

pub use trail::{content_at, remember};
