//! Trails: the earlier contents of a model.
use crate::content::Content;
use asm_value::{List, Shared};

/// What a model was at an earlier version.
#[derive(Drop)]
pub struct TrailPair {
    pub version: u64,
    pub content: Shared<Content>,
}

/// The last earlier contents of a model, at most 16, the oldest first.
#[derive(Drop)]
pub struct Trail {
    pub pairs: List<TrailPair>,
}
