//! What a trail remembers, and what is found in it.
ghost use Rattle.std.specs.Prelude.{◌≡◌, option_map, IfOk};
ghost use Rattle.asm_board.specs.Slots as spec;
ghost use Rattle.asm_board.specs.Changes as changes;

use asm_board::{Content, Slot, Trail, TrailPair};
use asm_value::{List, Shared};
use std::alloc::{AllocError, Global};

/// The most earlier contents of a model that are kept.
const MOST_PAIRS: usize = 16;

/// The same pair. Its content is shared, not copied.
fn copy_of(pair: &TrailPair) -> Result<TrailPair, AllocError>
    ensures { IfOk result (λ copy. copy ≡ pair.now) }
{
    Ok(TrailPair {
        version: pair.version,
        content: pair.content.share()?,
    })
}

/// The same pairs.
fn copies_of(alloc: Global, pairs: &[TrailPair]) -> Result<List<TrailPair>, AllocError>
    ensures { IfOk result (λ copies. copies ≡ pairs.now) }
{
    let mut copies = List::new(alloc);
    for pair in pairs {
        copies.push(copy_of(pair)?)?;
    }
    Ok(copies)
}

/// The trail with what the model was at a version as its newest pair; of 17 pairs the oldest goes.
/// The contents are shared, not copied. `AllocError` is want of memory.
pub fn remember(
    alloc: Global,
    trail: &Trail,
    version: u64,
    content: &Shared<Content>,
) -> Result<Trail, AllocError>
    ensures { IfOk result (λ new. new ≡ spec.remembered trail.now version content.now) }
{
    let pairs = trail.pairs.as_slice();
    let first = (pairs.len() + 1).saturating_sub(MOST_PAIRS);
    let mut kept = copies_of(alloc, &pairs[first..])?;
    kept.push(TrailPair {
        version,
        content: content.share()?,
    })?;
    Ok(Trail { pairs: kept })
}

/// What the model was at an earlier version; None exactly where its trail has no such version.
/// Takes no memory.
pub fn content_at(slot: &Slot, version: u64) -> Option<&Shared<Content>>
    ensures { option_map (λ content. content.now) result ≡ changes.content_at slot.now version }
{
    for pair in slot.trail.get().pairs.as_slice() {
        if pair.version == version {
            return Some(&pair.content);
        }
    }
    None
}
