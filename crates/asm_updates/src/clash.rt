//! A clash: a location with two values, lent by a set or owned.
ghost use Rattle.std.specs.Prelude.{◌≡◌, IfOk};

use asm_value::{Location, Value};
use std::alloc::{AllocError, Global};

/// A clash in a set of updates, lent by the set. Which clash it is, `UpdateSet::clash`
/// says.
#[derive(Clone, Copy)]
pub struct ClashRef<'a> {
    /// The location with two values.
    pub location: &'a Location,
    /// The lesser of the two values.
    pub first: &'a Value,
    /// The greater of the two values.
    pub second: &'a Value,
}

/// A clash in memory of its own, for outcomes that outlive the set.
#[derive(Debug, Drop)]
pub struct Clash {
    /// The location with two values.
    pub location: Location,
    /// The lesser of the two values.
    pub first: Value,
    /// The greater of the two values.
    pub second: Value,
}

impl ClashRef<'_> {
    /// The same clash in memory of its own. `AllocError` is want of memory.
    pub fn copy(&self, alloc: Global) -> Result<Clash, AllocError>
        ensures location { IfOk result (λ clash. clash.location ≡ self.now.location.now) }
        ensures first { IfOk result (λ clash. clash.first ≡ self.now.first.now) }
        ensures second { IfOk result (λ clash. clash.second ≡ self.now.second.now) }
    {
        Ok(Clash {
            location: self.location.copy(alloc)?,
            first: self.first.copy(alloc)?,
            second: self.second.copy(alloc)?,
        })
    }
}
