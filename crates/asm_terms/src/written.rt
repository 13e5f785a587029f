//! The values that updates have left over a state.
ghost use Rattle.std.specs.Prelude.{◌≡◌, OnOk, OnErr, IfOk, IfSome, IfNone};
ghost use Rattle.std.specs.Prelude.{Some, None};
ghost use Rattle.std.specs.FinMap as map;

use asm_value::{Location, Value};
use std::alloc::{AllocError, Global};
use std::collections::BTreeMap;
use std::marker::Model;

/// For each location that updates were fired at the value that the last one left; undef too, which
/// leaves the location without a value.
#[derive(Drop)]
pub struct Written {
    entries: BTreeMap<Location, Value>,
}

impl Model for Written {
    ghost use Rattle.std.specs.FinMap as map;
    ghost use Rattle.asm_value.specs.Location.{location_cmp};
    ghost use Rattle.asm_value.specs.declared.value.Value.{Value as Item};
    ghost use Rattle.asm_value.specs.contracts.value.Value as item;
    ghost use Rattle.asm_value.specs.contracts.location.Location as location;

    ghost Value = { map.FinMap location_cmp Item };

    ghost coded = { map.code location.the_row.coded item.the_row.coded };

    ghost view = { λ w. map.from_entries w.entries.entries };
}

impl Written {
    /// Nothing was written. Takes no memory.
    pub fn new(alloc: Global) -> Written
        ensures { result ≡ map.empty }
    {
        Written {
            entries: BTreeMap::new(alloc),
        }
    }

    /// What was written at the location last. Takes no memory.
    pub fn get(&self, location: &Location) -> Option<&Value>
        ensures found { IfSome result (λ v. map.get self.now location.now ≡ Some v.now) }
        ensures none { IfNone result (map.get self.now location.now ≡ None) }
    {
        match self.entries.get(location) {
            Some(value) => Some(value),
            None => None,
        }
    }

    /// Writes the value at the location. On `AllocError`, want of memory, what was written is as
    /// before.
    pub fn insert(&mut self, location: Location, value: Value) -> Result<(), AllocError>
        ensures ok { OnOk result (self.new ≡ map.insert self.old location value) }
        ensures err { OnErr result (self.new ≡ self.old) }
    {
        self.entries.insert(location, value)?;
        Ok(())
    }

    fn insert_copy(
        &mut self,
        alloc: Global,
        location: &Location,
        value: &Value,
    ) -> Result<(), AllocError>
        ensures ok { OnOk result (self.new ≡ map.insert self.old location.now value.now) }
        ensures err { OnErr result (self.new ≡ self.old) }
    {
        let key = location.copy(alloc)?;
        self.insert(key, value.copy(alloc)?)
    }

    /// The same in memory of its own. `AllocError` is want of memory.
    pub fn copy(&self, alloc: Global) -> Result<Written, AllocError>
        ensures { IfOk result (λ written. written ≡ self.now) }
    {
        let mut copied = Written::new(alloc);
        for (location, value) in &self.entries {
            copied.insert_copy(alloc, location, value)?;
        }
        Ok(copied)
    }
}
