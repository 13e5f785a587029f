//! Boards: the models that a journal leaves.
ghost use Rattle.std.specs.Prelude.{◌≡◌, ◌<◌, ◌-◌, ◌^◌, ◌≤◌, length, min, IfOk, OnOk, IsTrue, option_map, insert, slice_set, if◌then◌else◌};
ghost use Rattle.asm_board.specs.Boards as spec;
ghost use Rattle.asm_board.specs.Slots.{slot_in, put, named, at_version, without, changed_to};
ghost use Rattle.asm_board.specs.declared.board.Slot.{Slot as Slots};

use crate::content::Content;
use crate::prepared::Changed;
use crate::trail::Trail;
use asm_value::{List, Shared, Text};
use std::alloc::{AllocError, Global};
use std::cmp::Ordering;

/// A model at one version, the number of the entry that changed it last, with what it was before.
#[derive(Drop)]
pub struct Slot {
    pub version: u64,
    pub content: Shared<Content>,
    pub trail: Shared<Trail>,
}

/// A model under its name.
#[derive(Drop)]
pub struct NamedSlot {
    pub name: Text,
    pub slot: Slot,
}

/// What a journal leaves: the number of its entries, their weight, and the models, ascending by
/// name. Boards that follow one another share the contents and the trails that stayed.
#[derive(Drop)]
pub struct Board {
    pub front: u64,
    pub weight: u64,
    pub slots: List<NamedSlot>,
}

impl Slot {
    /// The same content and trail at a version. They are shared, not copied.
    fn at(&self, version: u64) -> Result<Slot, AllocError>
        ensures { IfOk result (λ slot. slot ≡ at_version version self.now) }
    {
        Ok(Slot {
            version,
            content: self.content.share()?,
            trail: self.trail.share()?,
        })
    }
}

impl NamedSlot {
    fn copy(&self, alloc: Global) -> Result<NamedSlot, AllocError>
        ensures { IfOk result (λ slot. slot ≡ self.now) }
    {
        Ok(NamedSlot {
            name: self.name.copy(alloc)?,
            slot: self.slot.at(self.slot.version)?,
        })
    }
}

/// A copy of the models.
fn copies(alloc: Global, models: &[NamedSlot]) -> Result<Vec<NamedSlot>, AllocError>
    ensures { IfOk result (λ copies. copies.items ≡ models.now) }
{
    let mut copies = Vec::new(alloc);
    for model in models {
        copies.push(model.copy(alloc)?)?;
    }
    Ok(copies)
}

/// Where a name is, or belongs, among models that ascend by name.
fn position_of(models: &[NamedSlot], name: &Text) -> (usize, bool)
    ensures within { result.0 ≤ length models.now }
    ensures there { IsTrue result.1 → result.0 < length models.now }
    ensures at { (slot : Slots) → put name.now slot models.now ≡ (
        if result.1 then slice_set models.now result.0 (named name.now slot)
        else insert models.now result.0 (named name.now slot)) }
{
    for (at, model) in models.iter().enumerate() {
        match name.cmp(&model.name) {
            Ordering::Less => return (at, false),
            Ordering::Equal => return (at, true),
            Ordering::Greater => {}
        }
    }
    (models.len(), false)
}

/// Takes the model of a name away.
fn remove(models: &mut Vec<NamedSlot>, name: &Text)
    ensures { models.new.items ≡ without name.now models.old.items }
{
    models.retain(|model| name.as_str() != model.name.as_str());
}

/// Puts a slot under its name, in place of one that is there.
fn put(models: &mut Vec<NamedSlot>, name: Text, slot: Slot) -> Result<(), AllocError>
    ensures { OnOk result (models.new.items ≡ put name slot models.old.items) }
{
    let (at, there) = position_of(models.as_slice(), &name);
    let model = NamedSlot { name, slot };
    if there {
        models[at] = model;
    } else {
        models.insert(at, model)?;
    }
    Ok(())
}

/// Makes a change of one of the models at a version.
fn make(
    alloc: Global,
    models: &mut Vec<NamedSlot>,
    version: u64,
    change: &Changed,
) -> Result<(), AllocError>
    ensures { OnOk result (models.new.items
        ≡ changed_to version models.old.items change.now.name change.now.slot) }
{
    match &change.slot {
        Some(slot) => {
            let name = change.name.copy(alloc)?;
            put(models, name, slot.at(version)?)
        }
        None => {
            remove(models, &change.name);
            Ok(())
        }
    }
}

impl Board {
    /// The board of the empty journal. Takes no memory.
    pub fn new(alloc: Global) -> Board
        ensures { result ≡ spec.empty_board }
    {
        Board {
            front: 0,
            weight: 0,
            slots: List::new(alloc),
        }
    }

    /// The number of entries. Takes no memory.
    pub fn front(&self) -> u64
        ensures { result ≡ self.now.front }
    {
        self.front
    }

    /// The weight of the entries. Takes no memory.
    pub fn weight(&self) -> u64
        ensures { result ≡ self.now.weight }
    {
        self.weight
    }

    /// The number of models, or 2^32 - 1 where there are more. Takes no memory.
    pub fn count(&self) -> u32
        ensures { result ≡ min (length self.now.slots) (2 ^ 32 - 1) }
    {
        u32::try_from(self.slots.len()).unwrap_or(u32::MAX)
    }

    /// The model of a name, if there is one. Takes no memory.
    pub fn slot(&self, name: &Text) -> Option<&Slot>
        ensures { option_map (λ slot. slot.now) result ≡ slot_in self.now.slots name.now }
    {
        for model in self.slots.as_slice() {
            if name.as_str() == model.name.as_str() {
                return Some(&model.slot);
            }
        }
        None
    }

    /// The version of a model, 0 where there is no such model. Takes no memory.
    pub fn version(&self, name: &Text) -> u64
        ensures { result ≡ spec.version_of self.now name.now }
    {
        match self.slot(name) {
            Some(slot) => slot.version,
            None => 0,
        }
    }

    /// The board with one more entry of this weight, which changed these models. What stayed is
    /// shared with this board. `AllocError` is want of memory; it is answered too where the board
    /// has 2^64 - 1 entries, a journal for which no memory is enough.
    pub fn with_entry(
        &self,
        alloc: Global,
        weight: u64,
        slots: &[Changed],
    ) -> Result<Board, AllocError>
        ensures { IfOk result (λ board. board ≡ spec.with_entry self.now weight slots.now) }
    {
        let front = match self.front.checked_add(1) {
            Some(front) => front,
            None => return Err(AllocError),
        };
        let mut models = copies(alloc, self.slots.as_slice())?;
        for change in slots {
            make(alloc, &mut models, front, change)?;
        }
        Ok(Board {
            front,
            weight: self.weight.saturating_add(weight),
            slots: List::from_vec(models),
        })
    }
}
