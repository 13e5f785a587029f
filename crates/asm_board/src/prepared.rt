//! Calls that were prepared at one board.
ghost use Rattle.std.specs.Prelude.{◌≡◌};
ghost use Rattle.asm_board.specs.Calls as spec;

use crate::board::Slot;
use crate::call::Call;
use crate::content::Content;
use crate::reply::Body;
use asm_portable::Port;
use asm_value::{List, Shared, Text};

/// A model with its version, which is 0 where there is no such model.
#[derive(Debug, Drop)]
pub struct NameVersion {
    pub name: Text,
    pub version: u64,
}

/// A model's new content, none where the model goes.
#[derive(Drop)]
pub struct News {
    pub name: Text,
    pub content: Option<Shared<Content>>,
}

/// An accepted change: its Ok tree, and the new contents.
#[derive(Drop)]
pub struct Accepted {
    pub ok: Port,
    pub news: List<News>,
}

/// A model's new slot, none where the model goes. Its version is 0, in whose place the commit puts
/// the entry's number.
#[derive(Drop)]
pub struct Changed {
    pub name: Text,
    pub slot: Option<Slot>,
}

/// What a call comes to at one board, were there room for its entry.
#[derive(Drop)]
pub struct Prepared {
    pub call: Call,
    /// Each model of which a change speaks, with its version there.
    pub versions: List<NameVersion>,
    pub body: Body,
    /// The JSON text of its reply after the number and the comma after it.
    pub tail: Text,
    /// The new slots of an accepted change.
    pub slots: List<Changed>,
    /// Whether it is a load under a right name that wasn't taken there.
    pub loads: bool,
    /// What the entry of an accepted change weighs, else 0.
    pub weight: u64,
}

impl Prepared {
    /// Whether its call may change the models. Takes no memory.
    pub fn is_change(&self) -> bool
        ensures { result ≡ spec.is_change self.now.call }
    {
        self.call.is_change()
    }
}
