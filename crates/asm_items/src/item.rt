//! Items in text order.
ghost use Rattle.std.specs.Prelude.{◌≡◌, [], ◌∷◌, map, OnOk};
ghost use Rattle.asm_items.specs.Views.{item_of, with_items};

use asm_base::{List, Text};
use asm_program::Limited;
use asm_syntax::{IntTree, Span, Token};
use std::alloc::{AllocError, Global};
use std::marker::Model;

/// What a text declares, counts or names at one place.
#[derive(Drop)]
pub enum Item<'a> {
    /// One more domain, function, macro rule or invariant.
    Counts(Limited, Span),
    /// A name of the one name space.
    Declares(&'a Token),
    /// A name of that of invariants.
    DeclaresInvariant(Text, Span),
    /// The first part past a limit that counts within one form: its number from 1.
    Exceeds(Limited, u128, Span),
    /// A variable that its list has already.
    Repeats(&'a Token),
    NamesDomain(&'a Token),
    /// A subset is declared.
    NeedsIntegers(&'a Token, Span),
    /// The integers of a subset: the least and the greatest.
    GivesInterval(&'a Token, &'a IntTree, &'a IntTree),
    /// The integers of a subset: the first, and those after it.
    GivesIntegers(&'a Token, &'a IntTree, &'a [IntTree]),
    /// A name in a term.
    NamesFunction(&'a Token),
    /// A name before `[`.
    NamesMacro(&'a Token),
}

/// Items in text order. They grow by the allocator that they were made with.
#[derive(Drop)]
pub struct Items<'a> {
    alloc: Global,
    items: List<Item<'a>>,
}

impl<'a> Model for Items<'a> {
    ghost use Rattle.std.specs.Prelude.{List, map};
    ghost use Rattle.asm_program.specs.Items.{Item as SomeItem};
    ghost use Rattle.asm_items.specs.Views.{item_of};

    ghost Value = { List SomeItem };

    ghost view = { λ s. map item_of s.items };
}

impl<'a> Items<'a> {
    /// No items. Takes no memory.
    pub fn new(alloc: Global) -> Items<'a>
        ensures { result ≡ [] }
    {
        Items {
            alloc,
            items: List::new(alloc),
        }
    }

    /// The allocator that the items grow by.
    pub fn alloc(&self) -> Global {
        self.alloc
    }

    /// Lends the items. Takes no memory.
    pub fn as_slice(&self) -> &[Item<'a>]
        ensures { map item_of result.now ≡ self.now }
    {
        self.items.as_slice()
    }

    /// Adds an item at the end. On `AllocError`, want of memory, the item is dropped.
    #[tactic(auto, using(crate::proofs::Steps::push_steps))]
    pub fn push(&mut self, item: Item<'a>) -> Result<(), AllocError>
        ensures { OnOk result (self.new ≡ with_items self.old (item_of item.entry ∷ [])) }
    {
        self.items.push(item)?;
        Ok(())
    }
}
