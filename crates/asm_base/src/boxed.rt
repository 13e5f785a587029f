//! A box that contracts see as the value in it.
ghost use Rattle.std.specs.Prelude.{◌≡◌, IfOk};

use std::alloc::{AllocError, Global};
use std::marker::Model;

/// One value in memory of its own, so that a type may hold its own kind: the domain of sequences
/// holds the domain of their items. Contracts see the value itself.
#[derive(Debug, Drop)]
pub struct Boxed<T> {
    held: Box<T>,
}

impl<T> Model for Boxed<T> {
    ghost Value = { T };

    ghost coded = { T.code };

    ghost view = { λ b. b.held.value };
}

impl<T> Boxed<T> {
    /// Lends the value. Takes no memory.
    pub fn get(&self) -> &T
        ensures { result.now ≡ self.now }
    {
        &self.held
    }

    /// Gives the value up, and frees the box.
    pub fn into_inner(self) -> T
        ensures { result ≡ self }
    {
        let Boxed { held } = self;
        Box::into_inner(held)
    }
}

impl<T: Drop> Boxed<T> {
    /// Puts the value into a box. On `AllocError`, want of memory, the value is dropped.
    pub fn new(alloc: Global, value: T) -> Result<Boxed<T>, AllocError>
        ensures { IfOk result (λ b. b ≡ value) }
    {
        Ok(Boxed {
            held: Box::new(alloc, value)?,
        })
    }
}
