//! Typed terms.
ghost use Rattle.std.specs.Prelude.{◌≡◌, [], ◌∷◌, ◌++◌, OnOk};
ghost use Rattle.asm_program.specs.TypedTerms.{truth_refused};
ghost use Rattle.asm_typed.specs.Answers.{Passes, done};

use asm_program::{Term, TypeRefusal};
use asm_syntax::Span;
use asm_typing::{Type, fits};
use asm_value::{Boxed, List};
use std::alloc::{AllocError, Global};

/// A term with its type, and where it is in the text.
#[derive(Drop)]
pub struct Typed {
    pub of: Boxed<Type>,
    pub term: Boxed<Term>,
    pub span: Span,
}

/// Some typed terms: their types, and the terms.
#[derive(Drop)]
pub struct AllTyped {
    pub types: List<Type>,
    pub terms: List<Boxed<Term>>,
}

impl AllTyped {
    /// None. Takes no memory.
    pub fn new(alloc: Global) -> AllTyped
        ensures types { result.types ≡ [] }
        ensures terms { result.terms ≡ [] }
    {
        AllTyped {
            types: List::new(alloc),
            terms: List::new(alloc),
        }
    }

    /// One more at the end. `AllocError` is want of memory.
    pub fn push(&mut self, typed: Typed) -> Result<(), AllocError>
        ensures types { OnOk result (self.new.types ≡ self.old.types ++ typed.of ∷ []) }
        ensures terms { OnOk result (self.new.terms ≡ self.old.terms ++ typed.term ∷ []) }
    {
        self.types.push(typed.of.into_inner())?;
        self.terms.push(typed.term)?;
        Ok(())
    }
}

impl Typed {
    /// It has to be Boolean, else it is refused at its own place. Takes no memory.
    #[tactic(auto, using(crate::proofs::Refusals::refusal_steps))]
    pub fn is_truth(&self) -> Result<(), TypeRefusal>
        ensures { Passes result (truth_refused (done self.now)) }
    {
        if fits(self.of.get(), &Type::Truth) {
            Ok(())
        } else {
            Err(TypeRefusal::Mismatch(self.span))
        }
    }
}
