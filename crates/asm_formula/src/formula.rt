//! What a formula is, and why a text is none.
ghost use Rattle.std.specs.Prelude.{◌≡◌, ◌++◌, IfOk, OnOk};
ghost use Rattle.asm_formula.specs.Formulas.{names};

use asm_base::{Boxed, List, Text};
use std::alloc::{AllocError, Global};
use thiserror::Error;

/// How two parts of a formula are joined: what each is offered, and what both give.
#[derive(Clone, Copy, Debug, PartialEq, Eq)]
pub enum Operator {
    /// `|`: the right part is offered what the left one gives.
    Pipe,
    /// `||`: both are offered the same.
    Both,
    /// `<|>`: the left part is offered what the right one held before, the right part what the left
    /// one gives.
    Half,
    /// `<||>`: each is offered what the other held before.
    Cross,
}

/// A formula: the name of a model, or two formulas that are joined.
#[derive(Debug, Drop)]
pub enum Formula {
    Name(Text),
    Join(Operator, Boxed<Formula>, Boxed<Formula>),
}

/// Why a text is no formula. Places are byte offsets from the text's start.
#[derive(Debug, Drop, Error)]
pub enum FormulaRefusal {
    /// No token begins at this byte, or no formula goes on so at it, or ends there.
    #[error("no formula has what stands at byte {0}")]
    Syntax(u64),
    /// It has more than 64 tokens or more than 16 names.
    #[error("the formula has more than 64 tokens or more than 16 names")]
    TooMany,
    /// This name is there twice: the first that is there a second time.
    #[error("the formula has {name} twice", name = .0.as_str())]
    Repeated(Text),
    /// Memory ran out. It says nothing of the text.
    #[error("memory ran out")]
    NoMemory,
}

impl From<AllocError> for FormulaRefusal {
    ghost use Rattle.std.specs.Prelude.{◌≡◌};
    ghost use Rattle.asm_formula.specs.declared.formula.FormulaRefusal.TheVariants.{NoMemory};

    ghost from_gives = { λ _ e. e ≡ NoMemory };

    fn from(_error: AllocError) -> FormulaRefusal {
        FormulaRefusal::NoMemory
    }
}

impl Formula {
    /// The names of its models, in text order, in memory of their own. `AllocError` is want of
    /// memory.
    pub fn names(&self, alloc: Global) -> Result<List<Text>, AllocError>
        ensures { IfOk result (λ found. found ≡ names self.now) }
    {
        let mut found = List::new(alloc);
        self.put_names(alloc, &mut found)?;
        Ok(found)
    }

    /// Adds the names of its models behind those in the list.
    #[tactic(auto, using(crate::proofs::Names::name_steps))]
    fn put_names(&self, alloc: Global, found: &mut List<Text>) -> Result<(), AllocError>
        ensures { OnOk result (found.new ≡ found.old ++ names self.now) }
    {
        match self {
            Formula::Name(name) => found.push(name.copy(alloc)?),
            Formula::Join(_, left, right) => {
                left.get().put_names(alloc, found)?;
                right.get().put_names(alloc, found)
            }
        }
    }
}
