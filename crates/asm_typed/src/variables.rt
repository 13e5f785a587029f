//! Variables in scope.
ghost use Rattle.std.specs.Prelude.{◌≡◌, [], length, take, OnOk, OnErr};
ghost use Rattle.std.specs.Option.{option_map};
ghost use Rattle.asm_program.specs.TypedTerms.{variable_at, with_variable};

use asm_items::text_of;
use asm_syntax::Token;
use asm_typing::Type;
use asm_value::{Boxed, Text};
use std::alloc::{AllocError, Global};
use std::marker::Model;

/// The variables in scope with their types, the outermost first.
#[derive(Drop)]
pub struct Variables {
    variables: Vec<(Text, Boxed<Type>)>,
}

impl Model for Variables {
    ghost use Rattle.asm_program.specs.TypedTerms.{Variables as VariableList};
    ghost use Rattle.asm_typing.specs.contracts.types.Type as term_type;
    ghost use Rattle.std.specs.Coded.{codes};

    ghost Value = { VariableList };

    ghost coded = { Prim.hlevel (codes, term_type.the_row.coded) };

    ghost view = { λ v. v.variables.items };
}

/// The position and the type of the last variable of this name.
#[tactic(auto, using(crate::proofs::InScope::find_steps))]
fn last_of<'a>(variables: &'a [(Text, Boxed<Type>)], name: &str) -> Option<(usize, &'a Type)>
    ensures { option_map (λ found. (found.0, found.1.now)) result
        ≡ variable_at variables.now name.now }
{
    let count = variables.len();
    for passed in 0..count {
        let at = count - 1 - passed;
        let (known, of) = &variables[at];
        if known.as_str() == name {
            return Some((at, of.get()));
        }
    }
    None
}

impl Variables {
    /// No variable. Takes no memory.
    pub fn new(alloc: Global) -> Variables
        ensures { result ≡ [] }
    {
        Variables {
            variables: Vec::new(alloc),
        }
    }

    /// How many variables there are. Takes no memory.
    pub fn len(&self) -> usize
        ensures { result ≡ length self.now }
    {
        self.variables.len()
    }

    /// One more variable, the innermost. On `AllocError`, want of memory, there is none more.
    pub fn push(&mut self, alloc: Global, name: &Token, of: Boxed<Type>) -> Result<(), AllocError>
        ensures ok { OnOk result (self.new ≡ with_variable self.old name.now of) }
        ensures err { OnErr result (self.new ≡ self.old) }
    {
        let name = Text::from_str(alloc, text_of(name))?;
        self.variables.push((name, of))?;
        Ok(())
    }

    /// Only the first `count` stay in scope. Takes no memory.
    pub fn truncate(&mut self, count: usize)
        ensures { self.new ≡ take count self.old }
    {
        self.variables.truncate(count);
    }

    /// The position and the type of a variable: an inner one hides an outer one of its name. Takes
    /// no memory.
    pub fn find(&self, name: &str) -> Option<(usize, &Type)>
        ensures { option_map (λ found. (found.0, found.1.now)) result
            ≡ variable_at self.now name.now }
    {
        last_of(self.variables.as_slice(), name)
    }
}
