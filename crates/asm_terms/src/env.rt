//! The values of the variables in scope.
ghost use Rattle.std.specs.Prelude.{◌≡◌, [], ◌∷◌, ◌++◌, length, take, OnOk, OnErr, IfOk};
ghost use Rattle.std.specs.Prelude.{slice_get, unwrap_or};
ghost use Rattle.asm_value.specs.declared.value.Value.TheVariants.{Undef};

use asm_value::Value;
use std::alloc::{AllocError, Global};
use std::marker::Model;

/// The values of the variables in scope, the outermost first: a variable goes by its position.
#[derive(Debug, Drop)]
pub struct Env {
    values: Vec<Value>,
}

impl Model for Env {
    ghost use Rattle.std.specs.Prelude.{List};
    ghost use Rattle.asm_value.specs.declared.value.Value.{Value as Item};
    ghost use Rattle.std.specs.Coded.{coded_list};
    ghost use Rattle.asm_value.specs.contracts.value.Value as item;

    ghost Value = { List Item };

    ghost coded = { coded_list item.the_row.coded };

    ghost view = { λ env. env.values.items };
}

impl Env {
    /// No variables. Takes no memory.
    pub fn new(alloc: Global) -> Env
        ensures { result ≡ [] }
    {
        Env {
            values: Vec::new(alloc),
        }
    }

    /// The variables that have the values of a vector, in the vector's own memory. Takes no more.
    pub fn of_values(values: Vec<Value>) -> Env
        ensures { result ≡ values.items }
    {
        Env { values }
    }

    /// Equal variables in memory of their own. `AllocError` is want of memory.
    pub fn copy(&self, alloc: Global) -> Result<Env, AllocError>
        ensures { IfOk result (λ env. env ≡ self.now) }
    {
        let mut copied = Env::new(alloc);
        for value in self.as_slice() {
            copied.push(value.copy(alloc)?)?;
        }
        Ok(copied)
    }

    /// One more variable, the innermost. On `AllocError`, want of memory, the variables are as
    /// before and the value is dropped.
    pub fn push(&mut self, value: Value) -> Result<(), AllocError>
        ensures ok { OnOk result (self.new ≡ self.old ++ value ∷ []) }
        ensures err { OnErr result (self.new ≡ self.old) }
    {
        self.values.push(value)?;
        Ok(())
    }

    /// The number of variables.
    pub fn len(&self) -> usize
        ensures { result ≡ length self.now }
    {
        self.values.len()
    }

    /// Gives up the innermost variables but so many outermost ones.
    pub fn truncate(&mut self, count: usize)
        ensures { self.new ≡ take count self.old }
    {
        self.values.truncate(count);
    }

    /// Lends the values, the outermost first. Takes no memory.
    pub fn as_slice(&self) -> &[Value]
        ensures { result.now ≡ self.now }
    {
        self.values.as_slice()
    }

    /// A copy of the value of a variable, undef where there is none. `AllocError` is want of
    /// memory.
    pub fn value(&self, alloc: Global, at: usize) -> Result<Value, AllocError>
        ensures { IfOk result (λ v. v ≡ unwrap_or (slice_get self.now at) Undef) }
    {
        match self.values.get(at) {
            Some(value) => value.copy(alloc),
            None => Ok(Value::Undef),
        }
    }
}
