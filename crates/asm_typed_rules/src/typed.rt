//! Typed rules.
ghost use Rattle.std.specs.Prelude.{◌≡◌, ◌+◌, [], IfOk, IfErr};
ghost use Rattle.asm_program.specs.declared.type_refusal.TypeRefusal.TheVariants.{NoMemory};

use asm_program::{Rule, TypeRefusal};
use asm_value::{Boxed, List};
use std::alloc::Global;

/// A rule with numbers for its names, and how many `choose` words it has.
#[derive(Drop)]
pub struct TypedRule {
    pub rule: Boxed<Rule>,
    pub chooses: usize,
}

/// Some of them, with all their `choose` words.
#[derive(Drop)]
pub struct TypedRules {
    pub rules: List<Boxed<Rule>>,
    pub chooses: usize,
}

impl TypedRules {
    /// None. Takes no memory.
    pub fn new(alloc: Global) -> TypedRules
        ensures rules { result.rules ≡ [] }
        ensures chooses { result.chooses ≡ 0 }
    {
        TypedRules {
            rules: List::new(alloc),
            chooses: 0,
        }
    }
}

/// The sum of two counts. Where it has no place in a machine word, so has no text, and want of memory
/// is told.
pub fn added(count: usize, more: usize) -> Result<usize, TypeRefusal>
    ensures sum { IfOk result (λ n. n ≡ count + more) }
    ensures memory { IfErr result (λ why. why ≡ NoMemory) }
{
    match count.checked_add(more) {
        Some(sum) => Ok(sum),
        None => Err(TypeRefusal::NoMemory),
    }
}
