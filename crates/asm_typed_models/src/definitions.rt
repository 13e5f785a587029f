//! What a text defines, once its names are numbers.
use asm_program::{InitInfo, Inv, MacroInfo, Rule, Term};
use asm_value::{Boxed, List, Shared};

/// What a text defines, once its names are numbers.
#[derive(Drop)]
pub struct Definitions {
    /// The terms of functions, by the functions' numbers; None for those without.
    pub bodies: Vec<Option<Boxed<Term>>>,
    /// In text order.
    pub macros: List<MacroInfo>,
    /// The rule of a step.
    pub main: Boxed<Rule>,
    /// The initial terms, in text order.
    pub inits: List<InitInfo>,
    /// In text order.
    pub invariants: List<Shared<Inv>>,
}
