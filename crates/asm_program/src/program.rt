//! Programs: what is left of a tree once its names are numbers.
ghost use Rattle.std.specs.Prelude.{◌≡◌, ◌≤◌, length, IsTrue};
ghost use Rattle.asm_program.specs.Members.{everyone_of, domains_are_few};
ghost use Rattle.asm_program.specs.Counts.{functions_are_counted};
ghost use Rattle.asm_program.specs.Functions.{function_named};
ghost use Rattle.asm_program.specs.Nesting.{functions_are_ranked, macros_are_ranked};

use crate::outcome::Span;
use crate::trees::{Rule, Term};
use asm_value::{Boxed, Domain, Domains, List, Live, Shared, Text};

/// What a function is: what sets its values, and who sees them.
#[derive(Clone, Copy, Debug, PartialEq, Eq)]
pub enum FunctionKind {
    /// Defined by a term, the same in each state where that term is.
    Static,
    /// Defined by a term.
    Derived,
    /// Dynamic: set by the model's rules alone.
    Controlled,
    /// Dynamic: set from outside alone.
    Monitored,
    /// Dynamic: set by the rules and from outside.
    Shared,
    /// Dynamic: set by the rules, and told to the outside.
    Out,
    /// A member of an abstract domain, the same in each state.
    Constant,
}

/// A declared function.
#[derive(Drop)]
pub struct FunctionInfo {
    /// As the text spells it.
    pub name: Text,
    pub kind: FunctionKind,
    /// The domains of its arguments.
    pub args: List<Domain>,
    /// The domain of its values. Undef, which it has where no value was given, is in none.
    pub result: Domain,
    /// The term of a static or derived function, over the arguments as variables.
    pub body: Option<Boxed<Term>>,
    /// The longest path of nodes in that term, with the bodies of called functions in place of
    /// calls; 0 without a term.
    pub depth: u64,
    /// The work of that term, 2^32 where it is more; 0 without a term.
    pub work: u64,
}

/// A macro rule.
#[derive(Drop)]
pub struct MacroInfo {
    pub name: Text,
    /// The domains of its parameters.
    pub params: List<Domain>,
    pub body: Boxed<Rule>,
}

/// The initial term of a dynamic function.
#[derive(Drop)]
pub struct InitInfo {
    pub function: u16,
    /// Over the function's arguments as variables.
    pub body: Boxed<Term>,
    /// Where the term is in the text.
    pub span: Span,
}

/// An invariant: a term that has to be true in each state that a step leads to.
#[derive(Drop)]
pub struct Inv {
    /// As the text spells it, or `inv_k` for the k-th of a text, from 1, where it has no name.
    pub name: Text,
    /// Whether it was added to a model that ran already.
    pub added: bool,
    /// The text of its term.
    pub source: Text,
    pub term: Boxed<Term>,
}

/// A typed model. No function and no macro rule reaches itself by calls, and functions carry their
/// depth and work.
#[derive(Drop)]
pub struct Program {
    /// The model's name.
    pub name: Text,
    pub domains: Domains,
    /// In text order. A function's number is its position here, from 0.
    pub functions: List<FunctionInfo>,
    /// In text order, without the main rule.
    pub macros: List<MacroInfo>,
    /// The rule of a step.
    pub main: Boxed<Rule>,
    /// In text order.
    pub inits: List<InitInfo>,
    /// In text order.
    pub invariants: List<Shared<Inv>>,
    /// At most 2^24: the nodes that a step looks at, and those of the start.
    pub work: u64,
    /// The text that was checked.
    pub text: Text,
    /// Each abstract domain with all 256 members.
    pub everyone: Live,
    pub ghost few: { length functions ≤ 256 },
    pub ghost few_macros: { length macros ≤ 256 },
    pub ghost few_domains: { IsTrue (domains_are_few domains) },
    pub ghost every: { everyone ≡ everyone_of domains },
    pub ghost ranked: { IsTrue (functions_are_ranked functions) },
    pub ghost macros_ranked: { IsTrue (macros_are_ranked macros) },
    pub ghost counted: { IsTrue (functions_are_counted domains functions) },
}

impl Program {
    /// The number of the function with this name, None exactly where none has it. Of two with one
    /// name, which no checked text has, it is the first. Takes no memory.
    pub fn function(&self, name: &str) -> Option<u16>
        ensures { result ≡ function_named 0 self.now.functions name.now }
    {
        let mut at: u16 = 0;
        for info in self.functions.as_slice() {
            if info.name.as_str() == name {
                return Some(at);
            }
            at += 1;
        }
        None
    }
}
