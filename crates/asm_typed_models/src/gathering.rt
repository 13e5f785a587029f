//! What the definitions of a text define, one after the other.
ghost use Rattle.std.specs.Prelude.{◌≡◌, ◌+◌, [], ◌∷◌, ◌++◌, Some, length, slice_set, OnOk, IfOk, IfErr};
ghost use Rattle.asm_program.specs.declared.type_refusal.TypeRefusal.TheVariants.{NoMemory};
ghost use Rattle.asm_program.specs.TypedTerms.{checked};
ghost use Rattle.asm_typed.specs.Answers.{Gives, Passes};
ghost use Rattle.asm_typed_models.specs.Forms as forms;

use crate::bodies::{FunctionBody, function_def, macro_def, rule_of};
use crate::invariants::{invariant_def, subjects};
use asm_program::{Inv, MacroInfo, Term, TypeRefusal};
use asm_scope::{Header, Scope};
use asm_syntax::{DefTree, ParamsTree, RuleTree, TermTree, Token};
use asm_value::{Boxed, List, Shared};
use std::alloc::{AllocError, Global};

/// The sum of two counts. Where it has no place in a machine word, so has no text, and want of memory
/// is told.
fn added(count: usize, more: usize) -> Result<usize, TypeRefusal>
    ensures sum { IfOk result (λ n. n ≡ count + more) }
    ensures memory { IfErr result (λ why. why ≡ NoMemory) }
{
    match count.checked_add(more) {
        Some(sum) => Ok(sum),
        None => Err(TypeRefusal::NoMemory),
    }
}

/// What the definitions so far define, and how many `choose` words are in them.
#[derive(Drop)]
pub(crate) struct Gathered {
    /// The terms of functions, by the functions' numbers; None for those without.
    pub bodies: Vec<Option<Boxed<Term>>>,
    pub macros: List<MacroInfo>,
    pub invariants: List<Shared<Inv>>,
    pub chooses: usize,
}

/// No function has a term yet.
#[tactic(auto, using(crate::proofs::Lists::none_steps))]
fn no_bodies(alloc: Global, functions: &[Header]) -> Result<Vec<Option<Boxed<Term>>>, AllocError>
    ensures { IfOk result (λ bodies. bodies.items ≡ forms.no_bodies functions.now) }
{
    let mut bodies = Vec::new(alloc);
    for _function in functions {
        bodies.push(None)?;
    }
    Ok(bodies)
}

impl Gathered {
    /// Nothing is defined yet.
    fn new(alloc: Global, functions: &[Header]) -> Result<Gathered, AllocError>
        ensures bodies { IfOk result (λ g. g.bodies.items ≡ forms.no_bodies functions.now) }
        ensures macros { IfOk result (λ g. g.macros ≡ []) }
        ensures invariants { IfOk result (λ g. g.invariants ≡ []) }
        ensures chooses { IfOk result (λ g. g.chooses ≡ 0) }
    {
        let bodies = no_bodies(alloc, functions)?;
        Ok(Gathered {
            bodies,
            macros: List::new(alloc),
            invariants: List::new(alloc),
            chooses: 0,
        })
    }

    fn set_body(&mut self, body: FunctionBody)
        ensures bodies { self.new.bodies.items
            ≡ slice_set self.old.bodies.items body.function (Some body.term) }
        ensures macros { self.new.macros ≡ self.old.macros }
        ensures invariants { self.new.invariants ≡ self.old.invariants }
        ensures chooses { self.new.chooses ≡ self.old.chooses }
    {
        let function = usize::from(body.function);
        if function < self.bodies.len() {
            self.bodies[function] = Some(body.term);
        }
    }

    #[tactic(auto, using(crate::proofs::Steps::refusals))]
    fn add_macro(
        &mut self,
        alloc: Global,
        scope: &Scope,
        name: &Token,
        params: &Option<ParamsTree>,
        body: &RuleTree,
    ) -> Result<(), TypeRefusal>
        ensures refused { Passes result (forms.rule_at scope.now params.now body.now).refused }
        ensures macros { OnOk result (self.new.macros ≡ self.old.macros ++ forms.macro_of scope.now
            name.now params.now (forms.rule_at scope.now params.now body.now) self.old.chooses ∷ []) }
        ensures chooses { OnOk result (self.new.chooses
            ≡ self.old.chooses + (forms.rule_at scope.now params.now body.now).chooses) }
        ensures bodies { OnOk result (self.new.bodies.items ≡ self.old.bodies.items) }
        ensures invariants { OnOk result (self.new.invariants ≡ self.old.invariants) }
    {
        let rule = rule_of(alloc, scope, params, body, self.chooses)?;
        self.chooses = added(self.chooses, rule.chooses)?;
        let def = macro_def(alloc, scope, name, params, rule.rule)?;
        self.macros.push(def)?;
        Ok(())
    }

    #[tactic(auto, using(crate::proofs::Steps::refusals))]
    fn add_invariant(
        &mut self,
        alloc: Global,
        text: &str,
        scope: &Scope,
        name: &Option<Token>,
        term: &TermTree,
    ) -> Result<(), TypeRefusal>
        ensures refused { Passes result
            (forms.invariant_refused (checked scope.now term.now [])) }
        ensures invariants { OnOk result (self.new.invariants
            ≡ self.old.invariants ++ forms.invariant_of text.now name.now
            (checked scope.now term.now []) (length self.old.invariants + 1) ∷ []) }
        ensures bodies { OnOk result (self.new.bodies.items ≡ self.old.bodies.items) }
        ensures macros { OnOk result (self.new.macros ≡ self.old.macros) }
        ensures chooses { OnOk result (self.new.chooses ≡ self.old.chooses) }
    {
        let number = added(self.invariants.len(), 1)?;
        let def = invariant_def(alloc, text, scope, number, name, term)?;
        self.invariants.push(def)?;
        Ok(())
    }

    /// What one more definition defines.
    #[tactic(auto, using(crate::proofs::Steps::def_steps))]
    fn add(
        &mut self,
        alloc: Global,
        text: &str,
        scope: &Scope,
        tree: &DefTree,
    ) -> Result<(), TypeRefusal>
        ensures refused { Passes result (forms.def_refused scope.now tree.now) }
        ensures bodies { OnOk result (self.new.bodies.items
            ≡ forms.bodies_with scope.now self.old.bodies.items (tree.now ∷ [])) }
        ensures macros { OnOk result (self.new.macros
            ≡ forms.macros_with scope.now self.old.macros self.old.chooses (tree.now ∷ [])) }
        ensures chooses { OnOk result (self.new.chooses
            ≡ forms.chooses_with scope.now self.old.chooses (tree.now ∷ [])) }
        ensures invariants { OnOk result (self.new.invariants ≡ forms.invariants_with text.now
            scope.now self.old.invariants (tree.now ∷ [])) }
    {
        match tree {
            DefTree::Interval(_, _, _, _) | DefTree::Integers(_, _, _, _) => Ok(()),
            DefTree::Function(name, params, term, _) => {
                let body = function_def(alloc, scope, name, params, term.get())?;
                self.set_body(body);
                Ok(())
            }
            DefTree::Rule(name, params, body, _) => {
                self.add_macro(alloc, scope, name, params, body.get())
            }
            DefTree::Invariant(name, first, others, term, _) => {
                subjects(alloc, scope, first, others.as_slice())?;
                self.add_invariant(alloc, text, scope, name, term.get())
            }
        }
    }
}

/// What the definitions of a text define.
#[tactic(auto, using(crate::proofs::Lists::defs_steps))]
pub(crate) fn defs_typed(
    alloc: Global,
    text: &str,
    scope: &Scope,
    defs: &[DefTree],
) -> Result<Gathered, TypeRefusal>
    ensures { Gives result (forms.defs_refused scope.now defs.now)
        (forms.IsGathered text.now scope.now defs.now) }
{
    let mut defined = Gathered::new(alloc, scope.functions())?;
    for def in defs {
        match defined.add(alloc, text, scope, def) {
            Ok(()) => {}
            Err(why) => return Err(why),
        }
    }
    Ok(defined)
}
