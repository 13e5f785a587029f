//! The definitions of a text with numbers for their names: the fifth pass over it.
ghost use Rattle.std.specs.Prelude.{◌≡◌, [], ◌++◌, None};
ghost use Rattle.asm_program.specs.Checks.{Checks};
ghost use Rattle.asm_program.specs.TypedModels.{scope_of, types_refused};
ghost use Rattle.asm_typed_calls.specs.CalledNames.{declared_refused};
ghost use Rattle.asm_typed.specs.Answers.{Gives};
ghost use Rattle.asm_typed_models.specs.Defined.{AreDefinitions};
ghost use Rattle.asm_typed_models.specs.Forms as forms;

use crate::bodies::rule_of;
use crate::definitions::Definitions;
use crate::gathering::{Gathered, defs_typed};
use crate::starts::starts_typed;
use asm_program::{Rule, TypeRefusal};
use asm_scope::Scope;
use asm_syntax::{ModelTree, RuleTree};
use asm_value::Boxed;
use std::alloc::Global;

/// The rule of a step, where so many `choose` words are before it.
#[tactic(auto, using(crate::proofs::Steps::refusals))]
fn main_typed(
    alloc: Global,
    scope: &Scope,
    rule: &RuleTree,
    before: usize,
) -> Result<Boxed<Rule>, TypeRefusal>
    ensures { Gives result (forms.rule_at scope.now None rule.now).refused
        (λ r. r ≡ (forms.rule_at scope.now None rule.now).rule before) }
{
    let main = rule_of(alloc, scope, &None, rule, before)?;
    Ok(main.rule)
}

/// What the definitions of a text define, and the rule of a step.
#[derive(Drop)]
struct Ruled {
    defined: Gathered,
    main: Boxed<Rule>,
}

#[tactic(auto, using(crate::proofs::Whole::rules_steps))]
fn rules_typed(
    alloc: Global,
    text: &str,
    scope: &Scope,
    tree: &ModelTree,
) -> Result<Ruled, TypeRefusal>
    ensures { Gives result (forms.defs_refused scope.now tree.now.defs
        ++ (forms.rule_at scope.now None tree.now.rule).refused)
        (λ r. forms.IsGathered text.now scope.now tree.now.defs r.defined
        × (r.main ≡ forms.main_rule scope.now tree.now)) }
{
    let defined = defs_typed(alloc, text, scope, tree.defs.as_slice())?;
    let main = main_typed(alloc, scope, tree.rule.get(), defined.chooses)?;
    Ok(Ruled { defined, main })
}

/// What a text defines in a scope.
#[tactic(auto, using(crate::proofs::Whole::all_steps))]
fn all_typed(
    alloc: Global,
    text: &str,
    scope: &Scope,
    tree: &ModelTree,
) -> Result<Definitions, TypeRefusal>
    ensures { Gives result (forms.all_refused scope.now tree.now)
        (forms.AreDefined text.now scope.now tree.now) }
{
    let ruled = rules_typed(alloc, text, scope, tree)?;
    let inits = starts_typed(alloc, scope, &tree.init)?;
    let Ruled { defined, main } = ruled;
    let Gathered {
        bodies,
        macros,
        invariants,
        ..
    } = defined;
    Ok(Definitions {
        bodies,
        macros,
        main,
        inits,
        invariants,
    })
}

/// What a text defines with numbers for its names, where these are what it declares; or the first
/// that this pass refuses of it, in text order. Time and memory go with the size of the tree.
pub fn definitions_typed(
    alloc: Global,
    text: &str,
    scope: &Scope,
    tree: &ModelTree,
) -> Result<Definitions, TypeRefusal>
    requires scoped { scope.now ≡ scope_of tree.now }
    requires declared { declared_refused tree.now ≡ [] }
    ensures { Checks result (types_refused tree.now) (AreDefinitions text.now tree.now) }
{
    all_typed(alloc, text, scope, tree)
}
