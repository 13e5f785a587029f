//! Trees as programs.
ghost use Rattle.std.specs.Prelude.{◌≡◌, ◌≢◌, [], Some, IfOk, IfErr};
ghost use Rattle.asm_syntax.specs.Marks.{text_of};
ghost use Rattle.asm_program.specs.declared.type_refusal.TypeRefusal.TheVariants.{NoMemory};
ghost use Rattle.asm_program.specs.Checks.{Checks};
ghost use Rattle.asm_program.specs.Members.{everyone_of};
ghost use Rattle.asm_program.specs.TypedModels.{scope_of};
ghost use Rattle.asm_program.specs.Typed.{IsTyped, numbered, refused, first_refusal};
ghost use Rattle.asm_typed_models.specs.Defined.{AreDefinitions};
ghost use Rattle.asm_limits.specs.Counted.{AreCounted};
ghost use Rattle.asm_types.specs.Assembled.{AreShallow, IsKept};

use crate::functions::functions_of;
use crate::members::everyone;
use asm_calls::calls_checked;
use asm_items::text_of as name_of;
use asm_limits::{Counted, counts_of, text_work};
use asm_names::declared;
use asm_program::{Program, TypeRefusal};
use asm_scope::Scope;
use asm_syntax::ModelTree;
use asm_typed_models::{Definitions, definitions_typed};
use asm_value::Text;
use std::alloc::{AllocError, Global};

/// The program of a tree of which nothing is refused, with what it defines and its counts.
fn program(
    alloc: Global,
    text: &str,
    tree: &ModelTree,
    scope: Scope,
    definitions: Definitions,
    counted: &Counted,
    work: u64,
) -> Result<Program, AllocError>
    requires none { refused text.now tree.now ≡ [] }
    requires kept { IsKept (numbered text.now tree.now) }
    requires shallow { AreShallow tree.now }
    requires scoped { scope ≡ scope_of tree.now }
    requires defined { AreDefinitions text.now tree.now definitions }
    requires counted { AreCounted tree.now counted.now }
    requires work { work ≡ (numbered text.now tree.now).work }
    ensures { IfOk result (λ program. IsTyped text.now tree.now program) }
{
    let everyone = everyone(alloc, scope.domains())?;
    let name = Text::from_str(alloc, name_of(&tree.name))?;
    let text = Text::from_str(alloc, text)?;
    let Definitions {
        bodies,
        macros,
        main,
        inits,
        invariants,
    } = definitions;
    let functions = functions_of(alloc, tree, &scope, bodies, counted)?;
    Ok(Program {
        name,
        domains: scope.into_domains(),
        functions,
        macros,
        main,
        inits,
        invariants,
        work,
        text,
        everyone,
    })
}

/// The program of a text's tree, or its first refusal: pass after pass.
#[tactic(auto, using(crate::proofs::Passes::pass_steps))]
fn checked(alloc: Global, text: &str, tree: &ModelTree) -> Result<Program, TypeRefusal>
    ensures { Checks result (refused text.now tree.now) (IsTyped text.now tree.now) }
{
    let scope = declared(alloc, tree)?;
    let order = calls_checked(alloc, tree)?;
    let definitions = definitions_typed(alloc, text, &scope, tree)?;
    let counted = counts_of(alloc, &scope, tree, &definitions, order.as_slice())?;
    let work = text_work(&scope, tree, &definitions, &counted)?;
    let program = program(alloc, text, tree, scope, definitions, &counted, work)?;
    Ok(program)
}

/// The program of a text's tree, or its first refusal. Time and memory go with the text's length.
#[tactic(auto, using(crate::proofs::Passes::check_steps))]
pub fn check(alloc: Global, text: &str, tree: &ModelTree) -> Result<Program, TypeRefusal>
    ensures ok { IfOk result (λ program. IsTyped text.now tree.now program) }
    ensures err { IfErr result (λ why. why ≢ NoMemory
        → first_refusal text.now tree.now ≡ Some why) }
{
    checked(alloc, text, tree)
}
