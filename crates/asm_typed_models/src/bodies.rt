//! Terms of functions and rules of macro rules, over their parameters.
ghost use Rattle.std.specs.Prelude.{◌≡◌, IfOk};
ghost use Rattle.std.specs.Option.{option_map};
ghost use Rattle.asm_syntax.specs.Marks.{text_of};
ghost use Rattle.asm_typing.specs.Domains.{type_of};
ghost use Rattle.asm_typing.specs.Fits.{fits};
ghost use Rattle.asm_program.specs.Signatures.{param_domains};
ghost use Rattle.asm_program.specs.FunctionsPass.{function_at};
ghost use Rattle.asm_program.specs.Typed.{number_in};
ghost use Rattle.asm_typed.specs.Answers.{Gives, Passes, GivesTerm, done};
ghost use Rattle.asm_typed_rules.specs.Forms.{GivesRule};
ghost use Rattle.asm_typed_models.specs.Forms as forms;

use asm_items::text_of as name_of;
use asm_program::{MacroInfo, Named, Rule, Term, TypeRefusal};
use asm_scope::{Header, Scope};
use asm_syntax::{ParamsTree, RuleTree, TermTree, Token};
use asm_typed::{Typed, arg_fits, param_variables, params_enumerable, typed_at};
use asm_typed_rules::{TypedRule, rule_typed};
use asm_value::{Boxed, Text};
use std::alloc::{AllocError, Global};

// ---- parameters

/// The domains of parameters are enumerable, or the first that isn't is refused.
pub(crate) fn params_checked(
    alloc: Global,
    scope: &Scope,
    params: &Option<ParamsTree>,
) -> Result<(), TypeRefusal>
    ensures { Passes result (forms.params_refused scope.now params.now) }
{
    params_enumerable(alloc, scope, params)
}

/// The term of a definition over its parameters.
#[tactic(auto, using(crate::proofs::Steps::body_steps))]
pub(crate) fn body_typed(
    alloc: Global,
    scope: &Scope,
    params: &Option<ParamsTree>,
    term: &TermTree,
) -> Result<Typed, TypeRefusal>
    ensures { GivesTerm result (forms.body_at scope.now params.now term.now) }
{
    let mut variables = param_variables(alloc, scope, params)?;
    typed_at(alloc, scope, &mut variables, term)
}

/// The rule of a macro rule over its parameters, where so many `choose` words are before it.
#[tactic(auto, using(crate::proofs::Steps::refusals))]
pub(crate) fn rule_of(
    alloc: Global,
    scope: &Scope,
    params: &Option<ParamsTree>,
    body: &RuleTree,
    before: usize,
) -> Result<TypedRule, TypeRefusal>
    ensures { GivesRule result (forms.rule_at scope.now params.now body.now) before }
{
    let mut variables = param_variables(alloc, scope, params)?;
    rule_typed(alloc, scope, &mut variables, body, before)
}

// ---- functions

/// What a token's name stands for.
#[tactic(auto, unfolding(crate::specs::Forms::named_by))]
pub(crate) fn named_by(scope: &Scope, name: &Token) -> Option<Named>
    ensures { result ≡ forms.named_by scope.now name.now }
{
    scope.find(name_of(name))
}

/// The number of a function, 0 where the name isn't one.
pub(crate) fn number_in(meant: Option<Named>) -> u16
    ensures { result ≡ number_in meant }
{
    match meant {
        Some(Named::Function(function)) => function,
        Some(Named::Enum(_))
        | Some(Named::Abstract(_))
        | Some(Named::Subset(_))
        | Some(Named::Literal { .. })
        | Some(Named::Macro(_))
        | Some(Named::Main)
        | None => 0,
    }
}

/// What is said of a function; None where the name isn't one.
pub(crate) fn header_of(scope: &Scope, meant: Option<Named>) -> Option<&Header>
    ensures { option_map (λ h. h.now) result ≡ function_at scope.now.functions meant }
{
    match meant {
        Some(Named::Function(function)) => scope.header(function),
        Some(Named::Enum(_))
        | Some(Named::Abstract(_))
        | Some(Named::Subset(_))
        | Some(Named::Literal { .. })
        | Some(Named::Macro(_))
        | Some(Named::Main)
        | None => None,
    }
}

/// Whether a term's type fits a function's codomain.
fn fits_codomain(alloc: Global, header: &Header, typed: &Typed) -> Result<bool, AllocError>
    ensures { IfOk result (λ b. b ≡ fits typed.now.of (type_of header.now.result)) }
{
    arg_fits(alloc, typed.of.get(), header.result())
}

/// Whether a term fits the codomain of the function that is meant.
#[tactic(auto, using(crate::proofs::Steps::codomain_steps))]
fn fits_function(
    alloc: Global,
    scope: &Scope,
    meant: Option<Named>,
    typed: &Typed,
) -> Result<bool, AllocError>
    ensures { IfOk result (λ b. b ≡ forms.fits_function scope.now meant (done typed.now)) }
{
    match header_of(scope, meant) {
        Some(header) => Ok(fits_codomain(alloc, header, typed)?),
        None => Ok(true),
    }
}

/// The term of a function fits its codomain.
#[tactic(auto, using(crate::proofs::Steps::refusals), unfolding(crate::specs::Forms::codomain_refused))]
pub(crate) fn in_codomain(
    alloc: Global,
    scope: &Scope,
    meant: Option<Named>,
    typed: &Typed,
) -> Result<(), TypeRefusal>
    ensures { Passes result (forms.codomain_refused scope.now meant (done typed.now)) }
{
    if fits_function(alloc, scope, meant, typed)? {
        Ok(())
    } else {
        Err(TypeRefusal::Mismatch(typed.span))
    }
}

/// The term of the function with this number.
#[derive(Drop)]
pub(crate) struct FunctionBody {
    pub function: u16,
    pub term: Boxed<Term>,
}

/// The definition of a function: its term, which fits the codomain.
#[tactic(auto, using(crate::proofs::Steps::function_steps))]
pub(crate) fn function_def(
    alloc: Global,
    scope: &Scope,
    name: &Token,
    params: &Option<ParamsTree>,
    term: &TermTree,
) -> Result<FunctionBody, TypeRefusal>
    ensures { Gives result (forms.function_refused scope.now name.now
        (forms.body_at scope.now params.now term.now))
        (λ b. (b.function ≡ number_in (forms.named_by scope.now name.now))
        × (b.term ≡ (forms.body_at scope.now params.now term.now).term)) }
{
    let typed = body_typed(alloc, scope, params, term)?;
    let meant = named_by(scope, name);
    in_codomain(alloc, scope, meant, &typed)?;
    Ok(FunctionBody {
        function: number_in(meant),
        term: typed.term,
    })
}

// ---- macro rules

/// A macro rule with this rule.
pub(crate) fn macro_def(
    alloc: Global,
    scope: &Scope,
    name: &Token,
    params: &Option<ParamsTree>,
    body: Boxed<Rule>,
) -> Result<MacroInfo, AllocError>
    ensures { IfOk result (λ m. (m.name ≡ text_of name.now)
        × (m.params ≡ param_domains scope.now.names params.now) × (m.body ≡ body)) }
{
    let params = scope.param_domains(alloc, params)?;
    let name = Text::from_str(alloc, name_of(name))?;
    Ok(MacroInfo { name, params, body })
}
