//! Updates and calls of macro rules.
ghost use Rattle.std.specs.Prelude.{◌≡◌, IfOk};
ghost use Rattle.asm_program.specs.TypedTerms.{checked};
ghost use Rattle.asm_program.specs.TypedRules as spec;
ghost use Rattle.asm_typed.specs.Answers.{Passes, settled};
ghost use Rattle.asm_typed.specs.Forms.{args_at};
ghost use Rattle.asm_typed_rules.specs.Forms as forms;

use asm_items::text_of;
use asm_program::{FunctionKind, Named, Rule, TypeRefusal};
use asm_scope::{Header, Scope};
use asm_syntax::{Span, TermTree, TermsTree, Token};
use asm_typed::{
    AllTyped, Typed, Variables, arg_fits, args_checked, args_fit, args_typed, typed_at, unknown,
};
use asm_value::{Boxed, Domain};
use std::alloc::{AllocError, Global};

// ---- updates

/// A controlled, shared or out function may be updated.
fn is_updated(kind: FunctionKind) -> bool
    ensures { result ≡ spec.is_updated kind }
{
    match kind {
        FunctionKind::Controlled | FunctionKind::Shared | FunctionKind::Out => true,
        FunctionKind::Static
        | FunctionKind::Derived
        | FunctionKind::Monitored
        | FunctionKind::Constant => false,
    }
}

fn update_fits(
    alloc: Global,
    header: &Header,
    args: &AllTyped,
    value: &Typed,
) -> Result<bool, AllocError>
    ensures { IfOk result (λ b. b ≡ spec.update_fits header.now args.now.types value.now.of) }
{
    if !is_updated(header.kind()) {
        return Ok(false);
    }
    if !args_fit(alloc, args.types.as_slice(), header.args())? {
        return Ok(false);
    }
    arg_fits(alloc, value.of.get(), header.result())
}

/// The arguments and the value fit, and the function may be updated; else Mismatch.
#[tactic(auto, using(crate::proofs::Steps::refusals), unfolding(crate::specs::Forms::update_refused))]
fn update_checked(
    alloc: Global,
    header: &Header,
    args: &AllTyped,
    value: &Typed,
    span: Span,
) -> Result<(), TypeRefusal>
    ensures { Passes result (forms.update_refused header.now args.now.types value.now.of span) }
{
    if update_fits(alloc, header, args, value)? {
        Ok(())
    } else {
        Err(TypeRefusal::Mismatch(span))
    }
}

/// An update by a function with this header.
#[tactic(auto, using(crate::proofs::Steps::refusals), unfolding(crate::specs::Forms::updated, crate::specs::Forms::update_refused))]
fn updated(
    alloc: Global,
    scope: &Scope,
    variables: &mut Variables,
    function: u16,
    header: &Header,
    args: &Option<TermsTree>,
    value: &TermTree,
    span: Span,
) -> Result<Boxed<Rule>, TypeRefusal>
    ensures typed { forms.GivesSimple result (forms.updated scope.now function header.now
        (args_at scope.now variables.old args.now) (checked scope.now value.now variables.old)
        span) }
    ensures same { variables.new ≡ variables.old }
{
    let args = args_typed(alloc, scope, variables, args)?;
    let value = typed_at(alloc, scope, variables, value)?;
    update_checked(alloc, header, &args, &value, span)?;
    let rule = Rule::Update {
        function,
        args: args.terms,
        value: value.term,
        span,
    };
    Ok(Boxed::new(alloc, rule)?)
}

/// What can't be updated is refused after its parts.
#[tactic(auto, using(crate::proofs::Steps::refusals), unfolding(crate::specs::Forms::not_updated))]
fn not_updated(
    alloc: Global,
    scope: &Scope,
    variables: &mut Variables,
    args: &Option<TermsTree>,
    value: &TermTree,
    span: Span,
) -> TypeRefusal
    ensures refused { settled result (forms.not_updated
        (args_at scope.now variables.old args.now) (checked scope.now value.now variables.old) span)
        ≡ result }
    ensures same { variables.new ≡ variables.old }
{
    if let Err(why) = args_typed(alloc, scope, variables, args) {
        return why;
    }
    match typed_at(alloc, scope, variables, value) {
        Ok(_) => TypeRefusal::Mismatch(span),
        Err(why) => why,
    }
}

/// An update of a controlled, shared or out function, whose arguments and value fit.
#[tactic(auto, using(crate::proofs::Steps::update_steps), unfolding(crate::specs::Forms::not_updated))]
fn update_named(
    alloc: Global,
    scope: &Scope,
    variables: &mut Variables,
    meant: Option<Named>,
    name: &Token,
    args: &Option<TermsTree>,
    value: &TermTree,
    span: Span,
) -> Result<Boxed<Rule>, TypeRefusal>
    ensures typed { forms.GivesSimple result (spec.named_updated scope.now meant name.now
        (args_at scope.now variables.old args.now) (checked scope.now value.now variables.old)
        span) }
    ensures same { variables.new ≡ variables.old }
{
    match meant {
        Some(Named::Function(function)) => match scope.header(function) {
            Some(header) => {
                updated(alloc, scope, variables, function, header, args, value, span)
            }
            None => Err(TypeRefusal::NoMemory),
        },
        Some(Named::Enum(_))
        | Some(Named::Abstract(_))
        | Some(Named::Subset(_))
        | Some(Named::Literal { .. })
        | Some(Named::Macro(_))
        | Some(Named::Main) => Err(not_updated(alloc, scope, variables, args, value, span)),
        None => Err(unknown(alloc, name)),
    }
}

/// An update of what the name stands for.
#[tactic(auto, unfolding(crate::specs::Forms::update))]
pub(crate) fn update(
    alloc: Global,
    scope: &Scope,
    variables: &mut Variables,
    name: &Token,
    args: &Option<TermsTree>,
    value: &TermTree,
    span: Span,
) -> Result<Boxed<Rule>, TypeRefusal>
    ensures typed { forms.GivesSimple result (forms.update scope.now name.now
        (args_at scope.now variables.old args.now) (checked scope.now value.now variables.old)
        span) }
    ensures same { variables.new ≡ variables.old }
{
    let meant = scope.find(text_of(name));
    update_named(alloc, scope, variables, meant, name, args, value, span)
}

// ---- calls

/// A call of a macro rule with these parameters.
#[tactic(auto, using(crate::proofs::Steps::called_steps), unfolding(crate::specs::Forms::called))]
fn called(
    alloc: Global,
    scope: &Scope,
    variables: &mut Variables,
    rule: u16,
    params: &[Domain],
    args: &Option<TermsTree>,
    span: Span,
) -> Result<Boxed<Rule>, TypeRefusal>
    ensures typed { forms.GivesSimple result
        (forms.called scope.now rule params.now (args_at scope.now variables.old args.now) span) }
    ensures same { variables.new ≡ variables.old }
{
    let args = args_typed(alloc, scope, variables, args)?;
    args_checked(alloc, args.types.as_slice(), params, span)?;
    let args = args.terms;
    Ok(Boxed::new(alloc, Rule::Call { rule, args })?)
}

/// A call of a macro rule, whose arguments fit. The main rule isn't called.
#[tactic(auto, using(crate::proofs::Steps::call_steps))]
fn call_named(
    alloc: Global,
    scope: &Scope,
    variables: &mut Variables,
    meant: Option<Named>,
    name: &Token,
    args: &Option<TermsTree>,
    span: Span,
) -> Result<Boxed<Rule>, TypeRefusal>
    ensures typed { forms.GivesSimple result (spec.rule_called scope.now meant name.now
        (args_at scope.now variables.old args.now) span) }
    ensures same { variables.new ≡ variables.old }
{
    match meant {
        Some(Named::Macro(rule)) => match scope.params(rule) {
            Some(params) => { called(alloc, scope, variables, rule, params.as_slice(), args, span) }
            None => Err(TypeRefusal::NoMemory),
        },
        Some(Named::Enum(_))
        | Some(Named::Abstract(_))
        | Some(Named::Subset(_))
        | Some(Named::Literal { .. })
        | Some(Named::Function(_))
        | Some(Named::Main) => Err(TypeRefusal::Mismatch(name.span)),
        None => Err(unknown(alloc, name)),
    }
}

/// A call of what the name stands for.
#[tactic(auto, unfolding(crate::specs::Forms::call))]
pub(crate) fn call(
    alloc: Global,
    scope: &Scope,
    variables: &mut Variables,
    name: &Token,
    args: &Option<TermsTree>,
    span: Span,
) -> Result<Boxed<Rule>, TypeRefusal>
    ensures typed { forms.GivesSimple result (forms.call scope.now name.now
        (args_at scope.now variables.old args.now) span) }
    ensures same { variables.new ≡ variables.old }
{
    let meant = scope.find(text_of(name));
    call_named(alloc, scope, variables, meant, name, args, span)
}
