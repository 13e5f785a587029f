//! The initial terms of dynamic functions.
ghost use Rattle.std.specs.Prelude.{◌≡◌, IfOk};
ghost use Rattle.asm_program.specs.Items.{starts_of};
ghost use Rattle.asm_program.specs.Typed.{number_in};
ghost use Rattle.asm_typed.specs.Answers.{Gives, Passes, done};
ghost use Rattle.asm_typed_models.specs.Forms as forms;

use crate::bodies::{body_typed, header_of, in_codomain, named_by, number_in, params_checked};
use asm_program::{InitInfo, Named, TypeRefusal};
use asm_scope::{Scope, same_domains};
use asm_syntax::{InitTree, ParamsTree, StartTree};
use asm_typed::Typed;
use asm_value::List;
use std::alloc::{AllocError, Global};

/// Whether parameters are in the argument domains, as they are declared.
#[tactic(auto, using(crate::proofs::Steps::args_steps))]
fn takes_args(
    alloc: Global,
    scope: &Scope,
    meant: Option<Named>,
    params: &Option<ParamsTree>,
) -> Result<bool, AllocError>
    ensures { IfOk result (λ b. b ≡ forms.takes_args scope.now meant params.now) }
{
    match header_of(scope, meant) {
        Some(header) => {
            let domains = scope.param_domains(alloc, params)?;
            Ok(same_domains(domains.as_slice(), header.args()))
        }
        None => Ok(true),
    }
}

/// The parameters of an initial term are in the argument domains, and it fits the codomain.
#[tactic(auto, using(crate::proofs::Steps::own_steps))]
fn start_fits(
    alloc: Global,
    scope: &Scope,
    start: &StartTree,
    typed: &Typed,
) -> Result<(), TypeRefusal>
    ensures { Passes result (forms.start_own scope.now start.now (done typed.now)) }
{
    let meant = named_by(scope, &start.function);
    if takes_args(alloc, scope, meant, &start.params)? {
        in_codomain(alloc, scope, meant, typed)
    } else {
        Err(TypeRefusal::Mismatch(typed.span))
    }
}

/// The initial term of the function that is named.
fn init_def(scope: &Scope, start: &StartTree, typed: Typed) -> InitInfo
    ensures function { result.function
        ≡ number_in (forms.named_by scope.now start.now.function) }
    ensures body { result.body ≡ typed.term }
    ensures span { result.span ≡ typed.span }
{
    InitInfo {
        function: number_in(named_by(scope, &start.function)),
        body: typed.term,
        span: typed.span,
    }
}

/// An initial term, whose parameters are enumerable.
#[tactic(auto, using(crate::proofs::Steps::start_steps))]
fn start_def(alloc: Global, scope: &Scope, start: &StartTree) -> Result<InitInfo, TypeRefusal>
    ensures { Gives result (forms.start_refused scope.now start.now)
        (λ i. i ≡ forms.init_of scope.now start.now) }
{
    params_checked(alloc, scope, &start.params)?;
    let typed = body_typed(alloc, scope, &start.params, start.term.get())?;
    start_fits(alloc, scope, start, &typed)?;
    Ok(init_def(scope, start, typed))
}

#[tactic(auto, using(crate::proofs::Lists::starts_steps))]
fn all_starts(
    alloc: Global,
    scope: &Scope,
    starts: &[StartTree],
) -> Result<List<InitInfo>, TypeRefusal>
    ensures { Gives result (forms.starts_refused scope.now starts.now)
        (λ inits. inits ≡ forms.inits_at scope.now starts.now) }
{
    let mut inits = List::new(alloc);
    for start in starts {
        match start_def(alloc, scope, start) {
            Ok(def) => inits.push(def)?,
            Err(why) => return Err(why),
        }
    }
    Ok(inits)
}

/// The initial terms of a text.
#[tactic(auto, using(crate::proofs::Lists::no_starts_steps))]
pub(crate) fn starts_typed(
    alloc: Global,
    scope: &Scope,
    init: &Option<InitTree>,
) -> Result<List<InitInfo>, TypeRefusal>
    ensures { Gives result (forms.starts_refused scope.now (starts_of init.now))
        (λ inits. inits ≡ forms.inits_at scope.now (starts_of init.now)) }
{
    match init {
        Some(init) => all_starts(alloc, scope, init.starts.as_slice()),
        None => Ok(List::new(alloc)),
    }
}
