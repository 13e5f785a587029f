//! Ranges and parameters.
ghost use Rattle.std.specs.Prelude.{◌≡◌, [], ◌∷◌, ◌++◌, IfOk, OnOk, OnErr};
ghost use Rattle.asm_value.specs.declared.domain.Domain.TheViews.{out-Domain};
ghost use Rattle.asm_typing.specs.Domains.{type_of};
ghost use Rattle.asm_program.specs.Checks.{Checks};
ghost use Rattle.asm_program.specs.Items.{list_of_ranges, list_of_params};
ghost use Rattle.asm_program.specs.Signatures.{range_domain};
ghost use Rattle.asm_program.specs.TypedTerms as spec;
ghost use Rattle.asm_typed.specs.Answers.{Passes};
ghost use Rattle.asm_typed.specs.Sizes.{limited, ranges_refused, range_refused, with_ranges, range_domains};

use crate::sizes::{product, size, told};
use crate::variables::Variables;
use asm_program::{Limited, TypeRefusal};
use asm_scope::Scope;
use asm_syntax::{ParamsTree, RangeTree, RangesTree, Span};
use asm_typing::type_of;
use asm_value::{Boxed, Domain, Domains, List};
use std::alloc::{AllocError, Global};

// ---- enumerable domains

#[tactic(auto, unfolding(crate::specs::Sizes::limited))]
fn limit(kind: Limited, count: Option<u128>, span: Span) -> TypeRefusal
    ensures { result ≡ limited kind span count }
{
    match count {
        Some(count) => TypeRefusal::Limit(kind, count, span),
        None => TypeRefusal::NotEnumerable(span),
    }
}

/// Why the members of a domain can't be taken one by one.
#[tactic(auto, using(crate::proofs::InRanges::innumerable_steps))]
fn innumerable(domains: &Domains, domain: &Domain, span: Span) -> TypeRefusal
    ensures { result ≡ spec.innumerable domains.now span (out-Domain domain.now) }
{
    match domain {
        Domain::Prod(parts) => limit(Limited::Product, product(domains, parts.as_slice()), span),
        Domain::Power(item) => limit(Limited::Powerset, told(size(domains, item.get())), span),
        Domain::Truth
        | Domain::Int
        | Domain::Nat
        | Domain::Chars
        | Domain::Enum(_)
        | Domain::Abstract(_)
        | Domain::Subset(_)
        | Domain::Seq(_) => TypeRefusal::NotEnumerable(span),
    }
}

#[tactic(auto, using(crate::proofs::Refusals::refusal_steps))]
fn enumerable(domains: &Domains, domain: &Domain, span: Span) -> Result<(), TypeRefusal>
    ensures { Passes result (spec.enumerable_refused domains.now domain.now span) }
{
    match size(domains, domain) {
        Some(_) => Ok(()),
        None => Err(innumerable(domains, domain, span)),
    }
}

#[tactic(auto, using(crate::proofs::Refusals::refusal_steps), unfolding(crate::specs::Sizes::range_refused))]
fn range_enumerable(alloc: Global, scope: &Scope, range: &RangeTree) -> Result<(), TypeRefusal>
    ensures { Passes result (range_refused scope.now range.now) }
{
    let domain = scope.domain_of(alloc, range.domain.get())?;
    enumerable(scope.domains(), domain.get(), range.domain.get().span())
}

#[tactic(auto, using(crate::proofs::InRanges::all_steps))]
fn all_enumerable(alloc: Global, scope: &Scope, ranges: &[RangeTree]) -> Result<(), TypeRefusal>
    ensures { Passes result (ranges_refused scope.now ranges.now) }
{
    for range in ranges {
        range_enumerable(alloc, scope, range)?;
    }
    Ok(())
}

/// The domains of ranges are enumerable, or the first that isn't is refused.
#[tactic(auto, using(crate::proofs::InRanges::ranges_steps))]
pub fn ranges_enumerable(
    alloc: Global,
    scope: &Scope,
    ranges: &RangesTree,
) -> Result<(), TypeRefusal>
    ensures { Passes result (ranges_refused scope.now (list_of_ranges ranges.now)) }
{
    range_enumerable(alloc, scope, &ranges.first)?;
    all_enumerable(alloc, scope, ranges.others.as_slice())
}

// ---- variables of ranges

/// The variable of one more range comes into scope, and its domain after the others.
fn add_range(
    alloc: Global,
    scope: &Scope,
    variables: &mut Variables,
    domains: &mut List<Domain>,
    range: &RangeTree,
) -> Result<(), AllocError>
    ensures variables { OnOk result (variables.new ≡ spec.with_variable variables.old
        range.now.variable (type_of (range_domain scope.now.names range.now))) }
    ensures domains { OnOk result
        (domains.new ≡ domains.old ++ range_domain scope.now.names range.now ∷ []) }
    ensures kept { OnErr result (variables.new ≡ variables.old) }
{
    let domain = scope.domain_of(alloc, range.domain.get())?;
    let of = Boxed::new(alloc, type_of(alloc, domain.get())?)?;
    domains.push(domain.into_inner())?;
    variables.push(alloc, &range.variable, of)
}

#[tactic(auto, using(crate::proofs::InRanges::more_steps))]
fn add_all(
    alloc: Global,
    scope: &Scope,
    variables: &mut Variables,
    domains: &mut List<Domain>,
    ranges: &[RangeTree],
) -> Result<(), AllocError>
    ensures variables { OnOk result
        (variables.new ≡ with_ranges scope.now variables.old ranges.now) }
    ensures domains { OnOk result
        (domains.new ≡ domains.old ++ range_domains scope.now ranges.now) }
    ensures kept { OnErr result (variables.new ≡ variables.old) }
{
    let outer = variables.len();
    for range in ranges {
        match add_range(alloc, scope, variables, domains, range) {
            Ok(()) => {}
            Err(fault) => {
                variables.truncate(outer);
                return Err(fault);
            }
        }
    }
    Ok(())
}

/// The variables of the ranges come into scope, and these are their domains. On `AllocError`, want of
/// memory, none has.
#[tactic(auto, using(crate::proofs::InRanges::added_steps))]
pub fn add_ranges(
    alloc: Global,
    scope: &Scope,
    variables: &mut Variables,
    ranges: &RangesTree,
) -> Result<List<Domain>, AllocError>
    ensures variables { OnOk result
        (variables.new ≡ with_ranges scope.now variables.old (list_of_ranges ranges.now)) }
    ensures domains { IfOk result
        (λ ds. ds ≡ range_domains scope.now (list_of_ranges ranges.now)) }
    ensures kept { OnErr result (variables.new ≡ variables.old) }
{
    let outer = variables.len();
    let mut domains = List::new(alloc);
    add_range(alloc, scope, variables, &mut domains, &ranges.first)?;
    match add_all(
        alloc,
        scope,
        variables,
        &mut domains,
        ranges.others.as_slice(),
    ) {
        Ok(()) => Ok(domains),
        Err(fault) => {
            variables.truncate(outer);
            Err(fault)
        }
    }
}

// ---- parameters

/// Params as in a definition: their domains are enumerable, or the first that isn't is refused.
#[tactic(auto, using(crate::proofs::InRanges::params_steps))]
fn params_checked(
    alloc: Global,
    scope: &Scope,
    params: &Option<ParamsTree>,
) -> Result<(), TypeRefusal>
    ensures { Passes result
        (ranges_refused scope.now (list_of_params params.now)) }
{
    match params {
        Some(params) => ranges_enumerable(alloc, scope, &params.ranges),
        None => Ok(()),
    }
}

/// The domains of parameters are enumerable, or the first that isn't is refused.
pub fn params_enumerable(
    alloc: Global,
    scope: &Scope,
    params: &Option<ParamsTree>,
) -> Result<(), TypeRefusal>
    ensures { Checks result
        (spec.ranges_refused scope.now (list_of_params params.now))
        (λ _. Unit {0}) }
{
    params_checked(alloc, scope, params)
}

/// The parameters alone in scope. `AllocError` is want of memory.
#[tactic(auto, using(crate::proofs::InRanges::params_steps))]
pub fn param_variables(
    alloc: Global,
    scope: &Scope,
    params: &Option<ParamsTree>,
) -> Result<Variables, AllocError>
    ensures { IfOk result (λ v. v ≡ with_ranges scope.now []
        (list_of_params params.now)) }
{
    let mut variables = Variables::new(alloc);
    match params {
        Some(params) => {
            let _ = add_ranges(alloc, scope, &mut variables, &params.ranges)?;
            Ok(variables)
        }
        None => Ok(variables),
    }
}
