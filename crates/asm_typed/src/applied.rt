//! Operators, functions and literals with typed arguments.
ghost use Rattle.std.specs.Prelude.{◌≡◌, IfOk, take, map};
ghost use Rattle.std.specs.List.{count_by};
ghost use Rattle.asm_typing.specs.Fits.{fits};
ghost use Rattle.asm_typing.specs.Domains.{type_of};
ghost use Rattle.asm_program.specs.TypedTerms as spec;
ghost use Rattle.asm_typed.specs.Answers.{Passes, GivesTerm};
ghost use Rattle.asm_typed.specs.Own as own;

use crate::typed::{AllTyped, Typed};
use asm_program::{FunctionKind, Term, TypeRefusal};
use asm_scope::{Header, Scope};
use asm_syntax::Span;
use asm_typing::{Type, each_fits, fits, operator_type, type_of, types_of};
use asm_value::{Boxed, Domain, List, Value};
use std::alloc::{AllocError, Global};

/// An operator with its operands. Mismatch where none of its rows takes them.
#[tactic(auto, using(crate::proofs::Refusals::refusal_steps), unfolding(crate::specs::Own::operator_own))]
pub(crate) fn operator(
    alloc: Global,
    name: &str,
    args: AllTyped,
    span: Span,
) -> Result<Typed, TypeRefusal>
    ensures { GivesTerm result (own.operator_own name.now args.types args.terms span) }
{
    match operator_type(alloc, name, args.types.as_slice())? {
        Some(operator) => {
            let of = Boxed::new(alloc, operator.result)?;
            let term = Term::Operator {
                operation: operator.operation,
                args: args.terms,
                span,
            };
            let term = Boxed::new(alloc, term)?;
            Ok(Typed { of, term, span })
        }
        None => Err(TypeRefusal::Mismatch(span)),
    }
}

/// Whether the type fits the domain. `AllocError` is want of memory.
pub fn arg_fits(alloc: Global, of: &Type, domain: &Domain) -> Result<bool, AllocError>
    ensures { IfOk result (λ b. b ≡ fits of.now (type_of domain.now)) }
{
    let wanted = Boxed::new(alloc, type_of(alloc, domain)?)?;
    Ok(fits(of, wanted.get()))
}

/// Whether types fit domains, in number too. `AllocError` is want of memory.
pub fn args_fit(alloc: Global, types: &[Type], domains: &[Domain]) -> Result<bool, AllocError>
    ensures { IfOk result (λ b. b ≡ spec.args_fit types.now domains.now) }
{
    let wanted = types_of(alloc, domains)?;
    Ok(each_fits(types, wanted.as_slice()))
}

/// The arguments of a call. Mismatch where they don't fit the domains.
#[tactic(auto, using(crate::proofs::Refusals::refusal_steps), unfolding(crate::specs::Own::args_refused))]
pub fn args_checked(
    alloc: Global,
    types: &[Type],
    domains: &[Domain],
    span: Span,
) -> Result<(), TypeRefusal>
    ensures { Passes result (own.args_refused types.now domains.now span) }
{
    if args_fit(alloc, types, domains)? {
        Ok(())
    } else {
        Err(TypeRefusal::Mismatch(span))
    }
}

// ---- functions

fn is_constant_of(header: &Header, domain: u16) -> bool
    ensures { result ≡ spec.is_constant_of domain header.now }
{
    match header.kind() {
        FunctionKind::Constant => match header.result() {
            Domain::Abstract(number) => *number == domain,
            Domain::Truth
            | Domain::Int
            | Domain::Nat
            | Domain::Chars
            | Domain::Enum(_)
            | Domain::Subset(_)
            | Domain::Prod(_)
            | Domain::Seq(_)
            | Domain::Power(_) => false,
        },
        FunctionKind::Static
        | FunctionKind::Derived
        | FunctionKind::Controlled
        | FunctionKind::Monitored
        | FunctionKind::Shared
        | FunctionKind::Out => false,
    }
}

/// How many of the first functions are constants of the domain.
fn constants_before(functions: &[Header], before: u16, domain: u16) -> u16
    ensures { result ≡ count_by (spec.is_constant_of domain) (take before functions.now) }
{
    let mut count: u16 = 0;
    for at in 0..before {
        if usize::from(at) < functions.len()
            && is_constant_of(&functions[usize::from(at)], domain)
        {
            count += 1;
        }
    }
    count
}

/// The member that a constant is.
fn constant(functions: &[Header], function: u16, codomain: &Domain) -> Value
    ensures { result
        ≡ spec.constant_value functions.now function (spec.abstract_number codomain.now) }
{
    match codomain {
        Domain::Abstract(domain) => Value::Member {
            domain: *domain,
            index: constants_before(functions, function, *domain),
        },
        Domain::Truth
        | Domain::Int
        | Domain::Nat
        | Domain::Chars
        | Domain::Enum(_)
        | Domain::Subset(_)
        | Domain::Prod(_)
        | Domain::Seq(_)
        | Domain::Power(_) => Value::Undef,
    }
}

/// A function's term, boxed at once. `AllocError` is want of memory.
fn function_term(
    alloc: Global,
    functions: &[Header],
    function: u16,
    header: &Header,
    args: List<Boxed<Term>>,
) -> Result<Boxed<Term>, AllocError>
    ensures { IfOk result (λ t. t
        ≡ spec.function_term functions.now function header.now header.now.kind args) }
{
    match header.kind() {
        FunctionKind::Static | FunctionKind::Derived => {
            Boxed::new(alloc, Term::Call { function, args })
        }
        FunctionKind::Controlled
        | FunctionKind::Monitored
        | FunctionKind::Shared
        | FunctionKind::Out => Boxed::new(alloc, Term::Read { function, args }),
        FunctionKind::Constant => {
            Boxed::new(
                alloc,
                Term::Constant(constant(functions, function, header.result())),
            )
        }
    }
}

/// A function with its arguments. Mismatch where they don't fit.
#[tactic(auto, using(crate::proofs::Refusals::refusal_steps), unfolding(crate::specs::Own::function_own))]
pub(crate) fn function(
    alloc: Global,
    scope: &Scope,
    function: u16,
    header: &Header,
    args: AllTyped,
    span: Span,
) -> Result<Typed, TypeRefusal>
    ensures { GivesTerm result
        (own.function_own scope.now.functions function header.now args.types args.terms span) }
{
    args_checked(alloc, args.types.as_slice(), header.args(), span)?;
    let of = Boxed::new(alloc, type_of(alloc, header.result())?)?;
    let term = function_term(alloc, scope.functions(), function, header, args.terms)?;
    Ok(Typed { of, term, span })
}

/// A literal of an enumeration, which takes no arguments.
#[tactic(auto, using(crate::proofs::Refusals::refusal_steps), unfolding(crate::specs::Own::literal_own))]
pub(crate) fn literal(
    alloc: Global,
    domain: u16,
    index: u16,
    args: AllTyped,
    span: Span,
) -> Result<Typed, TypeRefusal>
    ensures { GivesTerm result (own.literal_own domain index args.types span) }
{
    args_checked(alloc, args.types.as_slice(), &[], span)?;
    let of = Boxed::new(alloc, Type::Enum(domain))?;
    let term = Boxed::new(alloc, Term::Constant(Value::Member { domain, index }))?;
    Ok(Typed { of, term, span })
}
