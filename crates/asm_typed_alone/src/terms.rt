//! Terms alone, over what a program declares.
ghost use Rattle.std.specs.Prelude.{◌≡◌, ◌++◌, [], IfOk};
ghost use Rattle.asm_typing.specs.Domains.{domain_of};
ghost use Rattle.asm_program.specs.Checks.{Checks};
ghost use Rattle.asm_program.specs.Items.{term_items};
ghost use Rattle.asm_program.specs.NamesPass.{names_refused};
ghost use Rattle.asm_program.specs.DomainsPass.{domains_refused};
ghost use Rattle.asm_program.specs.TypedTerms.{checked, or_else};
ghost use Rattle.asm_program.specs.TypedAlone.{term_refused, scope_of_program, checked_alone};
ghost use Rattle.asm_program.specs.TypedAlone.{is_wanted};
ghost use Rattle.asm_typed.specs.Answers.{IsTyped, done};
ghost use Rattle.asm_typed_alone.specs.Alone.{IsTypedTerm};

use crate::limits::counts_checked;
use crate::scope::scope_of;
use asm_names::term_declared;
use asm_program::{Program, Term, TypeRefusal};
use asm_scope::Scope;
use asm_syntax::TermTree;
use asm_typed::{Typed, Variables, term_typed};
use asm_typing::{Type, domain_of, fits, type_of};
use asm_value::{Boxed, Domain};
use std::alloc::{AllocError, Global};

/// A term with numbers for its names.
#[derive(Drop)]
pub struct TypedTerm {
    pub term: Boxed<Term>,
    /// The domain of its values, with Int for Natural and subsets, and Truth for each part of which
    /// nothing is known.
    pub domain: Boxed<Domain>,
    /// The nodes that are looked at, at most 2^24.
    pub work: u64,
}

/// A term without variables in scope.
fn typed_bare(alloc: Global, scope: &Scope, tree: &TermTree) -> Result<Typed, TypeRefusal>
    ensures { Checks result (checked scope.now tree.now []).refused
        (λ t. IsTyped t (checked scope.now tree.now [])) }
{
    let mut variables = Variables::new(alloc);
    term_typed(alloc, scope, &mut variables, tree)
}

/// The type of a term fits the domain that is wanted, if one is.
fn fits_wanted(alloc: Global, typed: &Typed, wanted: &Option<Domain>) -> Result<(), TypeRefusal>
    ensures { Checks result (is_wanted wanted.now (done typed.now)) (λ _. Unit {0}) }
{
    match wanted {
        None => Ok(()),
        Some(domain) => {
            let one = type_of(alloc, domain)?;
            if fits(typed.of.get(), &one) {
                Ok(())
            } else {
                Err(TypeRefusal::Mismatch(typed.span))
            }
        }
    }
}

/// A term of the domain that is wanted, if one is.
#[tactic(auto, using(crate::proofs::TermSteps::wanted_steps))]
fn typed_wanted(
    alloc: Global,
    scope: &Scope,
    tree: &TermTree,
    wanted: &Option<Domain>,
) -> Result<Typed, TypeRefusal>
    ensures { Checks result
        (or_else (checked scope.now tree.now []).refused
        (is_wanted wanted.now (checked scope.now tree.now [])))
        (λ t. IsTyped t (checked scope.now tree.now [])) }
{
    let typed = typed_bare(alloc, scope, tree)?;
    fits_wanted(alloc, &typed, wanted)?;
    Ok(typed)
}

/// A term whose names, domains and types are right.
#[tactic(auto, using(crate::proofs::TermSteps::alone_steps))]
fn typed_alone(
    alloc: Global,
    program: &Program,
    tree: &TermTree,
    wanted: &Option<Domain>,
) -> Result<Typed, TypeRefusal>
    ensures { Checks result
        (names_refused (term_items tree.now)
        ++ domains_refused [] (scope_of_program program.now).names (term_items tree.now)
        ++ or_else (checked_alone program.now tree.now).refused
        (is_wanted wanted.now (checked_alone program.now tree.now)))
        (λ t. IsTyped t (checked_alone program.now tree.now)) }
{
    let scope = scope_of(alloc, program)?;
    term_declared(alloc, &scope, tree)?;
    typed_wanted(alloc, &scope, tree, wanted)
}

/// The domain of all values of the type.
fn domain_for(alloc: Global, one: &Type) -> Result<Boxed<Domain>, AllocError>
    ensures { IfOk result (λ d. d ≡ domain_of one.now) }
{
    Boxed::new(alloc, domain_of(alloc, one)?)
}

fn typed_term(typed: Typed, domain: Boxed<Domain>, work: u64) -> TypedTerm
    ensures term { result.term ≡ typed.term }
    ensures domain { result.domain ≡ domain }
    ensures work { result.work ≡ work }
{
    let Typed { term, .. } = typed;
    TypedTerm { term, domain, work }
}

#[tactic(auto, using(crate::proofs::TermSteps::term_steps))]
fn checked_term(
    alloc: Global,
    program: &Program,
    tree: &TermTree,
    wanted: &Option<Domain>,
) -> Result<TypedTerm, TypeRefusal>
    ensures { Checks result (term_refused program.now wanted.now tree.now)
        (IsTypedTerm program.now tree.now) }
{
    let typed = typed_alone(alloc, program, tree, wanted)?;
    let work = counts_checked(alloc, program, typed.term.get(), tree.span())?;
    let domain = domain_for(alloc, typed.of.get())?;
    Ok(typed_term(typed, domain, work))
}

/// A term over what a program declares, without variables and macro rules, or its first refusal:
/// of names and domains, of types, of depth and work. Where a domain is wanted, its type has to fit
/// it. What counts is placed at the whole term. Time and memory go with the size of the tree and of
/// what the program declares.
pub fn check_term(
    alloc: Global,
    program: &Program,
    tree: &TermTree,
    wanted: Option<Domain>,
) -> Result<TypedTerm, TypeRefusal>
    ensures { Checks result (term_refused program.now wanted tree.now)
        (IsTypedTerm program.now tree.now) }
{
    checked_term(alloc, program, tree, &wanted)
}
