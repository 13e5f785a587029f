//! Invariants: what they are about, their terms, and the text of these.
ghost use Rattle.std.specs.Prelude.{◌≡◌, false, [], ◌∷◌, IfOk};
ghost use Rattle.asm_program.specs.TypedTerms.{checked};
ghost use Rattle.asm_program.specs.Typed as spec;
ghost use Rattle.asm_typed.specs.Answers.{Gives, Passes, IsTyped};
ghost use Rattle.asm_typed_models.specs.Forms as forms;

use crate::bodies::named_by;
use asm_items::invariant_name;
use asm_program::{Inv, Named, TypeRefusal};
use asm_scope::Scope;
use asm_syntax::{Span, TermTree, Token};
use asm_typed::{Typed, Variables, typed_at, unknown};
use asm_value::{Shared, Text};
use std::alloc::{AllocError, Global};

// ---- what an invariant is about

/// What a token's name stands for is a domain, a function or a macro rule.
#[tactic(auto, using(crate::proofs::Steps::refusals), unfolding(crate::specs::Forms::subject_refused))]
fn is_subject(alloc: Global, name: &Token, meant: Option<Named>) -> Result<(), TypeRefusal>
    ensures { Passes result (forms.subject_refused name.now meant) }
{
    match meant {
        Some(Named::Literal { .. }) => Err(TypeRefusal::Mismatch(name.span)),
        Some(Named::Enum(_))
        | Some(Named::Abstract(_))
        | Some(Named::Subset(_))
        | Some(Named::Function(_))
        | Some(Named::Macro(_))
        | Some(Named::Main) => Ok(()),
        None => Err(unknown(alloc, name)),
    }
}

/// What an invariant is about is a declared domain, function or macro rule.
fn subject(alloc: Global, scope: &Scope, name: &Token) -> Result<(), TypeRefusal>
    ensures { Passes result
        (forms.subject_refused name.now (forms.named_by scope.now name.now)) }
{
    is_subject(alloc, name, named_by(scope, name))
}

#[tactic(auto, using(crate::proofs::Steps::subjects_steps))]
fn all_subjects(alloc: Global, scope: &Scope, names: &[Token]) -> Result<(), TypeRefusal>
    ensures { Passes result (forms.subjects_refused scope.now names.now) }
{
    for name in names {
        subject(alloc, scope, name)?;
    }
    Ok(())
}

/// All that an invariant is about are declared domains, functions or macro rules.
#[tactic(auto, using(crate::proofs::Steps::subjects_steps))]
pub(crate) fn subjects(
    alloc: Global,
    scope: &Scope,
    first: &Token,
    others: &[Token],
) -> Result<(), TypeRefusal>
    ensures { Passes result (forms.subjects_refused scope.now (first.now ∷ others.now)) }
{
    subject(alloc, scope, first)?;
    all_subjects(alloc, scope, others)
}

// ---- terms

/// Whether no character is cut before this byte of the text.
#[tactic(auto, using(crate::proofs::Slices::boundary_steps))]
fn is_boundary(text: &str, at: usize) -> bool
    ensures { result ≡ spec.is_boundary text.now at }
{
    text.is_char_boundary(at)
}

/// The part of the text at a place, empty where that is none.
#[tactic(auto, using(crate::proofs::Slices::slice_steps))]
fn part_of(text: &str, span: Span) -> &str
    ensures { result.now ≡ spec.slice_of text.now span }
{
    let start = span.start as usize;
    let end = span.end as usize;
    if end < start {
        return "";
    }
    if !is_boundary(text, start) {
        return "";
    }
    if !is_boundary(text, end) {
        return "";
    }
    &text[start..end]
}

/// The term of an invariant, which is Boolean.
#[tactic(auto, using(crate::proofs::Steps::refusals), unfolding(crate::specs::Forms::invariant_refused))]
fn invariant_term(alloc: Global, scope: &Scope, term: &TermTree) -> Result<Typed, TypeRefusal>
    ensures { Gives result (forms.invariant_refused (checked scope.now term.now []))
        (λ t. IsTyped t (checked scope.now term.now [])) }
{
    let mut variables = Variables::new(alloc);
    let typed = typed_at(alloc, scope, &mut variables, term)?;
    typed.is_truth()?;
    Ok(typed)
}

/// An invariant of this name, with this term.
fn named_invariant(alloc: Global, text: &str, name: Text, typed: Typed) -> Result<Inv, AllocError>
    ensures { IfOk result (λ i. (i.name ≡ name) × (i.added ≡ false)
        × (i.source ≡ spec.slice_of text.now typed.span) × (i.term ≡ typed.term)) }
{
    let source = Text::from_str(alloc, part_of(text, typed.span))?;
    Ok(Inv {
        name,
        added: false,
        source,
        term: typed.term,
    })
}

/// The invariant with this number, from 1, which has a Boolean term.
#[tactic(auto, using(crate::proofs::Steps::invariant_steps))]
pub(crate) fn invariant_def(
    alloc: Global,
    text: &str,
    scope: &Scope,
    number: usize,
    name: &Option<Token>,
    term: &TermTree,
) -> Result<Shared<Inv>, TypeRefusal>
    ensures { Gives result (forms.invariant_refused (checked scope.now term.now []))
        (λ i. i ≡ forms.invariant_of text.now name.now (checked scope.now term.now []) number) }
{
    let typed = invariant_term(alloc, scope, term)?;
    let name = invariant_name(alloc, number, name)?;
    let inv = named_invariant(alloc, text, name, typed)?;
    Ok(Shared::new(alloc, inv)?)
}
