//! Trees of what was read.
ghost use Rattle.std.specs.Prelude.{◌≡◌, IfOk, Some};
ghost use Rattle.asm_syntax.specs.declared.tree.TermTree.TheVariants as terms;
ghost use Rattle.asm_syntax.specs.Extents.{with_extent};
ghost use Rattle.asm_syntax.specs.Terms.{tuple_of, set_of};
ghost use Rattle.asm_parse_prims.specs.Sets.{items_of, rest_of, listed_set};

use asm_syntax::{BindsTree, Boxed, CaseTree, List, RangesTree, Span, TermTree, TermsTree};
use std::alloc::{AllocError, Global};

/// What is after the first item of a set.
#[derive(Drop)]
pub(crate) enum Further {
    Nothing,
    /// The other end of a range.
    To(Boxed<TermTree>),
    And(List<Boxed<TermTree>>),
}

/// The guard, and the terms where it holds and after `else`.
pub(crate) type IfParts = (Boxed<TermTree>, (Boxed<TermTree>, Option<Boxed<TermTree>>));

/// What is bound, and the body.
pub(crate) type LetParts = (BindsTree, Boxed<TermTree>);

/// The term that is compared, the cases, and the term after `otherwise`.
pub(crate) type SwitchParts = (Boxed<TermTree>, (List<CaseTree>, Option<Boxed<TermTree>>));

/// The ranges, and the body.
pub(crate) type RangedParts = (RangesTree, Boxed<TermTree>);

pub(crate) fn if_tree(
    alloc: Global,
    span: Span,
    parts: IfParts,
) -> Result<Boxed<TermTree>, AllocError>
    ensures { IfOk result (λ term. term ≡ terms.If parts.0 parts.1.0 parts.1.1 span) }
{
    let (guard, (first, other)) = parts;
    Boxed::new(alloc, TermTree::If(guard, first, other, span))
}

pub(crate) fn let_tree(
    alloc: Global,
    span: Span,
    parts: LetParts,
) -> Result<Boxed<TermTree>, AllocError>
    ensures { IfOk result (λ term. term ≡ terms.Let parts.0 parts.1 span) }
{
    let (binds, body) = parts;
    Boxed::new(alloc, TermTree::Let(binds, body, span))
}

pub(crate) fn switch_tree(
    alloc: Global,
    span: Span,
    parts: SwitchParts,
) -> Result<Boxed<TermTree>, AllocError>
    ensures { IfOk result (λ term. term ≡ terms.Switch parts.0 parts.1.0 parts.1.1 span) }
{
    let (value, (cases, other)) = parts;
    Boxed::new(alloc, TermTree::Switch(value, cases, other, span))
}

pub(crate) fn forall_tree(
    alloc: Global,
    span: Span,
    parts: RangedParts,
) -> Result<Boxed<TermTree>, AllocError>
    ensures { IfOk result (λ term. term ≡ terms.Forall parts.0 parts.1 span) }
{
    let (ranges, body) = parts;
    Boxed::new(alloc, TermTree::Forall(ranges, body, span))
}

pub(crate) fn exist_tree(
    alloc: Global,
    span: Span,
    is_unique: bool,
    parts: RangedParts,
) -> Result<Boxed<TermTree>, AllocError>
    ensures { IfOk result (λ term. term ≡ terms.Exist is_unique parts.0 parts.1 span) }
{
    let (ranges, body) = parts;
    Boxed::new(alloc, TermTree::Exist(is_unique, ranges, body, span))
}

/// The term itself, where it is alone, or else the tuple of all.
pub(crate) fn tuple(
    alloc: Global,
    span: Span,
    first: Boxed<TermTree>,
    others: List<Boxed<TermTree>>,
) -> Result<Boxed<TermTree>, AllocError>
    ensures { IfOk result (λ term. term ≡ tuple_of span (first, others)) }
{
    if others.len() == 0 {
        return Ok(first);
    }
    Boxed::new(alloc, TermTree::Tuple(TermsTree { first, others }, span))
}

/// The set of these items.
pub(crate) fn set(
    alloc: Global,
    span: Span,
    items: Option<(Boxed<TermTree>, Further)>,
) -> Result<Boxed<TermTree>, AllocError>
    ensures { IfOk result (λ term. term ≡ set_of span (items_of items)) }
{
    match items {
        None => Boxed::new(alloc, TermTree::Set(None, span)),
        Some((first, further)) => set_from(alloc, span, first, further),
    }
}

/// The set of the first item and what is after it.
fn set_from(
    alloc: Global,
    span: Span,
    first: Boxed<TermTree>,
    further: Further,
) -> Result<Boxed<TermTree>, AllocError>
    ensures { IfOk result (λ term. term ≡ set_of span (Some (first, rest_of further))) }
{
    match further {
        Further::Nothing => listed_set(alloc, span, first, List::new(alloc)),
        Further::To(last) => Boxed::new(alloc, TermTree::Interval(first, last, span)),
        Further::And(others) => listed_set(alloc, span, first, others),
    }
}

/// The set of one term or more.
fn listed_set(
    alloc: Global,
    span: Span,
    first: Boxed<TermTree>,
    others: List<Boxed<TermTree>>,
) -> Result<Boxed<TermTree>, AllocError>
    ensures { IfOk result (λ term. term ≡ listed_set span first others) }
{
    Boxed::new(
        alloc,
        TermTree::Set(Some(TermsTree { first, others }), span),
    )
}

/// The same term with this span, in a box of its own.
pub(crate) fn with_extent(
    alloc: Global,
    span: Span,
    term: Boxed<TermTree>,
) -> Result<Boxed<TermTree>, AllocError>
    ensures { IfOk result (λ t. t ≡ with_extent span term) }
{
    Boxed::new(alloc, spanned(span, term.into_inner()))
}

/// The same term with this span.
#[tactic(auto, unfolding(asm_syntax::specs::Extents::with_extent))]
fn spanned(span: Span, term: TermTree) -> TermTree
    ensures { result ≡ with_extent span term }
{
    match term {
        TermTree::Prefix(op, t, _) => TermTree::Prefix(op, t, span),
        TermTree::Binary(left, op, right, _) => TermTree::Binary(left, op, right, span),
        TermTree::Number(t, _) => TermTree::Number(t, span),
        TermTree::Chars(t, _) => TermTree::Chars(t, span),
        TermTree::True(_) => TermTree::True(span),
        TermTree::False(_) => TermTree::False(span),
        TermTree::Undef(_) => TermTree::Undef(span),
        TermTree::Var(t, _) => TermTree::Var(t, span),
        TermTree::Name(t, args, _) => TermTree::Name(t, args, span),
        TermTree::Tuple(items, _) => TermTree::Tuple(items, span),
        TermTree::Forall(ranges, body, _) => TermTree::Forall(ranges, body, span),
        TermTree::Exist(unique, ranges, body, _) => TermTree::Exist(unique, ranges, body, span),
        TermTree::Interval(from, to, _) => TermTree::Interval(from, to, span),
        TermTree::Set(items, _) => TermTree::Set(items, span),
        TermTree::Seq(items, _) => TermTree::Seq(items, span),
        TermTree::If(guard, first, other, _) => TermTree::If(guard, first, other, span),
        TermTree::Let(binds, body, _) => TermTree::Let(binds, body, span),
        TermTree::Switch(t, cases, other, _) => TermTree::Switch(t, cases, other, span),
    }
}
