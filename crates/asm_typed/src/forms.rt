//! What terms are made of parts that are typed.
ghost use Rattle.std.specs.Prelude.{◌≡◌, [], ◌++◌, ◌∷◌, map, IfOk, OnOk, Some, None, is_some};
ghost use Rattle.asm_typing.specs.Joins.{join};
ghost use Rattle.std.specs.Option.{option_map};
ghost use Rattle.std.specs.Str.{bytes_eq};
ghost use Rattle.asm_typing.specs.declared.types.Type.TheVariants as type;
ghost use Rattle.asm_program.specs.declared.trees.Term.TheVariants as terms;
ghost use Rattle.asm_program.specs.declared.trees.Term.TheViews.{roll-Case};
ghost use Rattle.asm_program.specs.TypedTerms as spec;
ghost use Rattle.asm_typed.specs.Answers.{Gives, Passes, GivesTerm, IsTyped, done, finished};
ghost use Rattle.asm_typed.specs.Forms as forms;
ghost use Rattle.asm_typed.specs.Own as own;

use crate::applied::operator;
use crate::typed::{AllTyped, Typed};
use asm_program::{Case, Term, TypeRefusal};
use asm_syntax::Span;
use asm_typing::{Type, copy_boxed, fits, join, join_all};
use asm_value::{Boxed, Domain, List};
use std::alloc::{AllocError, Global};

// ---- operators

/// `and`, `or` and `implies` have forms of their own.
#[derive(Clone, Copy)]
enum Connective {
    And,
    Or,
    Implies,
}

/// The connective of this name, if it is one.
fn connective_of(op: &str) -> Option<Connective>
    ensures { result ≡ forms.connective op.now }
{
    if op == "and" {
        Some(Connective::And)
    } else if op == "or" {
        Some(Connective::Or)
    } else if op == "implies" {
        Some(Connective::Implies)
    } else {
        None
    }
}

fn connection(
    alloc: Global,
    connective: Connective,
    left: Boxed<Term>,
    right: Boxed<Term>,
) -> Result<Boxed<Term>, AllocError>
    ensures { IfOk result (λ t. t ≡ forms.connection connective left right) }
{
    match connective {
        Connective::And => Boxed::new(alloc, Term::And { left, right }),
        Connective::Or => Boxed::new(alloc, Term::Or { left, right }),
        Connective::Implies => Boxed::new(alloc, Term::Implies { left, right }),
    }
}

/// Both parts have to be Boolean.
#[tactic(auto, using(crate::proofs::Refusals::refusal_steps), unfolding(crate::specs::Forms::connected))]
fn connected(
    alloc: Global,
    connective: Connective,
    left: Typed,
    right: Typed,
    span: Span,
) -> Result<Typed, TypeRefusal>
    ensures { GivesTerm result
        (forms.connected (forms.connection connective) (done left) (done right) span) }
{
    left.is_truth()?;
    right.is_truth()?;
    let of = Boxed::new(alloc, Type::Truth)?;
    let term = connection(alloc, connective, left.term, right.term)?;
    Ok(Typed { of, term, span })
}

/// An operator between two operands.
#[tactic(auto, using(crate::proofs::Parts::operated_steps))]
fn operated(
    alloc: Global,
    op: &str,
    left: Typed,
    right: Typed,
    span: Span,
) -> Result<Typed, TypeRefusal>
    ensures { GivesTerm result (forms.operated op.now (done left ∷ done right ∷ []) span) }
{
    let mut args = AllTyped::new(alloc);
    args.push(left)?;
    args.push(right)?;
    operator(alloc, op, args, span)
}

#[tactic(auto, using(crate::proofs::Parts::binary_steps))]
pub(crate) fn binary_typed(
    alloc: Global,
    op: &str,
    left: Typed,
    right: Typed,
    span: Span,
) -> Result<Typed, TypeRefusal>
    ensures { GivesTerm result (forms.binary op.now (done left) (done right) span) }
{
    match connective_of(op) {
        Some(connective) => connected(alloc, connective, left, right, span),
        None => operated(alloc, op, left, right, span),
    }
}

// ---- tuples, sets and sequences

#[tactic(auto, unfolding(crate::specs::Own::tuple_own))]
pub(crate) fn tuple_typed(alloc: Global, items: AllTyped, span: Span) -> Result<Typed, AllocError>
    ensures { IfOk result (λ t. IsTyped t
        (own.tuple_own items.types items.terms span)) }
{
    let of = Boxed::new(alloc, Type::Prod(items.types))?;
    let items = items.terms;
    let term = Boxed::new(alloc, Term::Tuple { items, span })?;
    Ok(Typed { of, term, span })
}

/// What the types join to. Mismatch where they have no join.
#[tactic(auto, using(crate::proofs::Refusals::refusal_steps), unfolding(crate::specs::Own::join_refused, crate::specs::Own::joined))]
fn joined(alloc: Global, types: &[Type], span: Span) -> Result<Boxed<Type>, TypeRefusal>
    ensures { Gives result (own.join_refused types.now span) (λ t. t ≡ own.joined types.now) }
{
    match join_all(alloc, types)? {
        Some(of) => Ok(Boxed::new(alloc, of)?),
        None => Err(TypeRefusal::Mismatch(span)),
    }
}

#[tactic(auto, using(crate::proofs::Refusals::refusal_steps), unfolding(crate::specs::Own::set_own))]
pub(crate) fn set_typed(alloc: Global, items: AllTyped, span: Span) -> Result<Typed, TypeRefusal>
    ensures { GivesTerm result (own.set_own items.types items.terms span) }
{
    let of = joined(alloc, items.types.as_slice(), span)?;
    let of = Boxed::new(alloc, Type::Set(of))?;
    let items = items.terms;
    let term = Boxed::new(alloc, Term::Set { items, span })?;
    Ok(Typed { of, term, span })
}

#[tactic(auto, using(crate::proofs::Refusals::refusal_steps), unfolding(crate::specs::Own::sequence_own))]
pub(crate) fn sequence_typed(
    alloc: Global,
    items: AllTyped,
    span: Span,
) -> Result<Typed, TypeRefusal>
    ensures { GivesTerm result (own.sequence_own items.types items.terms span) }
{
    let of = joined(alloc, items.types.as_slice(), span)?;
    let of = Boxed::new(alloc, Type::Seq(of))?;
    let items = items.terms;
    let term = Boxed::new(alloc, Term::Seq { items, span })?;
    Ok(Typed { of, term, span })
}

/// Both ends have to be integers.
#[tactic(auto, using(crate::proofs::Refusals::refusal_steps), unfolding(crate::specs::Forms::interval))]
pub(crate) fn interval_typed(
    alloc: Global,
    from: Typed,
    to: Typed,
    span: Span,
) -> Result<Typed, TypeRefusal>
    ensures { GivesTerm result (forms.interval (done from) (done to) span) }
{
    if !(fits(from.of.get(), &Type::Int) && fits(to.of.get(), &Type::Int)) {
        return Err(TypeRefusal::Mismatch(span));
    }
    let item = Boxed::new(alloc, Type::Int)?;
    let of = Boxed::new(alloc, Type::Set(item))?;
    let term = Term::Interval {
        from: from.term,
        to: to.term,
        span,
    };
    let term = Boxed::new(alloc, term)?;
    Ok(Typed { of, term, span })
}

// ---- quantifiers

/// What a quantifier says of its body.
#[derive(Clone, Copy)]
pub enum Quantifier {
    Forall,
    Exist,
    ExistUnique,
}

impl Quantifier {
    /// There is one, or just one.
    pub fn exist(unique: bool) -> Quantifier
        ensures { forms.quantifier_form result ≡ spec.exists_form unique }
    {
        if unique {
            Quantifier::ExistUnique
        } else {
            Quantifier::Exist
        }
    }
}

fn quantification(
    alloc: Global,
    quantifier: Quantifier,
    ranges: List<Domain>,
    body: Boxed<Term>,
) -> Result<Boxed<Term>, AllocError>
    ensures { IfOk result (λ t. t ≡ forms.quantifier_form quantifier ranges body) }
{
    match quantifier {
        Quantifier::Forall => Boxed::new(alloc, Term::Forall { ranges, body }),
        Quantifier::Exist => Boxed::new(alloc, Term::Exist { ranges, body }),
        Quantifier::ExistUnique => Boxed::new(alloc, Term::ExistUnique { ranges, body }),
    }
}

/// The body has to be Boolean.
#[tactic(auto, using(crate::proofs::Refusals::refusal_steps), unfolding(crate::specs::Forms::quantified))]
pub(crate) fn quantified(
    alloc: Global,
    quantifier: Quantifier,
    ranges: List<Domain>,
    body: Typed,
    span: Span,
) -> Result<Typed, TypeRefusal>
    ensures { GivesTerm result
        (forms.quantified (forms.quantifier_form quantifier) [] ranges (done body) span) }
{
    body.is_truth()?;
    let of = Boxed::new(alloc, Type::Truth)?;
    let term = quantification(alloc, quantifier, ranges, body.term)?;
    Ok(Typed { of, term, span })
}

// ---- conditional terms

/// The types of a part and of the other one, if there is one.
fn part_types(alloc: Global, first: &Type, other: &Option<Typed>) -> Result<List<Type>, AllocError>
    ensures { IfOk result (λ ts. ts
        ≡ first.now ∷ spec.types (spec.some_checked (option_map done other.now))) }
{
    let first = copy_boxed(alloc, first)?;
    let mut types = List::only(alloc, first.into_inner())?;
    if let Some(other) = other {
        types.push(copy_boxed(alloc, other.of.get())?.into_inner())?;
    }
    Ok(types)
}

fn other_term(other: Option<Typed>) -> Option<Boxed<Term>>
    ensures { result ≡ spec.some_term (option_map done other) }
{
    match other {
        Some(other) => Some(other.term),
        None => None,
    }
}

#[tactic(auto, using(crate::proofs::Refusals::refusal_steps), unfolding(crate::specs::Own::conditional_own))]
pub(crate) fn conditional_typed(
    alloc: Global,
    guard: Typed,
    first: Typed,
    other: Option<Typed>,
    span: Span,
) -> Result<Typed, TypeRefusal>
    ensures { GivesTerm result
        (own.conditional_own (done guard) (done first) (option_map done other) span) }
{
    let types = part_types(alloc, first.of.get(), &other)?;
    let of = joined(alloc, types.as_slice(), span)?;
    guard.is_truth()?;
    let term = Term::If {
        guard: guard.term,
        then: first.term,
        other: other_term(other),
    };
    let term = Boxed::new(alloc, term)?;
    Ok(Typed { of, term, span })
}

// ---- bound variables

pub(crate) fn let_typed(
    alloc: Global,
    values: List<Boxed<Term>>,
    body: Typed,
    span: Span,
) -> Result<Typed, AllocError>
    ensures { IfOk result (λ t. IsTyped t
        (finished body.of (terms.Let values body.term) span)) }
{
    let term = Term::Let {
        values,
        body: body.term,
    };
    let term = Boxed::new(alloc, term)?;
    let of = body.of;
    Ok(Typed { of, term, span })
}

// ---- switches

/// The cases of a switch: the types of what is compared, those of the terms, and the cases.
#[derive(Drop)]
pub struct Cases {
    pub values: List<Type>,
    pub terms: List<Type>,
    pub cases: List<Case>,
}

impl Cases {
    pub(crate) fn new(alloc: Global) -> Cases
        ensures values { result.values ≡ [] }
        ensures terms { result.terms ≡ [] }
        ensures cases { result.cases ≡ [] }
    {
        Cases {
            values: List::new(alloc),
            terms: List::new(alloc),
            cases: List::new(alloc),
        }
    }

    pub(crate) fn push(&mut self, value: Typed, term: Typed) -> Result<(), AllocError>
        ensures values { OnOk result (self.new.values ≡ self.old.values ++ value.of ∷ []) }
        ensures terms { OnOk result (self.new.terms ≡ self.old.terms ++ term.of ∷ []) }
        ensures cases { OnOk result (self.new.cases ≡ self.old.cases
            ++ spec.case_of (done value, done term) ∷ []) }
    {
        self.values.push(value.of.into_inner())?;
        self.terms.push(term.of.into_inner())?;
        let (value, term) = (value.term, term.term);
        self.cases.push(Case { value, term })?;
        Ok(())
    }
}

fn has_join(alloc: Global, of: &Type, other: &Type) -> Result<bool, AllocError>
    ensures { IfOk result (λ b. b ≡ is_some (join of.now other.now)) }
{
    match join(alloc, of, other)? {
        Some(_) => Ok(true),
        None => Ok(false),
    }
}

/// Each of the types joins with the one. Mismatch at the place where one doesn't.
#[tactic(auto, using(crate::proofs::Parts::all_join_steps))]
pub fn all_join(alloc: Global, of: &Type, types: &[Type], span: Span) -> Result<(), TypeRefusal>
    ensures { Passes result (own.joins_refused of.now types.now span) }
{
    for other in types {
        if !has_join(alloc, of, other)? {
            return Err(TypeRefusal::Mismatch(span));
        }
    }
    Ok(())
}

/// The types of the cases' terms and of the other one, if there is one.
fn more_types(
    alloc: Global,
    types: &mut List<Type>,
    other: &Option<Typed>,
) -> Result<(), AllocError>
    ensures { OnOk result (types.new
        ≡ types.old ++ spec.types (spec.some_checked (option_map done other.now))) }
{
    if let Some(other) = other {
        types.push(copy_boxed(alloc, other.of.get())?.into_inner())?;
    }
    Ok(())
}

#[tactic(auto, using(crate::proofs::Parts::switch_steps), unfolding(crate::specs::Own::switch_own))]
pub(crate) fn switch_typed(
    alloc: Global,
    value: Typed,
    mut cases: Cases,
    other: Option<Typed>,
    span: Span,
) -> Result<Typed, TypeRefusal>
    ensures { GivesTerm result (own.switch_own (done value) cases.values cases.terms cases.cases
        (option_map done other) span) }
{
    all_join(alloc, value.of.get(), cases.values.as_slice(), span)?;
    more_types(alloc, &mut cases.terms, &other)?;
    let of = joined(alloc, cases.terms.as_slice(), span)?;
    let term = Term::Switch {
        value: value.term,
        cases: cases.cases,
        other: other_term(other),
    };
    let term = Boxed::new(alloc, term)?;
    Ok(Typed { of, term, span })
}
