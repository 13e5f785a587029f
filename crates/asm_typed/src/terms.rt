//! Terms: one function for each form.
ghost use Rattle.std.specs.Prelude.{◌≡◌, ◌∷◌, [], ◌++◌, OnOk, OnErr};
ghost use Rattle.std.specs.Option.{option_map};
ghost use Rattle.asm_program.specs.Items.{bind_of, list_of_ranges};
ghost use Rattle.asm_program.specs.Checks.{Checks};
ghost use Rattle.asm_program.specs.TypedTerms as spec;
ghost use Rattle.asm_program.specs.TypedTerms.{checked};
ghost use Rattle.asm_typed.specs.Answers.{Gives, Passes, GivesTerm, GivesTerms, IsTyped, done};
ghost use Rattle.asm_typed.specs.Sizes.{ranges_refused, with_ranges, range_domains};
ghost use Rattle.asm_typed.specs.Forms as forms;

use crate::applied::{function, literal, operator};
use crate::forms::{
    Cases, Quantifier, binary_typed, conditional_typed, interval_typed, let_typed, quantified,
    sequence_typed, set_typed, switch_typed, tuple_typed,
};
use crate::leaves::{chars, number, truth, undef, unknown, variable};
use crate::ranges::{add_ranges, ranges_enumerable};
use crate::typed::{AllTyped, Typed};
use crate::variables::Variables;
use asm_items::text_of;
use asm_program::{Named, Term, TypeRefusal};
use asm_scope::{Header, Scope};
use asm_syntax::{BindTree, BindsTree, CaseTree, RangesTree, Span, TermTree, TermsTree, Token};
use asm_typing::is_operator;
use asm_value::{Boxed, List, Text};
use std::alloc::Global;

// ---- parts

/// One more term after those that are typed already.
#[cycle(terms)]
#[tactic(auto, using(crate::proofs::Steps::one_steps))]
fn add_term(
    alloc: Global,
    scope: &Scope,
    variables: &mut Variables,
    typed: &mut AllTyped,
    term: &TermTree,
) -> Result<(), TypeRefusal>
    ensures refused { Passes result (checked scope.now term.now variables.old).refused }
    ensures types { OnOk result (typed.new.types
        ≡ typed.old.types ++ (checked scope.now term.now variables.old).type ∷ []) }
    ensures terms { OnOk result (typed.new.terms
        ≡ typed.old.terms ++ (checked scope.now term.now variables.old).term ∷ []) }
    ensures same { variables.new ≡ variables.old }
{
    let term = typed_at(alloc, scope, variables, term)?;
    typed.push(term)?;
    Ok(())
}

/// The terms after those that are typed already.
#[cycle(terms)]
#[tactic(auto, using(crate::proofs::Steps::more_steps))]
fn add_terms(
    alloc: Global,
    scope: &Scope,
    variables: &mut Variables,
    typed: &mut AllTyped,
    terms: &[Boxed<TermTree>],
) -> Result<(), TypeRefusal>
    ensures refused { Passes result
        (spec.all_refused (forms.terms_at scope.now variables.old terms.now)) }
    ensures types { OnOk result (typed.new.types
        ≡ typed.old.types ++ spec.types (forms.terms_at scope.now variables.old terms.now)) }
    ensures terms { OnOk result (typed.new.terms
        ≡ typed.old.terms
        ++ spec.checked_terms (forms.terms_at scope.now variables.old terms.now)) }
    ensures same { variables.new ≡ variables.old }
{
    for term in terms {
        match add_term(alloc, scope, variables, typed, term.get()) {
            Ok(()) => {}
            Err(why) => return Err(why),
        }
    }
    Ok(())
}

/// The terms of a list, one or more.
#[cycle(terms)]
#[tactic(auto, using(crate::proofs::Steps::listed_steps))]
fn listed(
    alloc: Global,
    scope: &Scope,
    variables: &mut Variables,
    terms: &TermsTree,
) -> Result<AllTyped, TypeRefusal>
    ensures typed { GivesTerms result (forms.listed_at scope.now variables.old terms.now) }
    ensures same { variables.new ≡ variables.old }
{
    let mut typed = AllTyped::new(alloc);
    add_term(alloc, scope, variables, &mut typed, terms.first.get())?;
    add_terms(alloc, scope, variables, &mut typed, terms.others.as_slice())?;
    Ok(typed)
}

/// The terms in parentheses, if there are any.
#[cycle(terms)]
#[tactic(auto, using(crate::proofs::Steps::args_steps))]
pub fn args_typed(
    alloc: Global,
    scope: &Scope,
    variables: &mut Variables,
    terms: &Option<TermsTree>,
) -> Result<AllTyped, TypeRefusal>
    ensures typed { GivesTerms result (forms.args_at scope.now variables.old terms.now) }
    ensures same { variables.new ≡ variables.old }
{
    match terms {
        Some(terms) => listed(alloc, scope, variables, terms),
        None => Ok(AllTyped::new(alloc)),
    }
}

/// The other term, if there is one.
#[cycle(terms)]
#[tactic(auto, using(crate::proofs::Steps::other_steps))]
fn other_typed(
    alloc: Global,
    scope: &Scope,
    variables: &mut Variables,
    term: &Option<Boxed<TermTree>>,
) -> Result<Option<Typed>, TypeRefusal>
    ensures typed { Gives result
        (forms.other_refused (forms.other_at scope.now variables.old term.now))
        (λ o. option_map done o ≡ forms.other_at scope.now variables.old term.now) }
    ensures same { variables.new ≡ variables.old }
{
    match term {
        Some(term) => {
            let other = typed_at(alloc, scope, variables, term.get())?;
            Ok(Some(other))
        }
        None => Ok(None),
    }
}

// ---- operators and names

#[cycle(terms)]
#[tactic(auto, using(crate::proofs::Steps::prefix_steps))]
fn prefix(
    alloc: Global,
    scope: &Scope,
    variables: &mut Variables,
    op: &Text,
    term: &TermTree,
    span: Span,
) -> Result<Typed, TypeRefusal>
    ensures typed { GivesTerm result
        (forms.operated op.now (checked scope.now term.now variables.old ∷ []) span) }
    ensures same { variables.new ≡ variables.old }
{
    let mut args = AllTyped::new(alloc);
    add_term(alloc, scope, variables, &mut args, term)?;
    operator(alloc, op.as_str(), args, span)
}

/// A function with its arguments.
#[cycle(terms)]
#[tactic(auto, using(crate::proofs::Steps::called_steps))]
fn function_called(
    alloc: Global,
    scope: &Scope,
    variables: &mut Variables,
    number: u16,
    header: &Header,
    args: &Option<TermsTree>,
    span: Span,
) -> Result<Typed, TypeRefusal>
    ensures typed { GivesTerm result (forms.called scope.now number header.now
        (forms.args_at scope.now variables.old args.now) span) }
    ensures same { variables.new ≡ variables.old }
{
    let args = args_typed(alloc, scope, variables, args)?;
    function(alloc, scope, number, header, args, span)
}

/// A literal of an enumeration.
#[cycle(terms)]
#[tactic(auto, using(crate::proofs::Steps::literal_steps))]
fn literal_called(
    alloc: Global,
    scope: &Scope,
    variables: &mut Variables,
    domain: u16,
    index: u16,
    args: &Option<TermsTree>,
    span: Span,
) -> Result<Typed, TypeRefusal>
    ensures typed { GivesTerm result (forms.literal scope.now domain index
        (forms.args_at scope.now variables.old args.now) span) }
    ensures same { variables.new ≡ variables.old }
{
    let args = args_typed(alloc, scope, variables, args)?;
    literal(alloc, domain, index, args, span)
}

/// An operator that is written as a function. Any other name is unknown.
#[cycle(terms)]
#[tactic(auto, using(crate::proofs::Steps::other_name_steps))]
fn operator_called(
    alloc: Global,
    scope: &Scope,
    variables: &mut Variables,
    token: &Token,
    args: &Option<TermsTree>,
    span: Span,
) -> Result<Typed, TypeRefusal>
    ensures typed { GivesTerm result (forms.other_name scope.now token.now
        (forms.args_at scope.now variables.old args.now) span) }
    ensures same { variables.new ≡ variables.old }
{
    if !is_operator(text_of(token)) {
        return Err(unknown(alloc, token));
    }
    let args = args_typed(alloc, scope, variables, args)?;
    operator(alloc, text_of(token), args, span)
}

/// Functions and literals hide operators of their names; domains and macro rules are no terms.
#[cycle(terms)]
#[tactic(auto, using(crate::proofs::Steps::name_steps), unfolding(crate::specs::Forms::literal, crate::specs::Forms::other_name))]
fn named(
    alloc: Global,
    scope: &Scope,
    variables: &mut Variables,
    meant: Option<Named>,
    token: &Token,
    args: &Option<TermsTree>,
    span: Span,
) -> Result<Typed, TypeRefusal>
    ensures typed { GivesTerm result (spec.named_checked scope.now meant token.now
        (forms.args_at scope.now variables.old args.now) span) }
    ensures same { variables.new ≡ variables.old }
{
    match meant {
        Some(Named::Function(number)) => match scope.header(number) {
            Some(header) => { function_called(alloc, scope, variables, number, header, args, span) }
            None => Err(TypeRefusal::NoMemory),
        },
        Some(Named::Literal { domain, index }) => {
            literal_called(alloc, scope, variables, domain, index, args, span)
        }
        Some(Named::Enum(_))
        | Some(Named::Abstract(_))
        | Some(Named::Subset(_))
        | Some(Named::Macro(_))
        | Some(Named::Main)
        | None => operator_called(alloc, scope, variables, token, args, span),
    }
}

#[cycle(terms)]
#[tactic(auto, unfolding(crate::specs::Forms::named))]
fn name(
    alloc: Global,
    scope: &Scope,
    variables: &mut Variables,
    token: &Token,
    args: &Option<TermsTree>,
    span: Span,
) -> Result<Typed, TypeRefusal>
    ensures typed { GivesTerm result (forms.named scope.now token.now
        (forms.args_at scope.now variables.old args.now) span) }
    ensures same { variables.new ≡ variables.old }
{
    let meant = scope.find(text_of(token));
    named(alloc, scope, variables, meant, token, args, span)
}

// ---- tuples, sets and sequences

#[cycle(terms)]
#[tactic(auto, using(crate::proofs::Steps::tuple_steps))]
fn tuple(
    alloc: Global,
    scope: &Scope,
    variables: &mut Variables,
    items: &TermsTree,
    span: Span,
) -> Result<Typed, TypeRefusal>
    ensures typed { GivesTerm result
        (forms.tuple (forms.listed_at scope.now variables.old items.now) span) }
    ensures same { variables.new ≡ variables.old }
{
    let items = listed(alloc, scope, variables, items)?;
    Ok(tuple_typed(alloc, items, span)?)
}

#[cycle(terms)]
#[tactic(auto, using(crate::proofs::Steps::set_steps))]
fn set(
    alloc: Global,
    scope: &Scope,
    variables: &mut Variables,
    items: &Option<TermsTree>,
    span: Span,
) -> Result<Typed, TypeRefusal>
    ensures typed { GivesTerm result
        (forms.set (forms.args_at scope.now variables.old items.now) span) }
    ensures same { variables.new ≡ variables.old }
{
    let items = args_typed(alloc, scope, variables, items)?;
    set_typed(alloc, items, span)
}

#[cycle(terms)]
#[tactic(auto, using(crate::proofs::Steps::sequence_steps))]
fn sequence(
    alloc: Global,
    scope: &Scope,
    variables: &mut Variables,
    items: &Option<TermsTree>,
    span: Span,
) -> Result<Typed, TypeRefusal>
    ensures typed { GivesTerm result
        (forms.sequence (forms.args_at scope.now variables.old items.now) span) }
    ensures same { variables.new ≡ variables.old }
{
    let items = args_typed(alloc, scope, variables, items)?;
    sequence_typed(alloc, items, span)
}

// ---- quantifiers

/// The body of a quantifier is typed over the variables of its ranges.
#[cycle(terms)]
#[tactic(auto, using(crate::proofs::Steps::quantifier_steps))]
fn quantifier_typed(
    alloc: Global,
    scope: &Scope,
    variables: &mut Variables,
    quantifier: Quantifier,
    ranges: &RangesTree,
    body: &TermTree,
    span: Span,
) -> Result<Typed, TypeRefusal>
    ensures typed { GivesTerm result (forms.quantified (forms.quantifier_form quantifier)
        (ranges_refused scope.now (list_of_ranges ranges.now))
        (range_domains scope.now (list_of_ranges ranges.now))
        (checked scope.now body.now
        (with_ranges scope.now variables.old (list_of_ranges ranges.now))) span) }
    ensures same { variables.new ≡ variables.old }
{
    ranges_enumerable(alloc, scope, ranges)?;
    let outer = variables.len();
    let domains = add_ranges(alloc, scope, variables, ranges)?;
    let body = typed_at(alloc, scope, variables, body);
    variables.truncate(outer);
    quantified(alloc, quantifier, domains, body?, span)
}

// ---- bound variables

/// The terms of bound variables so far.
#[derive(Drop)]
struct Bound {
    terms: List<Boxed<Term>>,
}

/// One more bound variable, which comes into scope, and its term after the others.
#[cycle(terms)]
#[tactic(auto, using(crate::proofs::Steps::bind_steps))]
fn bind(
    alloc: Global,
    scope: &Scope,
    variables: &mut Variables,
    values: &mut Bound,
    tree: &BindTree,
) -> Result<(), TypeRefusal>
    ensures refused { Passes result
        (checked scope.now (bind_of tree.now).1 variables.old).refused }
    ensures values { OnOk result (values.new.terms ≡ values.old.terms
        ++ (checked scope.now (bind_of tree.now).1 variables.old).term ∷ []) }
    ensures variables { OnOk result (variables.new ≡ spec.with_variable variables.old
        (bind_of tree.now).0 (checked scope.now (bind_of tree.now).1 variables.old).type) }
    ensures kept { OnErr result (variables.new ≡ variables.old) }
{
    let value = typed_at(alloc, scope, variables, tree.value.get())?;
    values.terms.push(value.term)?;
    Ok(variables.push(alloc, &tree.variable, value.of)?)
}

/// More bound variables, one after the other.
#[cycle(terms)]
#[tactic(auto, using(crate::proofs::Steps::more_binds_steps))]
fn more_binds(
    alloc: Global,
    scope: &Scope,
    variables: &mut Variables,
    values: &mut Bound,
    trees: &[BindTree],
) -> Result<(), TypeRefusal>
    ensures refused { Passes result (forms.bound_at scope.now variables.old trees.now).refused }
    ensures values { OnOk result (values.new.terms
        ≡ values.old.terms ++ (forms.bound_at scope.now variables.old trees.now).terms) }
    ensures variables { OnOk result
        (variables.new ≡ (forms.bound_at scope.now variables.old trees.now).variables) }
    ensures kept { OnErr result (variables.new ≡ variables.old) }
{
    let outer = variables.len();
    for tree in trees {
        match bind(alloc, scope, variables, values, tree) {
            Ok(()) => {}
            Err(why) => {
                variables.truncate(outer);
                return Err(why);
            }
        }
    }
    Ok(())
}

/// The terms of bound variables, which come into scope one after the other.
#[cycle(terms)]
#[tactic(auto, using(crate::proofs::Steps::binds_steps))]
pub fn binds_typed(
    alloc: Global,
    scope: &Scope,
    variables: &mut Variables,
    tree: &BindsTree,
) -> Result<List<Boxed<Term>>, TypeRefusal>
    ensures typed { Gives result (forms.all_bound scope.now variables.old tree.now).refused
        (λ ts. ts ≡ (forms.all_bound scope.now variables.old tree.now).terms) }
    ensures variables { OnOk result
        (variables.new ≡ (forms.all_bound scope.now variables.old tree.now).variables) }
    ensures kept { OnErr result (variables.new ≡ variables.old) }
{
    let outer = variables.len();
    let mut values = Bound {
        terms: List::new(alloc),
    };
    bind(alloc, scope, variables, &mut values, &tree.first)?;
    match more_binds(alloc, scope, variables, &mut values, tree.others.as_slice()) {
        Ok(()) => Ok(values.terms),
        Err(why) => {
            variables.truncate(outer);
            Err(why)
        }
    }
}

// ---- switches

/// One more case after those that are typed already.
#[cycle(terms)]
#[tactic(auto, using(crate::proofs::Steps::case_steps))]
fn add_case(
    alloc: Global,
    scope: &Scope,
    variables: &mut Variables,
    cases: &mut Cases,
    tree: &CaseTree,
) -> Result<(), TypeRefusal>
    ensures refused { Passes result
        (forms.one_case_refused (forms.case_at scope.now variables.old tree.now)) }
    ensures values { OnOk result (cases.new.values
        ≡ cases.old.values ++ (forms.case_at scope.now variables.old tree.now).0.type ∷ []) }
    ensures terms { OnOk result (cases.new.terms
        ≡ cases.old.terms ++ (forms.case_at scope.now variables.old tree.now).1.type ∷ []) }
    ensures cases { OnOk result (cases.new.cases
        ≡ cases.old.cases ++ spec.case_of (forms.case_at scope.now variables.old tree.now) ∷ []) }
    ensures same { variables.new ≡ variables.old }
{
    let value = typed_at(alloc, scope, variables, tree.value.get())?;
    let term = typed_at(alloc, scope, variables, tree.term.get())?;
    cases.push(value, term)?;
    Ok(())
}

/// The cases of a switch.
#[cycle(terms)]
#[tactic(auto, using(crate::proofs::Steps::cases_steps))]
fn cases_typed(
    alloc: Global,
    scope: &Scope,
    variables: &mut Variables,
    trees: &[CaseTree],
) -> Result<Cases, TypeRefusal>
    ensures typed { Gives result
        (forms.all_case_refused (forms.cases_at scope.now variables.old trees.now))
        (λ cs. forms.AreCases cs (forms.cases_at scope.now variables.old trees.now)) }
    ensures same { variables.new ≡ variables.old }
{
    let mut cases = Cases::new(alloc);
    for tree in trees {
        match add_case(alloc, scope, variables, &mut cases, tree) {
            Ok(()) => {}
            Err(why) => return Err(why),
        }
    }
    Ok(cases)
}

// ---- terms

/// A term over these variables.
#[cycle(terms)]
#[tactic(auto, using(crate::proofs::Steps::term_steps))]
pub fn typed_at(
    alloc: Global,
    scope: &Scope,
    variables: &mut Variables,
    tree: &TermTree,
) -> Result<Typed, TypeRefusal>
    ensures typed { GivesTerm result (checked scope.now tree.now variables.old) }
    ensures same { variables.new ≡ variables.old }
{
    match tree {
        TermTree::Prefix(op, term, span) => prefix(alloc, scope, variables, op, term.get(), *span),
        TermTree::Binary(left, op, right, span) => {
            let left = typed_at(alloc, scope, variables, left.get())?;
            let right = typed_at(alloc, scope, variables, right.get())?;
            binary_typed(alloc, op.as_str(), left, right, *span)
        }
        TermTree::Number(token, span) => Ok(number(alloc, token, *span)?),
        TermTree::Chars(token, span) => chars(alloc, token, *span),
        TermTree::True(span) => Ok(truth(alloc, true, *span)?),
        TermTree::False(span) => Ok(truth(alloc, false, *span)?),
        TermTree::Undef(span) => Ok(undef(alloc, *span)?),
        TermTree::Var(token, span) => variable(alloc, variables, token, *span),
        TermTree::Name(token, args, span) => name(alloc, scope, variables, token, args, *span),
        TermTree::Tuple(items, span) => tuple(alloc, scope, variables, items, *span),
        TermTree::Forall(ranges, body, span) => {
            let forall = Quantifier::Forall;
            quantifier_typed(alloc, scope, variables, forall, ranges, body.get(), *span)
        }
        TermTree::Exist(unique, ranges, body, span) => {
            let exist = Quantifier::exist(*unique);
            quantifier_typed(alloc, scope, variables, exist, ranges, body.get(), *span)
        }
        TermTree::Interval(from, to, span) => {
            let from = typed_at(alloc, scope, variables, from.get())?;
            let to = typed_at(alloc, scope, variables, to.get())?;
            interval_typed(alloc, from, to, *span)
        }
        TermTree::Set(items, span) => set(alloc, scope, variables, items, *span),
        TermTree::Seq(items, span) => sequence(alloc, scope, variables, items, *span),
        TermTree::If(guard, first, other, span) => {
            let guard = typed_at(alloc, scope, variables, guard.get())?;
            let first = typed_at(alloc, scope, variables, first.get())?;
            let other = other_typed(alloc, scope, variables, other)?;
            conditional_typed(alloc, guard, first, other, *span)
        }
        TermTree::Let(binds, body, span) => {
            let outer = variables.len();
            let values = binds_typed(alloc, scope, variables, binds)?;
            let body = typed_at(alloc, scope, variables, body.get());
            variables.truncate(outer);
            Ok(let_typed(alloc, values, body?, *span)?)
        }
        TermTree::Switch(term, cases, other, span) => {
            let value = typed_at(alloc, scope, variables, term.get())?;
            let cases = cases_typed(alloc, scope, variables, cases.as_slice())?;
            let other = other_typed(alloc, scope, variables, other)?;
            switch_typed(alloc, value, cases, other, *span)
        }
    }
}

/// A term with its type and with numbers for its names, or its first refusal. The variables are as
/// before.
pub fn term_typed(
    alloc: Global,
    scope: &Scope,
    variables: &mut Variables,
    tree: &TermTree,
) -> Result<Typed, TypeRefusal>
    ensures typed { Checks result (checked scope.now tree.now variables.old).refused
        (λ t. IsTyped t (checked scope.now tree.now variables.old)) }
    ensures same { variables.new ≡ variables.old }
{
    typed_at(alloc, scope, variables, tree)
}
