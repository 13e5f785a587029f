//! The run of a formula: its models step in text order, wired by what they give.
ghost use Rattle.std.specs.Prelude.{◌≡◌, [], List, IfOk, OnOk, OnErr, fold};
ghost use Rattle.std.specs.Option.{option_map};
ghost use Rattle.asm_formula.specs.Formulas.{names};
ghost use Rattle.asm_compose.specs.Offers.{union, first_clash};
ghost use Rattle.asm_compose.specs.Runs.{run, held_by};
ghost use Rattle.asm_compose.specs.Steps as spec;
ghost use Rattle.asm_compose.specs.Steps.{Makes, MakesPart, IsEndOf, steps_of, joins, union_ends, leaf_course};
ghost use Rattle.asm_compose.specs.Courses.{Follows, course_of, beside_of, left_of, right_of, right_joined, both_of};

use crate::given::{Given, copy_trees};
use crate::leaf::Leaf;
use crate::offer::Offer;
use crate::outcome::FormulaOutcome;
use asm_base::Text;
use asm_formula::{Formula, Operator};
use std::alloc::{AllocError, Global};

/// The location of the first, with both values.
fn clash_of(alloc: Global, first: &Given, second: &Given) -> Result<FormulaOutcome, AllocError>
    ensures { IfOk result (λ outcome. outcome ≡ spec.clash_of (first.now, second.now)) }
{
    Ok(FormulaOutcome::JoinClash {
        function: first.function.copy(alloc)?,
        args: copy_trees(alloc, first.args.as_slice())?,
        first: first.value.copy(alloc)?,
        second: second.value.copy(alloc)?,
    })
}

/// The least location with two values there.
fn clash_in(alloc: Global, offer: &Offer) -> Result<Option<FormulaOutcome>, AllocError>
    ensures { IfOk result (λ clash. clash ≡ option_map spec.clash_of (first_clash offer.now)) }
{
    match offer.first_clash() {
        Some((first, second)) => Ok(Some(clash_of(alloc, first, second)?)),
        None => Ok(None),
    }
}

/// What both give, unless a location has two values there.
fn united(alloc: Global, left: &Offer, right: &Offer) -> Result<FormulaOutcome, AllocError>
    ensures { IfOk result (λ outcome. outcome ≡ union_ends left.now right.now) }
{
    let offer = left.union(alloc, right)?;
    match clash_in(alloc, &offer)? {
        Some(clash) => Ok(clash),
        None => Ok(FormulaOutcome::Done(offer)),
    }
}

/// What the whole gives, by what both parts give.
fn join(
    alloc: Global,
    operator: Operator,
    left: &Offer,
    right: Offer,
) -> Result<FormulaOutcome, AllocError>
    ensures { IfOk result (λ outcome. outcome ≡ joins operator left.now right) }
{
    match operator {
        Operator::Pipe => Ok(FormulaOutcome::Done(right)),
        Operator::Both | Operator::Half | Operator::Cross => united(alloc, left, &right),
    }
}

/// The offer with what the models of a formula held as the run began.
fn add_held<L: Leaf>(
    alloc: Global,
    leaf: &L,
    formula: &Formula,
    offer: &Offer,
) -> Result<Offer, AllocError>
    ensures { IfOk result (λ all. all
        ≡ fold (λ o name. union o ((L.begins leaf.now).held name)) offer.now (names formula.now)) }
{
    match formula {
        Formula::Name(name) => {
            let held = leaf.held(alloc, name)?;
            offer.union(alloc, &held)
        }
        Formula::Join(_, left, right) => {
            let first = add_held(alloc, leaf, left.get(), offer)?;
            add_held(alloc, leaf, right.get(), &first)
        }
    }
}

/// What the models of a formula held as the run began.
fn held_in<L: Leaf>(alloc: Global, leaf: &L, formula: &Formula) -> Result<Offer, AllocError>
    ensures { IfOk result (λ all. all
        ≡ held_by (L.begins leaf.now).held (L.begins leaf.now).step (names formula.now)) }
{
    add_held(alloc, leaf, formula, &Offer::new(alloc))
}

/// The step of a model.
fn run_leaf<L: Leaf>(
    alloc: Global,
    name: &Text,
    leaf: &mut L,
    offer: &Offer,
) -> Result<FormulaOutcome, AllocError>
    ensures follows { Follows L.has_made leaf.old leaf.new
        (leaf_course (L.begins leaf.old) name.now offer.now) result }
    ensures same { L.begins leaf.new ≡ L.begins leaf.old }
{
    match leaf.step(alloc, name, offer)? {
        Some(gives) => Ok(FormulaOutcome::Done(gives)),
        None => Ok(FormulaOutcome::Stopped(name.copy(alloc)?)),
    }
}

/// The run of a part that is offered this.
#[cycle(run)]
fn run_part<L: Leaf>(
    alloc: Global,
    formula: &Formula,
    leaf: &mut L,
    offer: &Offer,
) -> Result<FormulaOutcome, AllocError>
    ensures follows { Follows L.has_made leaf.old leaf.new
        (course_of (L.begins leaf.old) formula.now offer.now) result }
    ensures same { L.begins leaf.new ≡ L.begins leaf.old }
{
    match formula {
        Formula::Name(name) => run_leaf(alloc, name, leaf, offer),
        Formula::Join(operator, left, right) => {
            run_both(alloc, *operator, left.get(), right.get(), leaf, offer)
        }
    }
}

/// The run of a part that is offered what its partner's models held, besides the offer.
#[cycle(run)]
fn run_beside<L: Leaf>(
    alloc: Global,
    part: &Formula,
    partner: &Formula,
    leaf: &mut L,
    offer: &Offer,
) -> Result<FormulaOutcome, AllocError>
    ensures follows { Follows L.has_made leaf.old leaf.new
        (beside_of (L.begins leaf.old) part.now partner.now offer.now) result }
    ensures same { L.begins leaf.new ≡ L.begins leaf.old }
{
    let held = held_in(alloc, &*leaf, partner)?;
    match clash_in(alloc, &held)? {
        Some(held_clash) => Ok(held_clash),
        None => {
            let offered = offer.with_partner(alloc, &held)?;
            run_part(alloc, part, leaf, &offered)
        }
    }
}

/// The run of the left part.
#[cycle(run)]
fn run_left<L: Leaf>(
    alloc: Global,
    operator: Operator,
    left: &Formula,
    right: &Formula,
    leaf: &mut L,
    offer: &Offer,
) -> Result<FormulaOutcome, AllocError>
    ensures follows { Follows L.has_made leaf.old leaf.new
        (left_of (L.begins leaf.old) operator left.now right.now offer.now) result }
    ensures same { L.begins leaf.new ≡ L.begins leaf.old }
{
    match operator {
        Operator::Pipe => run_part(alloc, left, leaf, offer),
        Operator::Both => run_part(alloc, left, leaf, offer),
        Operator::Half => run_beside(alloc, left, right, leaf, offer),
        Operator::Cross => run_beside(alloc, left, right, leaf, offer),
    }
}

/// The run of the right part, where the left one gives this.
#[cycle(run)]
fn run_right<L: Leaf>(
    alloc: Global,
    operator: Operator,
    left: &Formula,
    right: &Formula,
    leaf: &mut L,
    offer: &Offer,
    gives: &Offer,
) -> Result<FormulaOutcome, AllocError>
    ensures follows { Follows L.has_made leaf.old leaf.new
        (right_of (L.begins leaf.old) operator left.now right.now offer.now gives.now) result }
    ensures same { L.begins leaf.new ≡ L.begins leaf.old }
{
    match operator {
        Operator::Pipe => run_part(alloc, right, leaf, gives),
        Operator::Both => run_part(alloc, right, leaf, offer),
        Operator::Half => run_part(alloc, right, leaf, gives),
        Operator::Cross => run_beside(alloc, right, left, leaf, offer),
    }
}

/// The run of the right part, and what the whole gives.
#[cycle(run)]
fn run_on<L: Leaf>(
    alloc: Global,
    operator: Operator,
    left: &Formula,
    right: &Formula,
    leaf: &mut L,
    offer: &Offer,
    gives: &Offer,
) -> Result<FormulaOutcome, AllocError>
    ensures follows { Follows L.has_made leaf.old leaf.new
        (right_joined (L.begins leaf.old) operator left.now right.now offer.now gives.now) result }
    ensures same { L.begins leaf.new ≡ L.begins leaf.old }
{
    match run_right(alloc, operator, left, right, leaf, offer, gives)? {
        FormulaOutcome::Done(last) => join(alloc, operator, gives, last),
        FormulaOutcome::Stopped(name) => Ok(FormulaOutcome::Stopped(name)),
        FormulaOutcome::JoinClash {
            function,
            args,
            first,
            second,
        } => Ok(FormulaOutcome::JoinClash {
            function,
            args,
            first,
            second,
        }),
    }
}

/// The run of two parts that are joined.
#[cycle(run)]
fn run_both<L: Leaf>(
    alloc: Global,
    operator: Operator,
    left: &Formula,
    right: &Formula,
    leaf: &mut L,
    offer: &Offer,
) -> Result<FormulaOutcome, AllocError>
    ensures follows { Follows L.has_made leaf.old leaf.new
        (both_of (L.begins leaf.old) operator left.now right.now offer.now) result }
    ensures same { L.begins leaf.new ≡ L.begins leaf.old }
{
    match run_left(alloc, operator, left, right, leaf, offer)? {
        FormulaOutcome::Done(gives) => { run_on(alloc, operator, left, right, leaf, offer, &gives) }
        FormulaOutcome::Stopped(name) => Ok(FormulaOutcome::Stopped(name)),
        FormulaOutcome::JoinClash {
            function,
            args,
            first,
            second,
        } => Ok(FormulaOutcome::JoinClash {
            function,
            args,
            first,
            second,
        }),
    }
}

/// Runs a formula over a leaf: its models step in text order, each with what the operators offer
/// it, up to the first refusal or the first location with two values. The operators are this
/// project's own. On `AllocError`, want of memory, a beginning of these steps was made.
pub fn run_formula<L: Leaf>(
    alloc: Global,
    formula: &Formula,
    leaf: &mut L,
) -> Result<FormulaOutcome, AllocError>
    ensures outcome { IfOk result (λ outcome. IsEndOf outcome
        (steps_of (L.begins leaf.old) formula.now)
        (run (L.begins leaf.old).held (L.begins leaf.old).step formula.now)) }

    ensures makes { OnOk result (Makes L.has_made leaf.old leaf.new
        (steps_of (L.begins leaf.old) formula.now)) }
    ensures err { OnErr result (MakesPart L.has_made leaf.old leaf.new
        (steps_of (L.begins leaf.old) formula.now)) }
    ensures same { L.begins leaf.new ≡ L.begins leaf.old }
{
    run_part(alloc, formula, leaf, &Offer::new(alloc))
}
