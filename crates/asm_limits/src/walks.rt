//! The walk over a text that looks at the depth of what it defines and adds up its work.
ghost use Rattle.std.specs.Prelude.{◌≡◌, slice_get};
ghost use Rattle.asm_syntax.specs.Marks.{text_of};
ghost use Rattle.asm_program.specs.Checks.{Checks};
ghost use Rattle.asm_program.specs.Items.{starts_of};
ghost use Rattle.asm_program.specs.Signatures.{find};
ghost use Rattle.asm_program.specs.Typed.{depth_refused, work_refused, name_span, number_in};
ghost use Rattle.asm_limits.specs.Walks as spec;

use crate::known::{Known, body_counts, macro_counts};
use asm_counts::{Counts, MOST_COUNT, NO_COUNTS, combinations};
use asm_items::text_of as name_of;
use asm_program::{InitInfo, Inv, Limited, MacroInfo, Named, Term, TypeRefusal};
use asm_scope::Scope;
use asm_syntax::{DefTree, InitTree, Span, StartTree, Token};
use asm_typed_models::Definitions;
use asm_value::{Boxed, Shared};

/// The greatest depth of a definition.
const MOST_DEPTH: u64 = 512;

/// The most work of a text.
const MOST_WORK: u64 = 1 << 24;

/// The number of bytes of the word `invariant`.
const INVARIANT_BYTES: u32 = 9;

/// The depth of a definition is at most 512.
pub(crate) fn deep(counts: Counts, place: Span) -> Result<(), TypeRefusal>
    ensures { Checks result (depth_refused counts.depth place) (λ _. Unit {0}) }
{
    if MOST_DEPTH < counts.depth {
        let depth = counts.depth.min(MOST_COUNT);
        Err(TypeRefusal::Limit(Limited::Depth, u128::from(depth), place))
    } else {
        Ok(())
    }
}

/// The work of a text is at most 2^24.
pub(crate) fn within(work: u64, place: Span) -> Result<u64, TypeRefusal>
    ensures { Checks result (work_refused work place) (λ allowed. allowed ≡ work) }
{
    if work <= MOST_WORK {
        Ok(work)
    } else {
        Err(TypeRefusal::TooMuchWork(work.min(MOST_COUNT), place))
    }
}

/// The work that a text has with one more of these.
pub(crate) fn with_work(work: u64, more: u64) -> u64
    ensures { result ≡ spec.with_work work more }
{
    work.saturating_add(more).min(MOST_COUNT)
}

/// Where an invariant's name is, or its word `invariant` where it has none.
fn invariant_place(name: &Option<Token>, span: Span) -> Span
    ensures { result ≡ name_span name.now span }
{
    match name {
        Some(name) => name.span,
        None => Span {
            start: span.start,
            end: span.start.saturating_add(INVARIANT_BYTES),
        },
    }
}

// ---- definitions

/// The number of a function, 0 where the name isn't one.
fn function_number(scope: &Scope, name: &Token) -> u16
    ensures { result ≡ number_in (find scope.now.names (text_of name.now)) }
{
    match scope.find(name_of(name)) {
        Some(Named::Function(function)) => function,
        Some(Named::Enum(_))
        | Some(Named::Abstract(_))
        | Some(Named::Subset(_))
        | Some(Named::Literal { .. })
        | Some(Named::Macro(_))
        | Some(Named::Main)
        | None => 0,
    }
}

/// The counts of a function by its number.
fn function_counts(known: &Known, bodies: &[Option<Boxed<Term>>], function: u16) -> Counts
    ensures { result ≡ spec.of_body known.now.domains.now known.now.functions.now
        known.now.macros.now (slice_get bodies.now function) }
{
    match bodies.get(usize::from(function)) {
        Some(body) => body_counts(known.domains, known.functions, body),
        None => NO_COUNTS,
    }
}

/// The macro rules and the invariants that weren't looked at yet, in text order, and the work of
/// the invariants that were.
#[derive(Clone, Copy)]
struct Left<'a> {
    macros: &'a [MacroInfo],
    invariants: &'a [Shared<Inv>],
    work: u64,
}

fn first_macro(known: &Known, infos: &[MacroInfo]) -> Counts
    ensures { result ≡ spec.of_first_macro known.now.domains.now known.now.functions.now
        known.now.macros.now infos.now }
{
    match infos.split_first() {
        Some((info, _)) => macro_counts(known.domains, known.functions, known.macros, info),
        None => NO_COUNTS,
    }
}

fn first_invariant(known: &Known, invariants: &[Shared<Inv>]) -> Counts
    ensures { result ≡ spec.of_first_invariant known.now.domains.now known.now.functions.now
        known.now.macros.now invariants.now }
{
    match invariants.split_first() {
        Some((inv, _)) => known.term(inv.get().term.get()),
        None => NO_COUNTS,
    }
}

fn other_macros(infos: &[MacroInfo]) -> &[MacroInfo]
    ensures { result.now ≡ spec.after_first infos.now }
{
    match infos.split_first() {
        Some((_, rest)) => rest,
        None => infos,
    }
}

fn other_invariants(invariants: &[Shared<Inv>]) -> &[Shared<Inv>]
    ensures { result.now ≡ spec.after_first invariants.now }
{
    match invariants.split_first() {
        Some((_, rest)) => rest,
        None => invariants,
    }
}

fn definition_limited<'a>(
    scope: &Scope,
    known: &Known,
    bodies: &[Option<Boxed<Term>>],
    left: Left<'a>,
    definition: &DefTree,
) -> Result<Left<'a>, TypeRefusal>
    ensures { Checks result
        (spec.def_limited known.now.domains.now known.now.functions.now known.now.macros.now
        scope.now bodies.now (spec.rest_of left.entry) definition.now)
        (λ after. spec.rest_of after
        ≡ spec.def_after known.now.domains.now known.now.functions.now known.now.macros.now
        scope.now bodies.now (spec.rest_of left.entry) definition.now) }
{
    match definition {
        DefTree::Interval(_, _, _, _) | DefTree::Integers(_, _, _, _) => Ok(left),
        DefTree::Function(name, _, _, _) => {
            let counts = function_counts(known, bodies, function_number(scope, name));
            deep(counts, name.span)?;
            Ok(left)
        }
        DefTree::Rule(name, _, _, _) => {
            deep(first_macro(known, left.macros), name.span)?;
            Ok(Left {
                macros: other_macros(left.macros),
                invariants: left.invariants,
                work: left.work,
            })
        }
        DefTree::Invariant(name, _, _, _, span) => {
            let counts = first_invariant(known, left.invariants);
            deep(counts, invariant_place(name, *span))?;
            Ok(Left {
                macros: left.macros,
                invariants: other_invariants(left.invariants),
                work: with_work(left.work, counts.work),
            })
        }
    }
}

/// The work of the invariants, where no definition is too deep.
#[tactic(auto, using(crate::proofs::WalkSteps::definition_steps))]
fn limited_definitions(
    scope: &Scope,
    known: &Known,
    bodies: &[Option<Boxed<Term>>],
    left: Left<'_>,
    defs: &[DefTree],
) -> Result<u64, TypeRefusal>
    ensures { Checks result
        (spec.defs_limited known.now.domains.now known.now.functions.now known.now.macros.now
        scope.now bodies.now (spec.rest_of left.entry) defs.now)
        (λ work. work
        ≡ spec.defs_work known.now.domains.now known.now.functions.now known.now.macros.now
        scope.now bodies.now (spec.rest_of left.entry) defs.now) }
{
    let mut rest = left;
    for definition in defs {
        rest = definition_limited(scope, known, bodies, rest, definition)?;
    }
    Ok(rest.work)
}

/// The work of a text's invariants, where no definition is too deep.
pub(crate) fn definitions_work(
    scope: &Scope,
    known: &Known,
    definitions: &Definitions,
    defs: &[DefTree],
) -> Result<u64, TypeRefusal>
    ensures { Checks result
        (spec.defs_limited known.now.domains.now known.now.functions.now known.now.macros.now
        scope.now definitions.now.bodies.items
        (record {
          macros = definitions.now.macros;
          invariants = definitions.now.invariants;
          work = 0;
        }) defs.now)
        (λ work. work
        ≡ spec.defs_work known.now.domains.now known.now.functions.now known.now.macros.now
        scope.now definitions.now.bodies.items
        (record {
          macros = definitions.now.macros;
          invariants = definitions.now.invariants;
          work = 0;
        }) defs.now) }
{
    let left = Left {
        macros: definitions.macros.as_slice(),
        invariants: definitions.invariants.as_slice(),
        work: 0,
    };
    limited_definitions(scope, known, definitions.bodies.as_slice(), left, defs)
}

// ---- the initial state

/// The initial terms that weren't looked at yet, in text order, and the work of those that were.
#[derive(Clone, Copy)]
struct Starts<'a> {
    inits: &'a [InitInfo],
    work: u64,
}

/// For how many lists of arguments an initial term is evaluated.
fn start_combinations(scope: &Scope, known: &Known, function: u16) -> u64
    ensures { result
        ≡ spec.combinations_of known.now.domains.now known.now.functions.now
        known.now.macros.now (slice_get scope.now.functions function) }
{
    match scope.header(function) {
        Some(header) => combinations(known.domains, header.args()),
        None => 1,
    }
}

fn first_start(scope: &Scope, known: &Known, inits: &[InitInfo]) -> Counts
    ensures { result ≡ spec.of_first_start known.now.domains.now known.now.functions.now
        known.now.macros.now scope.now.functions inits.now }
{
    match inits.split_first() {
        Some((init, _)) => {
            let counts = known.term(init.body.get());
            counts.times(start_combinations(scope, known, init.function))
        }
        None => NO_COUNTS,
    }
}

fn other_starts(inits: &[InitInfo]) -> &[InitInfo]
    ensures { result.now ≡ spec.after_first inits.now }
{
    match inits.split_first() {
        Some((_, rest)) => rest,
        None => inits,
    }
}

fn start_limited<'a>(
    scope: &Scope,
    known: &Known,
    left: Starts<'a>,
    start: &StartTree,
) -> Result<Starts<'a>, TypeRefusal>
    ensures { Checks result
        (spec.start_limited known.now.domains.now known.now.functions.now known.now.macros.now
        scope.now (spec.starts_rest left.entry) start.now)
        (λ after. spec.starts_rest after
        ≡ spec.start_after known.now.domains.now known.now.functions.now known.now.macros.now
        scope.now (spec.starts_rest left.entry) start.now) }
{
    let counts = first_start(scope, known, left.inits);
    deep(counts, start.function.span)?;
    Ok(Starts {
        inits: other_starts(left.inits),
        work: with_work(left.work, counts.work),
    })
}

#[tactic(auto, using(crate::proofs::WalkSteps::start_steps))]
fn limited_starts(
    scope: &Scope,
    known: &Known,
    inits: &[InitInfo],
    starts: &[StartTree],
) -> Result<u64, TypeRefusal>
    ensures { Checks result
        (spec.starts_limited known.now.domains.now known.now.functions.now known.now.macros.now
        scope.now (record { inits = inits.now; work = 0 }) starts.now)
        (λ work. work
        ≡ spec.starts_work known.now.domains.now known.now.functions.now known.now.macros.now
        scope.now (record { inits = inits.now; work = 0 }) starts.now) }
{
    let mut rest = Starts { inits, work: 0 };
    for start in starts {
        rest = start_limited(scope, known, rest, start)?;
    }
    Ok(rest.work)
}

/// The work of the initial terms, where none is too deep.
#[tactic(auto, unfolding(crate::specs::Walks::starts_limited, crate::specs::Walks::starts_work))]
pub(crate) fn starts_work(
    scope: &Scope,
    known: &Known,
    inits: &[InitInfo],
    init: &Option<InitTree>,
) -> Result<u64, TypeRefusal>
    ensures { Checks result
        (spec.starts_limited known.now.domains.now known.now.functions.now known.now.macros.now
        scope.now (record { inits = inits.now; work = 0 }) (starts_of init.now))
        (λ work. work
        ≡ spec.starts_work known.now.domains.now known.now.functions.now known.now.macros.now
        scope.now (record { inits = inits.now; work = 0 }) (starts_of init.now)) }
{
    match init {
        Some(init) => limited_starts(scope, known, inits, init.starts.as_slice()),
        None => Ok(0),
    }
}
