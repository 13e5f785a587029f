//! The initial state of a program.
ghost use Rattle.std.specs.Prelude.{◌≡◌, ◌≤◌, ◌<◌, length, slice_get, OnOk, IfOk};
ghost use Rattle.std.specs.List.{range_with_len};
ghost use Rattle.asm_value.specs.Ranges.{tuples, put_first, each_first};
ghost use Rattle.asm_value.specs.State.{fire_one};
ghost use Rattle.asm_program.specs.Members as members;
ghost use Rattle.asm_program.specs.Initial as start;
ghost use Rattle.asm_terms.specs.Views.{program_of, map_of};
ghost use Rattle.asm_terms.specs.Evaluation.{ranges_in};
ghost use Rattle.asm_terms.specs.Starts as spec;

use crate::env::Env;
use crate::evaluate::{evaluate, ranges_of};
use crate::functions::{is_in_codomain, location_of};
use crate::view::View;
use asm_program::{Fault, FaultKind, InitInfo, Outcome, Program};
use asm_state::State;
use asm_value::{Args, Domain, DomainKind, List, Location, Subject, Update, Value};
use std::alloc::{AllocError, Global};

/// What the start of a program leads to: its initial state, or the first fault of an initial term.
#[derive(Drop)]
pub enum InitOutcome {
    Done(State),
    Fault(Fault),
}

/// The update that makes the member one of its domain.
fn membership(alloc: Global, domain: u16, index: u16) -> Result<Update, AllocError>
    ensures { IfOk result (λ update. update ≡ spec.membership domain index) }
{
    let mut args = Args::new(alloc);
    args.push(Value::Member { domain, index })?;
    Ok(Update {
        location: Location {
            subject: Subject::Domain(domain),
            args,
        },
        value: Value::Truth(true),
    })
}

/// Makes the first so many indexes members of the domain.
fn add_members(alloc: Global, state: &mut State, domain: u16, count: u16) -> Result<(), AllocError>
    ensures { OnOk result
        (state.new ≡ start.with_members domain (range_with_len 0 count) state.old) }
{
    for index in 0..count {
        let update = membership(alloc, domain, index)?;
        state.apply(&update)?;
    }
    Ok(())
}

/// Makes the constants of the declared domain its members.
fn add_constants(
    alloc: Global,
    state: &mut State,
    domain: u16,
    kind: &DomainKind,
) -> Result<(), AllocError>
    requires { members.constants_of kind.now ≤ 256 }
    ensures { OnOk result (state.new ≡
        start.with_members domain (range_with_len 0 (members.constants_of kind.now)) state.old) }
{
    match kind {
        DomainKind::Abstract(names) => { add_members(alloc, state, domain, names.len() as u16) }
        DomainKind::Enum(_) | DomainKind::Subset(_) => Ok(()),
    }
}

/// The state in which abstract domains have their constants, and all functions are undef.
fn bare_state(alloc: Global, program: &Program) -> Result<State, AllocError>
    ensures { IfOk result (λ state. state ≡ start.bare_state program.now.domains) }
{
    let mut state = State::new(alloc);
    for (at, info) in program.domains.as_slice().iter().enumerate() {
        add_constants(alloc, &mut state, at as u16, &info.kind)?;
    }
    Ok(state)
}

/// The domains of the function's arguments.
fn args_of(program: &Program, function: u16) -> &[Domain]
    ensures { result.now ≡ start.args_of (slice_get program.now.functions function) }
{
    match program.functions.as_slice().get(usize::from(function)) {
        Some(info) => info.args.as_slice(),
        None => &[],
    }
}

/// Gives the location the value.
fn write(
    alloc: Global,
    function: u16,
    args: &[Value],
    value: Value,
    state: &mut State,
) -> Result<(), AllocError>
    ensures { OnOk result
        (state.new ≡ fire_one state.old (spec.update_at function args.now value)) }
{
    let location = location_of(alloc, function, args)?;
    state.apply(&Update { location, value })
}

/// Gives the location the value, where that is undef or in the codomain.
fn set_value(
    alloc: Global,
    program: &Program,
    init: &InitInfo,
    args: &[Value],
    value: Value,
    state: &mut State,
) -> Result<Option<Fault>, AllocError>
    ensures { IfOk result (λ fault. spec.started fault state.new ≡
        start.with_value program.now init.now.function init.now.span args.now state.old value) }
{
    if value.is_undef() {
        return Ok(None);
    }
    if !is_in_codomain(program, init.function, &value) {
        return Ok(Some(Fault {
            kind: FaultKind::OutOfCodomain,
            span: init.span,
        }));
    }
    write(alloc, init.function, args, value, state)?;
    Ok(None)
}

/// Gives the function the value of its initial term with the variables' values as arguments.
fn start_at(
    alloc: Global,
    view: &View<'_>,
    init: &InitInfo,
    env: &mut Env,
    state: &mut State,
) -> Result<Option<Fault>, AllocError>
    ensures start { IfOk result (λ fault.
        spec.started fault state.new ≡ spec.start_at view.now init.now env.old state.old) }
    ensures same { IfOk result (λ _. env.new ≡ env.old) }
{
    match evaluate(alloc, view, env, init.body.get())? {
        Outcome::Value(value) => {
            set_value(alloc, view.program(), init, env.as_slice(), value, state)
        }
        Outcome::Fault(fault) => Ok(Some(fault)),
    }
}

/// The same at each list of arguments that goes on with one member of each range.
#[cycle(start)]
fn start_each(
    alloc: Global,
    view: &View<'_>,
    init: &InitInfo,
    env: &mut Env,
    ranges: &[List<Value>],
    state: &mut State,
) -> Result<Option<Fault>, AllocError>
    ensures start { IfOk result (λ fault. spec.started fault state.new ≡
        spec.starts_after view.now init.now env.old (tuples ranges.now) state.old) }
    ensures same { IfOk result (λ _. env.new ≡ env.old) }
{
    match ranges {
        [] => start_at(alloc, view, init, env, state),
        [first, others @ ..] => {
            start_members(alloc, view, init, env, first.as_slice(), others, state)
        }
    }
}

/// The same at each list of arguments that goes on with one of these members.
#[cycle(start)]
fn start_members(
    alloc: Global,
    view: &View<'_>,
    init: &InitInfo,
    env: &mut Env,
    members: &[Value],
    others: &[List<Value>],
    state: &mut State,
) -> Result<Option<Fault>, AllocError>
    ensures start { IfOk result (λ fault. spec.started fault state.new ≡
        spec.starts_after view.now init.now env.old
        (each_first members.now (tuples others.now)) state.old) }
    ensures same { IfOk result (λ _. env.new ≡ env.old) }
{
    for member in members {
        match start_with(alloc, view, init, env, member, others, state)? {
            Some(fault) => return Ok(Some(fault)),
            None => {}
        }
    }
    Ok(None)
}

/// The same at each list of arguments that goes on with this member.
#[cycle(start)]
fn start_with(
    alloc: Global,
    view: &View<'_>,
    init: &InitInfo,
    env: &mut Env,
    member: &Value,
    others: &[List<Value>],
    state: &mut State,
) -> Result<Option<Fault>, AllocError>
    ensures start { IfOk result (λ fault. spec.started fault state.new ≡
        spec.starts_after view.now init.now env.old
        (put_first member.now (tuples others.now)) state.old) }
    ensures same { IfOk result (λ _. env.new ≡ env.old) }
{
    let outer = env.len();
    env.push(member.copy(alloc)?)?;
    let fault = start_each(alloc, view, init, env, others, state)?;
    env.truncate(outer);
    Ok(fault)
}

/// Gives the function its initial value at each list of arguments.
fn start_function(
    alloc: Global,
    view: &View<'_>,
    init: &InitInfo,
    state: &mut State,
) -> Result<Option<Fault>, AllocError>
    requires { map_of view.now ≡ start.bare_state (program_of view.now).domains }
    ensures { IfOk result (λ fault. spec.started fault state.new ≡
        start.with_start (program_of view.now) init.now state.old) }
{
    let lists = ranges_of(alloc, view, args_of(view.program(), init.function))?;
    let mut env = Env::new(alloc);
    start_each(alloc, view, init, &mut env, lists.as_slice(), state)
}

/// Gives all functions their initial values, in text order.
fn start_all(
    alloc: Global,
    view: &View<'_>,
    inits: &[InitInfo],
    state: &mut State,
) -> Result<Option<Fault>, AllocError>
    requires { map_of view.now ≡ start.bare_state (program_of view.now).domains }
    ensures { IfOk result (λ fault. spec.started fault state.new ≡
        start.with_starts (program_of view.now) inits.now state.old) }
{
    for init in inits {
        match start_function(alloc, view, init, state)? {
            Some(fault) => return Ok(Some(fault)),
            None => {}
        }
    }
    Ok(None)
}

/// The initial state: abstract domains have their constants, and each function with an initial term
/// has its values, which are evaluated where no function has one. Or the first fault of an initial
/// term, or of a value that isn't in its function's codomain. `AllocError` is want of memory.
pub fn initial(alloc: Global, program: &Program) -> Result<InitOutcome, AllocError>
    ensures { IfOk result (λ out. spec.started_by out ≡ start.initial program.now) }
{
    let bare = bare_state(alloc, program)?;
    from_bare(alloc, program, &bare)
}

/// The initial state, from the bare one.
fn from_bare(alloc: Global, program: &Program, bare: &State) -> Result<InitOutcome, AllocError>
    requires { bare.now ≡ start.bare_state program.now.domains }
    ensures { IfOk result (λ out. spec.started_by out ≡ start.initial program.now) }
{
    let view = View::new(alloc, program, bare)?;
    in_view(alloc, &view, bare)
}

/// The same, where the view shows the bare state.
fn in_view(alloc: Global, view: &View<'_>, bare: &State) -> Result<InitOutcome, AllocError>
    requires bare { bare.now ≡ start.bare_state (program_of view.now).domains }
    requires view { map_of view.now ≡ start.bare_state (program_of view.now).domains }
    ensures { IfOk result (λ out. spec.started_by out ≡ start.initial (program_of view.now)) }
{
    let mut state = bare.copy(alloc)?;
    match start_all(alloc, view, view.program().inits.as_slice(), &mut state)? {
        None => Ok(InitOutcome::Done(state)),
        Some(fault) => Ok(InitOutcome::Fault(fault)),
    }
}
