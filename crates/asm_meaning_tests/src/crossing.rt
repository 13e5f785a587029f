//! A crossing is a program, and each of its definitions has its value in the initial state.
use asm_parse::{parse_model, parse_term};
use asm_program::{Outcome, Program};
use asm_state::State;
use asm_terms::{Env, InitOutcome, eval, initial};
use asm_types::{check, check_term};
use asm_value::Value;
use std::alloc::{AllocError, Global};
use std::test::Fail;

/// A model with functions that are set from outside, and with invariants.
const CROSSING: &str = "asm Crossing
import ../STDL/StandardLibrary
signature:
    enum domain Light = {RED | AMBER | GREEN}
    enum domain Walk = {STOP | GO}
    domain Count subsetof Integer
    dynamic monitored button: Boolean
    dynamic controlled light: Light
    dynamic controlled ticks: Count
    dynamic controlled waiting: Boolean
    dynamic out walk: Walk
    derived limit: Light -> Integer
    derived expired: Boolean
definitions:
    domain Count = {0..9}
    function limit($l in Light) =
        switch $l
            case GREEN: 4
            case AMBER: 1
            otherwise 3
        endswitch
    function expired = ticks >= limit(light)
    rule r_turn($next in Light) =
        par
            light := $next
            ticks := 0
        endpar
    rule r_green =
        if expired and waiting then r_turn[AMBER]
        else if not expired then ticks := ticks + 1 endif
        endif
    rule r_amber =
        if expired then par r_turn[RED] walk := GO endpar
        else ticks := ticks + 1 endif
    rule r_red =
        if expired then
            par r_turn[GREEN] walk := STOP waiting := false endpar
        else ticks := ticks + 1 endif
    invariant inv_safe over light, walk: walk = GO implies light = RED
    invariant inv_ticks over ticks: ticks <= 4
    main rule r_Main =
        par
            // a press while cars may go is kept
            if button and light != RED then waiting := true endif
            switch light
                case GREEN: r_green[]
                case AMBER: r_amber[]
                otherwise r_red[]
            endswitch
        endpar
default init s0:
    function light = GREEN
    function ticks = 0
    function waiting = false
    function walk = STOP
";

/// What is true in the initial state, term by term.
const TRUE: [&str; 13] = [
    "limit(GREEN) = 4",
    "limit(AMBER) = 1",
    "limit(RED) = 3",
    "isUndef(limit(undef)) = false",
    "not expired",
    "light = GREEN",
    "ticks = 0",
    "not waiting",
    "walk = STOP",
    "isUndef(button)",
    "walk = GO implies light = RED",
    "ticks <= 4",
    "(forall $l in Light with limit($l) <= 4)",
];

/// The program of the crossing; None where the text has none.
fn program(alloc: Global) -> Option<Program> {
    let tree = parse_model(alloc, CROSSING).ok()?;
    check(alloc, CROSSING, &tree).ok()
}

/// The program's initial state; None where an initial term stops with a fault.
fn start(alloc: Global, program: &Program) -> Result<Option<State>, AllocError> {
    match initial(alloc, program)? {
        InitOutcome::Done(state) => Ok(Some(state)),
        InitOutcome::Fault(_) => Ok(None),
    }
}

/// Whether the text of a term is true in the state.
fn is_true(
    alloc: Global,
    program: &Program,
    state: &State,
    text: &str,
) -> Result<bool, AllocError> {
    let Ok(tree) = parse_term(alloc, text) else {
        return Ok(false);
    };
    let Ok(typed) = check_term(alloc, program, &tree, None) else {
        return Ok(false);
    };
    match eval(alloc, program, state, &Env::new(alloc), typed.term.get())? {
        Outcome::Value(Value::Truth(truth)) => Ok(truth),
        Outcome::Value(_) | Outcome::Fault(_) => Ok(false),
    }
}

/// Whether each of the terms is true in the state.
fn all_are_true(alloc: Global, program: &Program, state: &State) -> Result<bool, AllocError> {
    for text in &TRUE {
        if !is_true(alloc, program, state, text)? {
            return Ok(false);
        }
    }
    Ok(true)
}

/// Whether each of the terms is true in the program's initial state.
fn starts_so(alloc: Global, program: &Program) -> Result<bool, AllocError> {
    match start(alloc, program)? {
        Some(state) => all_are_true(alloc, program, &state),
        None => Ok(false),
    }
}

#[test]
fn the_definitions_of_the_crossing_have_their_values(rt: HostRuntime) -> Result<(), Fail> {
    let alloc = rt.alloc();
    let found = program(alloc);
    assert!(rt; found.is_some());
    if let Some(program) = found {
        assert!(rt; starts_so(alloc, &program)?);
    }
    Ok(())
}
