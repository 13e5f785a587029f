//! Calls prepared at a board.
ghost use Rattle.std.specs.Prelude.{◌≡◌, ◌&&◌, true, false, [], ◌∷◌, is_none, option_map, IfOk};
ghost use Rattle.asm_board.specs.Answers.{Stands};
ghost use Rattle.asm_board.specs.Boards.{body_of_read, is_new_model, read_at};
ghost use Rattle.asm_board.specs.Calls as calls;
ghost use Rattle.asm_board.specs.Calls.{footprint, is_change};
ghost use Rattle.asm_board.specs.Coming.{Comes};
ghost use Rattle.asm_board.specs.Changes as changes;
ghost use Rattle.asm_board.specs.declared.call.Call.TheVariants as variants;
ghost use Rattle.asm_board.specs.Changes.{Change, is_right_name};
ghost use Rattle.asm_board.specs.Refusals.{Tried};
ghost use Rattle.asm_board.specs.Replies.{tail_of};
ghost use Rattle.asm_board.specs.Slots as slots;
ghost use Rattle.asm_board.specs.Slots.{Models, slot_in, versions_in};
ghost use Rattle.asm_portable.specs.declared.port.Port.{Port as Ports};
ghost use Rattle.asm_core.specs.Preparing.{effect_of, read_made, change_made};
ghost use Rattle.asm_core.specs.Language.{asmeta};

use crate::changes::{is_right_name, load, rollback, unload};
use crate::formulas::{formula_in, step_models};
use crate::invariants::{add_invariant, drop_invariant};
use crate::reads::shown;
use asm_board::{
    Accepted, Board, Body, Call, Changed, Content, NameVersion, News, Prepared, Refusal, Slot,
    Stop, Trail,
};
use asm_portable::Port;
use asm_trail::remember;
use asm_value::{List, Shared, Text};
use std::alloc::{AllocError, Global};

// ---- reads

/// What a read answers.
fn read_body(shown: Result<Port, Stop>) -> Result<Body, AllocError>
    ensures { (tried : Tried Ports) → Comes (λ tree. tree) tried shown
        → IfOk result (λ body. body ≡ body_of_read tried) }
{
    match shown {
        Ok(tree) => Ok(Body::Ok(tree)),
        Err(Stop::Refused(refusal)) => Ok(Body::No(refusal)),
        Err(Stop::NoMemory) => Err(AllocError),
    }
}

/// What a read answers at a board, or that it is to be answered after more entries.
fn read_at(alloc: Global, board: &Board, call: &Call) -> Result<Body, AllocError>
    ensures { IfOk result (λ body. body ≡ read_at asmeta board.now call.now) }
{
    if call.since() > board.front() {
        return Ok(Body::No(Refusal::ahead(alloc, board.front())?));
    }
    read_body(shown(alloc, board, call))
}

/// What a prepared call has beside what it comes to: a copy of the call, the models of which it
/// speaks, and the text of its body after the reply's number.
#[derive(Drop)]
struct Spoken {
    call: Call,
    versions: List<NameVersion>,
    tail: Text,
}

fn told(
    alloc: Global,
    call: &Call,
    body: &Body,
    versions: List<NameVersion>,
) -> Result<Spoken, AllocError>
    ensures { IfOk result (λ told. told
        ≡ record { call = call.now; versions = versions; tail = tail_of body.now }) }
{
    let tail = body.tail(alloc)?;
    Ok(Spoken {
        call: call.copy(alloc)?,
        versions,
        tail,
    })
}

/// A read that answers this.
fn read_made(alloc: Global, call: &Call, body: Body) -> Result<Prepared, AllocError>
    ensures { IfOk result (λ prepared. prepared ≡ read_made call.now body) }
{
    let told = told(alloc, call, &body, List::new(alloc))?;
    Ok(Prepared {
        call: told.call,
        versions: told.versions,
        body,
        tail: told.tail,
        slots: List::new(alloc),
        loads: false,
        weight: 0,
    })
}

/// A read, prepared.
fn read_prepared(alloc: Global, board: &Board, call: &Call) -> Result<Prepared, AllocError>
    requires { is_change call.now ≡ false }
    ensures { IfOk result (λ prepared. Stands asmeta prepared call.now board.now) }
{
    let body = read_at(alloc, board, call)?;
    read_made(alloc, call, body)
}

// ---- changes

/// What the entry of an accepted call weighs.
fn weight_of(call: &Call, ok: &Port) -> u64
    ensures { result ≡ calls.entry_weight call.now ok.now }
{
    call.weight().saturating_add(ok.weight()).saturating_add(4)
}

/// The models of which a change speaks, with their versions.
fn versions_of(
    alloc: Global,
    board: &Board,
    names: &[Text],
) -> Result<List<NameVersion>, AllocError>
    ensures { IfOk result (λ versions. versions ≡ versions_in board.now.slots names.now) }
{
    let mut versions = List::new(alloc);
    for name in names {
        let version = board.version(name);
        let name = name.copy(alloc)?;
        versions.push(NameVersion { name, version })?;
    }
    Ok(versions)
}

/// The earlier contents of a model after a change: none of a new one.
fn trail_after(alloc: Global, old: Option<&Slot>) -> Result<Trail, AllocError>
    ensures { IfOk result
        (λ trail. trail ≡ slots.trail_after (option_map (λ slot. slot.now) old.entry)) }
{
    match old {
        Some(slot) => remember(alloc, slot.trail.get(), slot.version, &slot.content),
        None => Ok(Trail {
            pairs: List::new(alloc),
        }),
    }
}

/// The new slot of a model, before the version of its entry is known.
fn new_slot(
    alloc: Global,
    board: &Board,
    name: &Text,
    content: Shared<Content>,
) -> Result<Slot, AllocError>
    ensures { IfOk result (λ slot. slot
        ≡ slots.new_slot (slot_in board.now.slots name.now) content) }
{
    let trail = Shared::new(alloc, trail_after(alloc, board.slot(name))?)?;
    Ok(Slot {
        version: 0,
        content,
        trail,
    })
}

/// The new slot of a model, or that it goes.
fn changed(alloc: Global, board: &Board, news: &News) -> Result<Changed, AllocError>
    ensures { IfOk result (λ changed. changed ≡ slots.slot_of_news board.now.slots news.now) }
{
    let slot = match &news.content {
        Some(content) => Some(new_slot(alloc, board, &news.name, content.share()?)?),
        None => None,
    };
    Ok(Changed {
        name: news.name.copy(alloc)?,
        slot,
    })
}

/// The new slots of models.
fn all_changed(alloc: Global, board: &Board, news: &[News]) -> Result<List<Changed>, AllocError>
    ensures { IfOk result (λ changed. changed ≡ slots.new_slots board.now.slots news.now) }
{
    let mut slots = List::new(alloc);
    for one in news {
        slots.push(changed(alloc, board, one)?)?;
    }
    Ok(slots)
}

/// What a change answers, its new slots and the weight of its entry.
#[derive(Drop)]
struct Effect {
    body: Body,
    slots: List<Changed>,
    weight: u64,
}

fn effect_of(
    alloc: Global,
    board: &Board,
    call: &Call,
    tried: Result<Accepted, Stop>,
) -> Result<Effect, AllocError>
    ensures { (change : Change) → Comes (λ accepted. accepted) change tried
        → IfOk result (λ effect. effect ≡ effect_of board.now.slots call.now change) }
{
    match tried {
        Ok(Accepted { ok, news }) => Ok(Effect {
            weight: weight_of(call, &ok),
            body: Body::Ok(ok),
            slots: all_changed(alloc, board, news.as_slice())?,
        }),
        Err(Stop::Refused(refusal)) => Ok(Effect {
            weight: 0,
            body: Body::No(refusal),
            slots: List::new(alloc),
        }),
        Err(Stop::NoMemory) => Err(AllocError),
    }
}

fn change_told(
    alloc: Global,
    board: &Board,
    call: &Call,
    names: &[Text],
    body: &Body,
) -> Result<Spoken, AllocError>
    ensures { IfOk result (λ told. told ≡ record {
      call = call.now;
      versions = versions_in board.now.slots names.now;
      tail = tail_of body.now;
    }) }
{
    let versions = versions_of(alloc, board, names)?;
    told(alloc, call, body, versions)
}

/// A change of the models of these names that comes to this.
fn change_made(
    alloc: Global,
    board: &Board,
    call: &Call,
    names: &[Text],
    loads: bool,
    tried: Result<Accepted, Stop>,
) -> Result<Prepared, AllocError>
    ensures { (change : Change) → Comes (λ accepted. accepted) change tried
        → IfOk result
        (λ prepared. prepared ≡ change_made board.now call.now names.now loads change) }
{
    let effect = effect_of(alloc, board, call, tried)?;
    let told = change_told(alloc, board, call, names, &effect.body)?;
    Ok(Prepared {
        call: told.call,
        versions: told.versions,
        body: effect.body,
        tail: told.tail,
        slots: effect.slots,
        loads,
        weight: effect.weight,
    })
}

/// The one name.
fn only_name(alloc: Global, name: &Text) -> Result<List<Text>, AllocError>
    ensures { IfOk result (λ names. names ≡ name.now ∷ []) }
{
    List::only(alloc, name.copy(alloc)?)
}

/// Whether a load would make a new model under this name.
fn is_new(board: &Board, name: &Text) -> bool
    ensures { result ≡ (is_right_name name.now && is_none (slot_in board.now.slots name.now)) }
{
    is_right_name(name.as_str()) && board.slot(name).is_none()
}

/// A load, prepared.
fn load_prepared(
    alloc: Global,
    board: &Board,
    call: &Call,
    name: &Text,
    text: &Text,
) -> Result<Prepared, AllocError>
    requires { call.now ≡ variants.Load name.now text.now }
    ensures { IfOk result (λ prepared. Stands asmeta prepared call.now board.now) }
{
    let loads = is_new(board, name);
    let names = only_name(alloc, name)?;
    let tried = load(alloc, board, name, text.as_str());
    change_made(alloc, board, call, names.as_slice(), loads, tried)
}

/// What a change other than a load comes to, by what was tried, prepared: a change of the models of
/// these names.
fn changed_models(
    alloc: Global,
    board: &Board,
    call: &Call,
    names: &[Text],
    tried: Result<Accepted, Stop>,
) -> Result<Prepared, AllocError>
    requires speaks { footprint call.now ≡ names.now }
    requires change { is_change call.now ≡ true }
    requires old { (models : Models) → is_new_model models call.now ≡ false }
    requires comes { Comes (λ accepted. accepted)
        (changes.change asmeta board.now.slots call.now) tried }
    ensures { IfOk result (λ prepared. Stands asmeta prepared call.now board.now) }
{
    change_made(alloc, board, call, names, false, tried)
}

/// The same of a change of one model.
fn changed_model(
    alloc: Global,
    board: &Board,
    call: &Call,
    name: &Text,
    tried: Result<Accepted, Stop>,
) -> Result<Prepared, AllocError>
    requires speaks { footprint call.now ≡ name.now ∷ [] }
    requires change { is_change call.now ≡ true }
    requires old { (models : Models) → is_new_model models call.now ≡ false }
    requires comes { Comes (λ accepted. accepted)
        (changes.change asmeta board.now.slots call.now) tried }
    ensures { IfOk result (λ prepared. Stands asmeta prepared call.now board.now) }
{
    let names = only_name(alloc, name)?;
    changed_models(alloc, board, call, names.as_slice(), tried)
}

/// A step, prepared: its models are those of its formula, none where its text is none.
fn step_prepared(
    alloc: Global,
    board: &Board,
    call: &Call,
    formula: &Text,
    inputs: &Port,
    pick: Option<u64>,
) -> Result<Prepared, AllocError>
    requires { call.now ≡ variants.Step formula.now inputs.now pick }
    ensures { IfOk result (λ prepared. Stands asmeta prepared call.now board.now) }
{
    match formula_in(alloc, formula)? {
        Ok(read) => {
            let names = read.names(alloc)?;
            let tried = step_models(alloc, board, &read, names.as_slice(), inputs, pick);
            changed_models(alloc, board, call, names.as_slice(), tried)
        }
        Err(refusal) => {
            let tried = Err(Stop::Refused(refusal));
            changed_models(alloc, board, call, &[], tried)
        }
    }
}

/// Evaluates a call at a board: its answer there, and for an accepted change the new slots and the
/// weight of its entry, were there room for it. A log is answered by `answer_log` in its place,
/// since a board has no entries. It changes nothing.
pub fn prepare(alloc: Global, board: &Board, call: &Call) -> Result<Prepared, AllocError>
    ensures { IfOk result (λ prepared. Stands asmeta prepared call.now board.now) }
{
    match call {
        Call::Load { name, text } => load_prepared(alloc, board, call, name, text),
        Call::Unload { name } => {
            let tried = unload(alloc, board, name);
            changed_model(alloc, board, call, name, tried)
        }
        Call::Step {
            formula,
            inputs,
            pick,
        } => step_prepared(alloc, board, call, formula, inputs, *pick),
        Call::AddInvariant { name, inv, term } => {
            let tried = add_invariant(alloc, board, name, inv, term);
            changed_model(alloc, board, call, name, tried)
        }
        Call::DropInvariant { name, inv } => {
            let tried = drop_invariant(alloc, board, name, inv);
            changed_model(alloc, board, call, name, tried)
        }
        Call::Rollback { name, to } => {
            let tried = rollback(alloc, board, name, *to);
            changed_model(alloc, board, call, name, tried)
        }
        Call::Run { .. }
        | Call::State { .. }
        | Call::Value { .. }
        | Call::ShowText { .. }
        | Call::Models { .. }
        | Call::Log { .. } => read_prepared(alloc, board, call),
    }
}
