//! What a client is shown.
ghost use Rattle.std.specs.Prelude.{◌≡◌, [], ◌∷◌, codes, map, length, IfOk, OnOk};
ghost use Rattle.std.specs.Map.Iter.{deref_pair};
ghost use Rattle.asm_portable.specs.Ports.{text, field, ascending};
ghost use Rattle.asm_value.specs.Living.{is_abstract_kind, members_of_kind};
ghost use Rattle.asm_value.specs.State.{value_at};
ghost use Rattle.asm_state.specs.Functions.{entries_of};
ghost use Rattle.asm_program.specs.Meaning as meaning;
ghost use Rattle.asm_board.specs.Kinds as kinds;
ghost use Rattle.asm_board.specs.Shown as spec;
ghost use Rattle.asm_showing.specs.Showing.{with_domain, with_shown, has_kind};

use asm_board::{Content, NamedSlot, Slot};
use asm_portable::{Field, Port, port_of, ports_of, push_field, put_field};
use asm_program::{FunctionInfo, FunctionKind, Inv, Program};
use asm_state::State;
use asm_value::{
    Args, DomainInfo, DomainKind, Domains, List, Location, Shared, Subject, Text, Value,
};
use std::alloc::{AllocError, Global};

// ---- domains

fn is_abstract(info: &DomainInfo) -> bool
    ensures { result ≡ is_abstract_kind info.now.kind }
{
    match &info.kind {
        DomainKind::Abstract(_) => true,
        DomainKind::Enum(_) | DomainKind::Subset(_) => false,
    }
}

/// Puts an abstract domain's number of members under its name.
fn put_domain(
    alloc: Global,
    state: &State,
    number: usize,
    info: &DomainInfo,
    fields: &mut Vec<Field>,
) -> Result<(), AllocError>
    ensures { OnOk result (fields.new.items
        ≡ with_domain info.now.name info.now.kind
        (length (members_of_kind state.now number info.now.kind)) fields.old.items) }
{
    if !is_abstract(info) {
        return Ok(());
    }
    let members = state.members_of_kind(alloc, number, &info.kind)?;
    let key = info.name.copy(alloc)?;
    let tree = Port::from_number(members.len() as u64);
    put_field(fields, Field { key, tree })
}

/// The abstract domains with their numbers of members, ascending by name.
fn counted(alloc: Global, program: &Program, state: &State) -> Result<Vec<Field>, AllocError>
    ensures { IfOk result
        (λ fields. fields.items ≡ ascending (spec.counted state.now 0 program.now.domains)) }
{
    let domains = program.domains.as_slice();
    let mut fields = Vec::new(alloc);
    for number in (0..domains.len()).rev() {
        put_domain(alloc, state, number, &domains[number], &mut fields)?;
    }
    Ok(fields)
}

/// The abstract domains, as a tree.
fn domains_shown(alloc: Global, program: &Program, state: &State) -> Result<Port, AllocError>
    ensures { IfOk result (λ port. port ≡ spec.domains_shown program.now state.now) }
{
    Ok(Port::Fields(List::from_vec(counted(alloc, program, state)?)))
}

// ---- functions

/// The arguments and the value of a location.
fn pair_shown(
    alloc: Global,
    domains: &Domains,
    location: &Location,
    value: &Value,
) -> Result<Port, AllocError>
    ensures { IfOk result
        (λ port. port ≡ spec.pair_shown domains.now (location.now, value.now)) }
{
    let args = Port::List(ports_of(alloc, domains, location.args.as_slice())?);
    let value = port_of(alloc, domains, value)?;
    Ok(Port::List(List::from_vec(vec![in alloc; args, value]?)))
}

/// Each location with its value.
fn each_pair_shown(
    alloc: Global,
    domains: &Domains,
    entries: &[(&Location, &Value)],
) -> Result<List<Port>, AllocError>
    ensures { IfOk result
        (λ trees. trees ≡ map (spec.pair_shown domains.now) (map deref_pair entries.now)) }
{
    let mut trees = List::new(alloc);
    for entry in entries {
        trees.push(pair_shown(alloc, domains, entry.0, entry.1)?)?;
    }
    Ok(trees)
}

/// The locations of a function with their values, where there are any.
#[tactic(auto, using(crate::proofs::Pairs::some_pairs))]
fn pairs_shown(
    alloc: Global,
    domains: &Domains,
    state: &State,
    function: u16,
) -> Result<Option<Port>, AllocError>
    ensures { IfOk result
        (λ shown. shown ≡ spec.pairs_shown domains.now (entries_of function state.now)) }
{
    let entries = state.of_function(alloc, function)?;
    if entries.is_empty() {
        return Ok(None);
    }
    let trees = each_pair_shown(alloc, domains, entries.as_slice())?;
    Ok(Some(Port::List(trees)))
}

/// The value of a function without arguments.
fn value_of<'a>(alloc: Global, state: &'a State, function: u16) -> &'a Value
    ensures { result.now ≡ value_at state.now (meaning.location_of function []) }
{
    let location = Location {
        subject: Subject::Function(function),
        args: Args::new(alloc),
    };
    state.get(&location)
}

/// A value that isn't undef.
fn value_shown(alloc: Global, domains: &Domains, value: &Value) -> Result<Option<Port>, AllocError>
    ensures { IfOk result (λ shown. shown ≡ spec.value_shown domains.now value.now) }
{
    if value.is_undef() {
        return Ok(None);
    }
    Ok(Some(port_of(alloc, domains, value)?))
}

/// What is shown of a function, where it is defined somewhere.
fn function_shown(
    alloc: Global,
    domains: &Domains,
    state: &State,
    function: u16,
    info: &FunctionInfo,
) -> Result<Option<Port>, AllocError>
    ensures { IfOk result (λ shown. shown
        ≡ spec.function_shown domains.now state.now function info.now.args) }
{
    match info.args.as_slice() {
        [] => value_shown(alloc, domains, value_of(alloc, state, function)),
        [_, ..] => pairs_shown(alloc, domains, state, function),
    }
}

/// Puts what is shown of a function under its name, where it is defined.
fn put_shown(
    alloc: Global,
    name: &Text,
    shown: Option<Port>,
    fields: &mut Vec<Field>,
) -> Result<(), AllocError>
    ensures { OnOk result (fields.new.items ≡ with_shown name.now shown fields.old.items) }
{
    match shown {
        Some(tree) => {
            let key = name.copy(alloc)?;
            put_field(fields, Field { key, tree })
        }
        None => Ok(()),
    }
}

/// Which functions are shown.
#[derive(Clone, Copy)]
enum Kinds {
    /// All of them.
    Every,
    /// The out functions.
    Out,
}

impl Kinds {
    /// Whether a function of this kind is shown.
    fn has(self, kind: FunctionKind) -> bool
        ensures { result ≡ has_kind self kind }
    {
        match self {
            Kinds::Every => true,
            Kinds::Out => is_out(kind),
        }
    }
}

/// Whether the environment is told of a function of this kind.
pub(crate) fn is_out(kind: FunctionKind) -> bool
    ensures { result ≡ kinds.is_out kind }
{
    match kind {
        FunctionKind::Out => true,
        FunctionKind::Static
        | FunctionKind::Derived
        | FunctionKind::Controlled
        | FunctionKind::Monitored
        | FunctionKind::Shared
        | FunctionKind::Constant => false,
    }
}

/// What is shown of a function of some kinds, where it is defined somewhere.
fn shown_of(
    alloc: Global,
    kinds: Kinds,
    program: &Program,
    state: &State,
    function: u16,
    info: &FunctionInfo,
) -> Result<Option<Port>, AllocError>
    ensures { IfOk result (λ shown. shown ≡ spec.shown_if (has_kind kinds info.now.kind)
        (spec.function_shown program.now.domains state.now function info.now.args)) }
{
    if kinds.has(info.kind) {
        function_shown(alloc, &program.domains, state, function, info)
    } else {
        Ok(None)
    }
}

/// The defined functions of some kinds with what is shown of them, ascending by name.
fn defined(
    alloc: Global,
    kinds: Kinds,
    program: &Program,
    state: &State,
) -> Result<Vec<Field>, AllocError>
    ensures { IfOk result
        (λ fields. fields.items ≡ spec.listed_of (has_kind kinds) program.now state.now) }
{
    let functions = program.functions.as_slice();
    let mut fields = Vec::new(alloc);
    for number in (0..functions.len()).rev() {
        let info = &functions[number];
        let shown = shown_of(alloc, kinds, program, state, number as u16, info)?;
        put_shown(alloc, &info.name, shown, &mut fields)?;
    }
    Ok(fields)
}

/// The defined functions, as a tree.
fn functions_shown(alloc: Global, program: &Program, state: &State) -> Result<Port, AllocError>
    ensures { IfOk result (λ port. port ≡ spec.functions_shown program.now state.now) }
{
    let fields = defined(alloc, Kinds::Every, program, state)?;
    Ok(Port::Fields(List::from_vec(fields)))
}

/// The first fields of what is shown: the domains, and the defined functions.
fn first_fields(alloc: Global, program: &Program, state: &State) -> Result<List<Field>, AllocError>
    ensures { IfOk result (λ first. first
        ≡ field (codes "domains") (spec.domains_shown program.now state.now)
        ∷ field (codes "functions") (spec.functions_shown program.now state.now) ∷ []) }
{
    let mut first = List::new(alloc);
    let domains = domains_shown(alloc, program, state)?;
    push_field(alloc, &mut first, "domains", domains)?;
    let functions = functions_shown(alloc, program, state)?;
    push_field(alloc, &mut first, "functions", functions)?;
    Ok(first)
}

/// What a run shows of its last state.
pub fn run_shown(
    alloc: Global,
    program: &Program,
    steps: u64,
    state: &State,
) -> Result<Port, AllocError>
    ensures { IfOk result (λ port. port ≡ spec.run_shown program.now steps state.now) }
{
    let mut shown = first_fields(alloc, program, state)?;
    push_field(alloc, &mut shown, "steps", Port::from_number(steps))?;
    Ok(Port::Fields(shown))
}

/// The names of invariants.
fn names_shown(alloc: Global, invs: &[Shared<Inv>]) -> Result<List<Port>, AllocError>
    ensures { IfOk result (λ names. names ≡ map (λ inv. text inv.name) invs.now) }
{
    let mut names = List::new(alloc);
    for inv in invs {
        names.push(Port::Text(inv.get().name.copy(alloc)?))?;
    }
    Ok(names)
}

/// What is shown of a model.
pub fn state_shown(alloc: Global, slot: &Slot) -> Result<Port, AllocError>
    ensures { IfOk result (λ port. port ≡ spec.state_shown slot.now) }
{
    let content = slot.content.get();
    let mut shown = first_fields(alloc, content.program().get(), content.state().get())?;
    let invs = names_shown(alloc, content.invs().get().as_slice())?;
    push_field(alloc, &mut shown, "invs", Port::List(invs))?;
    push_field(
        alloc,
        &mut shown,
        "version",
        Port::from_number(slot.version),
    )?;
    Ok(Port::Fields(shown))
}

/// A model's name with its version.
fn model_shown(alloc: Global, model: &NamedSlot) -> Result<Port, AllocError>
    ensures { IfOk result (λ port. port ≡ spec.model_shown model.now) }
{
    let name = Port::Text(model.name.copy(alloc)?);
    let version = Port::from_number(model.slot.version);
    Ok(Port::List(List::from_vec(vec![in alloc; name, version]?)))
}

/// Each model's name with its version.
pub fn models_shown(alloc: Global, models: &[NamedSlot]) -> Result<Port, AllocError>
    ensures { IfOk result (λ port. port ≡ spec.models_shown models.now) }
{
    let mut trees = List::new(alloc);
    for model in models {
        trees.push(model_shown(alloc, model)?)?;
    }
    Ok(Port::List(trees))
}

/// What the environment is told of a content: its out functions that are defined.
pub(crate) fn outs_shown(alloc: Global, content: &Content) -> Result<Port, AllocError>
    ensures { IfOk result (λ port. port ≡ spec.outs_shown content.now) }
{
    let fields = defined(
        alloc,
        Kinds::Out,
        content.program().get(),
        content.state().get(),
    )?;
    Ok(Port::Fields(List::from_vec(fields)))
}
