//! What models offer each other, and what a step tells of its models.
ghost use Rattle.std.specs.Prelude.{◌≡◌, ◌++◌, map, IfOk, OnOk};
ghost use Rattle.std.specs.Map.Iter.{deref_pair};
ghost use Rattle.asm_portable.specs.Ports as ports;
ghost use Rattle.asm_board.specs.Shown as spec;

use crate::shown::{is_out, outs_shown};
use asm_board::Content;
use asm_compose::{Given, Offer};
use asm_portable::{Field, Port, port_of, ports_of, push_field, put_field};
use asm_program::{FunctionInfo, Program};
use asm_state::State;
use asm_value::{Domains, List, Location, Shared, Text, Value};
use std::alloc::{AllocError, Global};

// ---- offers

/// A location of a function with its value, as other models are offered it.
fn offered_entry(
    alloc: Global,
    domains: &Domains,
    function: &Text,
    location: &Location,
    value: &Value,
) -> Result<Given, AllocError>
    ensures { IfOk result (λ given. given
        ≡ spec.offered_entry domains.now function.now (location.now, value.now)) }
{
    let args = ports_of(alloc, domains, location.args.as_slice())?;
    let value = port_of(alloc, domains, value)?;
    Ok(Given {
        function: function.copy(alloc)?,
        args,
        value,
    })
}

/// Puts each location of a function behind what is offered.
fn put_entries(
    alloc: Global,
    domains: &Domains,
    function: &Text,
    entries: &[(&Location, &Value)],
    offers: &mut Vec<Given>,
) -> Result<(), AllocError>
    ensures { OnOk result (offers.new.items ≡ offers.old.items
        ++ map (spec.offered_entry domains.now function.now) (map deref_pair entries.now)) }
{
    for entry in entries {
        offers.push(offered_entry(alloc, domains, function, entry.0, entry.1)?)?;
    }
    Ok(())
}

/// Puts what a function offers behind what is offered: its locations, where it is an out function.
fn put_function(
    alloc: Global,
    domains: &Domains,
    state: &State,
    function: u16,
    info: &FunctionInfo,
    offers: &mut Vec<Given>,
) -> Result<(), AllocError>
    ensures { OnOk result (offers.new.items ≡ offers.old.items
        ++ spec.function_offers domains.now state.now function info.now) }
{
    if !is_out(info.kind) {
        return Ok(());
    }
    let entries = state.of_function(alloc, function)?;
    put_entries(alloc, domains, &info.name, entries.as_slice(), offers)
}

/// What the functions offer, in text order.
fn offers_from(alloc: Global, program: &Program, state: &State) -> Result<Vec<Given>, AllocError>
    ensures { IfOk result (λ offers. offers.items
        ≡ spec.offers_from program.now.domains state.now 0 program.now.functions) }
{
    let functions = program.functions.as_slice();
    let mut offers = Vec::new(alloc);
    for (number, info) in functions.iter().enumerate() {
        put_function(
            alloc,
            &program.domains,
            state,
            number as u16,
            info,
            &mut offers,
        )?;
    }
    Ok(offers)
}

/// What a content offers other models: its defined out locations.
pub fn offer_of(alloc: Global, content: &Content) -> Result<Offer, AllocError>
    ensures { IfOk result (λ offer. offer ≡ spec.offer_of content.now) }
{
    let offers = offers_from(alloc, content.program().get(), content.state().get())?;
    Offer::gather(alloc, List::from_vec(offers))
}

// ---- steps

/// Puts what the environment is told of a model under its name.
fn put_outs(
    alloc: Global,
    leaf: &(Text, Shared<Content>),
    fields: &mut Vec<Field>,
) -> Result<(), AllocError>
    ensures { OnOk result (fields.new.items ≡ ports.put_field
        (ports.field leaf.now.0 (spec.outs_shown leaf.now.1)) fields.old.items) }
{
    let key = leaf.0.copy(alloc)?;
    let tree = outs_shown(alloc, leaf.1.get())?;
    put_field(fields, Field { key, tree })
}

/// What the environment is told of each of these models, ascending by name.
fn outs_of_each(alloc: Global, leaves: &[(Text, Shared<Content>)]) -> Result<Vec<Field>, AllocError>
    ensures { IfOk result (λ fields. fields.items
        ≡ ports.ascending (map (λ l. ports.field l.0 (spec.outs_shown l.1)) leaves.now)) }
{
    let mut fields = Vec::new(alloc);
    for number in (0..leaves.len()).rev() {
        put_outs(alloc, &leaves[number], &mut fields)?;
    }
    Ok(fields)
}

/// What a step tells: the out functions of its models, which have these contents.
pub fn steps_shown(alloc: Global, leaves: &[(Text, Shared<Content>)]) -> Result<Port, AllocError>
    ensures { IfOk result (λ port. port ≡ spec.steps_shown leaves.now) }
{
    let models = Port::Fields(List::from_vec(outs_of_each(alloc, leaves)?));
    let mut fields = List::new(alloc);
    push_field(alloc, &mut fields, "out", models)?;
    Ok(Port::Fields(fields))
}
