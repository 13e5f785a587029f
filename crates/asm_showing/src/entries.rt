//! What a client is shown of a journal.
ghost use Rattle.std.specs.Prelude.{◌≡◌, map, IfOk};
ghost use Rattle.asm_board.specs.Logs as spec;

use asm_board::{Entry, call_port};
use asm_portable::{Port, push_field};
use asm_value::List;
use std::alloc::{AllocError, Global};

/// An entry: its call as the request that asks for it, its number, its reply and its seat.
fn entry_shown(alloc: Global, entry: &Entry) -> Result<Port, AllocError>
    ensures { IfOk result (λ port. port ≡ spec.entry_shown entry.now) }
{
    let mut shown = List::new(alloc);
    push_field(alloc, &mut shown, "call", call_port(alloc, &entry.call)?)?;
    push_field(alloc, &mut shown, "number", Port::from_number(entry.number))?;
    let reply = entry.body.reply_port(alloc, entry.number)?;
    push_field(alloc, &mut shown, "reply", reply)?;
    let seat = Port::from_number(u64::from(entry.seat));
    push_field(alloc, &mut shown, "seat", seat)?;
    Ok(Port::Fields(shown))
}

/// Each entry.
fn entries_shown(alloc: Global, entries: &[Entry]) -> Result<List<Port>, AllocError>
    ensures { IfOk result (λ trees. trees ≡ map spec.entry_shown entries.now) }
{
    let mut trees = List::new(alloc);
    for entry in entries {
        trees.push(entry_shown(alloc, entry)?)?;
    }
    Ok(trees)
}

/// What a log of these entries shows.
pub fn log_shown(alloc: Global, entries: &[Entry]) -> Result<Port, AllocError>
    ensures { IfOk result (λ port. port ≡ spec.log_shown entries.now) }
{
    let trees = entries_shown(alloc, entries)?;
    let mut shown = List::new(alloc);
    push_field(alloc, &mut shown, "entries", Port::List(trees))?;
    Ok(Port::Fields(shown))
}
