//! The server of one thread with little room for its journal, and what is written where a sink fails.

use asm_board::{Body, Call, Reply};
use asm_core::One;
use asm_io::MemorySink;
use asm_portable::Port;
use asm_value::{List, Text};
use asm_wire::{put_no_memory, put_reply};
use std::alloc::{AllocError, Global};
use std::test::Fail;

/// A model whose load weighs 10.
const Q: &str = "asm Q signature: controlled b: Boolean definitions: main rule r_Main = b := true";

/// The line of a server's reply to a call.
fn line_of(alloc: Global, one: &mut One, call: &Call) -> Result<Vec<u8>, AllocError> {
    let reply = one.answer(alloc, call)?;
    written(alloc, &reply)
}

/// The line of a reply.
fn written(alloc: Global, reply: &Reply) -> Result<Vec<u8>, AllocError> {
    let mut sink = MemorySink::new(alloc, 1000, &[])?;
    let _whole = put_reply(&mut sink, reply);
    Vec::from_slice(alloc, sink.held())
}

/// Whether a load and a step of it are answered so, where the journal has this room.
fn loads_and_steps(alloc: Global, room: u64, load: &str, step: &str) -> Result<bool, AllocError> {
    let mut one = One::new(alloc, room.min(8_388_608))?;
    let call = Call::Load {
        name: Text::from_str(alloc, "Q")?,
        text: Text::from_str(alloc, Q)?,
    };
    let loaded = line_of(alloc, &mut one, &call)?;
    let call = Call::Step {
        formula: Text::from_str(alloc, "Q")?,
        inputs: Port::Fields(List::new(alloc)),
        pick: None,
    };
    let stepped = line_of(alloc, &mut one, &call)?;
    Ok(loaded.as_slice() == load.as_bytes() && stepped.as_slice() == step.as_bytes())
}

/// A room, and the replies to a load that weighs 10 and a step that weighs 11.
const ROOMS: [(u64, &str, &str); 4] = [
    (
        9,
        "{\"at\":0,\"no\":\"JournalFull\",\"why\":{\"adds\":10,\"weight\":0}}\n",
        "{\"at\":0,\"no\":\"UnknownModel\",\"why\":{\"model\":\"Q\"}}\n",
    ),
    (
        10,
        "{\"at\":1,\"ok\":\"loaded\"}\n",
        "{\"at\":1,\"no\":\"JournalFull\",\"why\":{\"adds\":11,\"weight\":10}}\n",
    ),
    (
        20,
        "{\"at\":1,\"ok\":\"loaded\"}\n",
        "{\"at\":1,\"no\":\"JournalFull\",\"why\":{\"adds\":11,\"weight\":10}}\n",
    ),
    (
        21,
        "{\"at\":1,\"ok\":\"loaded\"}\n",
        "{\"at\":2,\"ok\":{\"out\":{\"Q\":{}}}}\n",
    ),
];

fn rooms(alloc: Global) -> Result<bool, AllocError> {
    let mut all = true;
    for (room, load, step) in ROOMS {
        all = loads_and_steps(alloc, room, load, step)? && all;
    }
    Ok(all)
}

#[test]
fn a_journal_takes_what_it_has_room_for(rt: HostRuntime) -> Result<(), Fail> {
    assert!(rt; rooms(rt.alloc())?);
    Ok(())
}

/// Whether a reply is written up to this many bytes where this call of the sink fails.
fn stops(alloc: Global, reply: &Reply, call: u64, bytes: usize) -> Result<bool, AllocError> {
    let line = b"{\"at\":7,\"ok\":true}\n";
    let mut sink = MemorySink::new(alloc, 1000, &[call])?;
    let failed = put_reply(&mut sink, reply).is_err();
    Ok(failed && line.starts_with(sink.held()) && sink.held().len() == bytes)
}

/// A reply is written in five pieces, and then flushed.
fn pieces(alloc: Global) -> Result<bool, AllocError> {
    let reply = Reply::new(alloc, 7, Body::Ok(Port::Bool(true)))?;
    let mut all = true;
    for (call, bytes) in [(0, 0), (1, 6), (2, 7), (3, 8), (4, 18), (5, 19)] {
        all = stops(alloc, &reply, call, bytes)? && all;
    }
    Ok(all)
}

#[test]
fn a_reply_is_written_as_far_as_writes_go(rt: HostRuntime) -> Result<(), Fail> {
    assert!(rt; pieces(rt.alloc())?);
    Ok(())
}

/// Whether the line for which memory was wanting is written up to this many bytes where this call of
/// the sink fails.
fn wants(alloc: Global, call: u64, bytes: usize) -> Result<bool, AllocError> {
    let line = b"{\"no\":\"NoMemory\"}\n";
    let mut sink = MemorySink::new(alloc, 100, &[call])?;
    let whole = put_no_memory(&mut sink).is_ok();
    Ok(whole == (call > 2) && line.starts_with(sink.held()) && sink.held().len() == bytes)
}

fn no_memory(alloc: Global) -> Result<bool, AllocError> {
    let mut all = true;
    for (call, bytes) in [(0, 0), (1, 17), (2, 18), (3, 18)] {
        all = wants(alloc, call, bytes)? && all;
    }
    Ok(all)
}

#[test]
fn want_of_memory_has_a_line(rt: HostRuntime) -> Result<(), Fail> {
    assert!(rt; no_memory(rt.alloc())?);
    Ok(())
}
