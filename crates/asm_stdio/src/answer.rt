//! The answer to one line.
ghost use Rattle.std.specs.Prelude.{◌≡◌, OnOk, OnErr};
ghost use Rattle.std.specs.Io.KnownBytes.{Appends};
ghost use Rattle.asm_io.specs.Causes.{HasCause};
ghost use Rattle.asm_io.specs.Lines.{whole, too_long};
ghost use Rattle.asm_wire.specs.Lines.{AppendsPart};
ghost use Rattle.asm_stdio.specs.Replies.{text_for, Leaves};
ghost use Rattle.asm_stdio.specs.Transcripts.{journal_room, IsAnswered, IsAnsweredPart};

use asm_board::{Refusal, Reply};
use asm_core::One;
use asm_io::{Failed, Sink};
use asm_wire::{put_no_memory, put_reply, read_request, refusal_reply};
use std::alloc::{AllocError, Global};

/// The most bytes of a line.
const MOST_LINE_BYTES: u64 = 1_048_576;

/// The reply to a line.
fn reply_to(alloc: Global, one: &mut One, line: &[u8]) -> Result<Reply, AllocError>
    requires { one.old.room ≡ journal_room }
    ensures leaves { Leaves one.old.journal (whole line.now) result one.new.journal }
    ensures room { one.new.room ≡ one.old.room }
{
    match read_request(alloc, line) {
        Ok(call) => one.answer(alloc, &call),
        Err(why) => refusal_reply(alloc, one.front(), why.into_refusal(alloc)?),
    }
}

/// The reply to a line that is too long.
fn long_reply(alloc: Global, one: &One) -> Result<Reply, AllocError>
    ensures { Leaves one.now.journal too_long result one.now.journal }
{
    let refusal = Refusal::line_too_long(alloc, MOST_LINE_BYTES)?;
    refusal_reply(alloc, one.front(), refusal)
}

/// Writes the reply, or that memory was wanting for it.
fn put<K: Sink>(sink: &mut K, reply: Result<Reply, AllocError>) -> Result<(), Failed>
    ensures all { OnOk result (Appends (K.held sink.old) (K.held sink.new) (text_for reply)) }
    ensures part { OnErr result (AppendsPart (K.held sink.old) (K.held sink.new) (text_for reply)) }
    ensures cause { HasCause (K.faults sink.old) (K.faults sink.new) result }
{
    match reply {
        Ok(reply) => put_reply(sink, &reply),
        Err(AllocError) => put_no_memory(sink),
    }
}

/// Answers a line.
pub fn answer_line<K: Sink>(
    alloc: Global,
    one: &mut One,
    line: &[u8],
    sink: &mut K,
) -> Result<(), Failed>
    requires { one.old.room ≡ journal_room }
    ensures all { OnOk result (IsAnswered one.old.journal (whole line.now) one.new.journal
        (K.held sink.old) (K.held sink.new)) }
    ensures part { OnErr result (IsAnsweredPart one.old.journal (whole line.now)
        (K.held sink.old) (K.held sink.new)) }
    ensures cause { HasCause (K.faults sink.old) (K.faults sink.new) result }
    ensures room { one.new.room ≡ one.old.room }
{
    let reply = reply_to(alloc, one, line);
    put(sink, reply)
}

/// Answers a line that is too long.
pub fn answer_long_line<K: Sink>(alloc: Global, one: &One, sink: &mut K) -> Result<(), Failed>
    ensures all { OnOk result (IsAnswered one.now.journal too_long one.now.journal
        (K.held sink.old) (K.held sink.new)) }
    ensures part { OnErr result (IsAnsweredPart one.now.journal too_long
        (K.held sink.old) (K.held sink.new)) }
    ensures cause { HasCause (K.faults sink.old) (K.faults sink.new) result }
{
    put(sink, long_reply(alloc, one))
}
