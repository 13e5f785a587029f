//! Replies as lines.
ghost use Rattle.std.specs.Prelude.{◌≡◌, ◌∷◌, ◌++◌, codes, decimal, IfOk, OnOk, OnErr};
ghost use Rattle.std.specs.Io.KnownBytes.{Appends};
ghost use Rattle.asm_io.specs.Causes.{HasCause};
ghost use Rattle.asm_board.specs.declared.reply.Body.TheVariants.{No};
ghost use Rattle.asm_board.specs.Replies.{reply_of};
ghost use Rattle.asm_wire.specs.Lines.{line_of, reply_line, no_memory_line, AppendsPart};

use asm_board::{Body, Refusal, Reply};
use asm_io::{Failed, Sink, write_whole};
use itoa::Buffer;
use std::alloc::{AllocError, Global};

/// The reply that tells a refusal after so many accepted changes.
pub fn refusal_reply(alloc: Global, at: u64, refusal: Refusal) -> Result<Reply, AllocError>
    ensures { IfOk result (λ reply. reply ≡ reply_of at (No refusal)) }
{
    Reply::new(alloc, at, Body::No(refusal))
}

#[tactic(auto, using(crate::proofs::Parts::part_steps))]
fn put_both<K: Sink>(sink: &mut K, first: &[u8], second: &[u8]) -> Result<(), Failed>
    ensures all { OnOk result
        (Appends (K.held sink.old) (K.held sink.new) (first.now ++ second.now)) }
    ensures part { OnErr result
        (AppendsPart (K.held sink.old) (K.held sink.new) (first.now ++ second.now)) }
    ensures cause { HasCause (K.faults sink.old) (K.faults sink.new) result }
{
    write_whole(sink, first)?;
    write_whole(sink, second)
}

/// Writes the end of a line and its line feed, and hands on what the sink holds.
#[tactic(auto, using(crate::proofs::Parts::part_steps))]
fn put_end<K: Sink>(sink: &mut K, end: &[u8]) -> Result<(), Failed>
    ensures all { OnOk result (Appends (K.held sink.old) (K.held sink.new) (line_of end.now)) }
    ensures part { OnErr result
        (AppendsPart (K.held sink.old) (K.held sink.new) (line_of end.now)) }
    ensures cause { HasCause (K.faults sink.old) (K.faults sink.new) result }
{
    put_both(sink, end, b"\n")?;
    sink.flush()
}

/// Writes the front of a reply's line, up to the number.
fn put_count<K: Sink>(sink: &mut K, at: u64) -> Result<(), Failed>
    ensures all { OnOk result
        (Appends (K.held sink.old) (K.held sink.new) (codes "{\"at\":" ++ decimal at)) }
    ensures part { OnErr result
        (AppendsPart (K.held sink.old) (K.held sink.new) (codes "{\"at\":" ++ decimal at)) }
    ensures cause { HasCause (K.faults sink.old) (K.faults sink.new) result }
{
    let mut digits = Buffer::new();
    put_both(sink, b"{\"at\":", digits.format(at).as_bytes())
}

/// Writes the comma behind the number, and the rest of the line.
#[tactic(auto, using(crate::proofs::Parts::part_steps))]
fn put_tail<K: Sink>(sink: &mut K, tail: &[u8]) -> Result<(), Failed>
    ensures all { OnOk result
        (Appends (K.held sink.old) (K.held sink.new) (line_of (44 ∷ tail.now))) }
    ensures part { OnErr result
        (AppendsPart (K.held sink.old) (K.held sink.new) (line_of (44 ∷ tail.now))) }
    ensures cause { HasCause (K.faults sink.old) (K.faults sink.new) result }
{
    write_whole(sink, b",")?;
    put_end(sink, tail)
}

/// Writes the line of a reply and flushes the sink. After `Failed` some first bytes of the line
/// were written. It takes no memory.
pub fn put_reply<K: Sink>(sink: &mut K, reply: &Reply) -> Result<(), Failed>
    ensures all { OnOk result
        (Appends (K.held sink.old) (K.held sink.new) (reply_line reply.now)) }
    ensures part { OnErr result
        (AppendsPart (K.held sink.old) (K.held sink.new) (reply_line reply.now)) }
    ensures cause { HasCause (K.faults sink.old) (K.faults sink.new) result }
{
    put_count(sink, reply.at)?;
    put_tail(sink, reply.tail.as_str().as_bytes())
}

/// Writes the line for which memory was wanting, and flushes the sink. After `Failed` some first
/// bytes of the line were written. It takes no memory.
pub fn put_no_memory<K: Sink>(sink: &mut K) -> Result<(), Failed>
    ensures all { OnOk result (Appends (K.held sink.old) (K.held sink.new) no_memory_line) }
    ensures part { OnErr result
        (AppendsPart (K.held sink.old) (K.held sink.new) no_memory_line) }
    ensures cause { HasCause (K.faults sink.old) (K.faults sink.new) result }
{
    put_end(sink, b"{\"no\":\"NoMemory\"}")
}
