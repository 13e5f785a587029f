//! The demo on a sink.
ghost use Rattle.std.specs.Prelude.{◌≡◌, ◌⊎◌, OnOk, OnErr};
ghost use Rattle.std.specs.Io.KnownBytes.{Appends};
ghost use Rattle.asm_io.specs.Causes.{HasCause, Rose};
ghost use Rattle.asm_wire.specs.Lines.{AppendsPart};
ghost use Rattle.asm_demo.specs.Lines as demo;

use asm_demo::demo_line;
use asm_io::{Failed, Sink, write_whole};
use std::alloc::Global;

/// Writes a line and hands it on.
#[tactic(auto, using(asm_wire::proofs::Parts::part_steps))]
fn put_line<K: Sink>(sink: &mut K, line: &[u8]) -> Result<(), Failed>
    ensures all { OnOk result (Appends (K.held sink.old) (K.held sink.new) line.now) }
    ensures part { OnErr result (AppendsPart (K.held sink.old) (K.held sink.new) line.now) }
    ensures cause { HasCause (K.faults sink.old) (K.faults sink.new) result }
{
    write_whole(sink, line)?;
    sink.flush()
}

/// Writes the line of the demo of this size, and gives the exit status: 0 where it is written, 3
/// where a write or the flush failed, and 4 where memory was wanting; then nothing is written.
pub fn run_demo<K: Sink>(alloc: Global, size: u64, sink: &mut K) -> u8
    ensures done { result ≡ 0 →
        Appends (K.held sink.old) (K.held sink.new) (demo.demo_line size) }
    ensures part { result ≡ 3 →
        AppendsPart (K.held sink.old) (K.held sink.new) (demo.demo_line size) }
    ensures fault { result ≡ 3 → Rose (K.faults sink.old) (K.faults sink.new) }
    ensures memory { result ≡ 4 → sink.new ≡ sink.old }
    ensures statuses { (result ≡ 0) ⊎ (result ≡ 3) ⊎ (result ≡ 4) }
{
    let Ok(line) = demo_line(alloc, size) else {
        return 4;
    };
    match put_line(sink, line.as_str().as_bytes()) {
        Ok(()) => 0,
        Err(Failed) => 3,
    }
}
