//! Writes whole texts.

ghost use Rattle.std.specs.Prelude.{◌≤◌, ℕ, length, take, OnOk, OnErr};
ghost use Rattle.std.specs.Io.KnownBytes.{Appends};
ghost use Rattle.asm_io.specs.Causes.{HasCause};

use crate::stream::{Failed, Sink};

/// Writes all the bytes. After `Failed` some first of them were written, and a write failed. It
/// takes no memory.
pub fn write_whole<K: Sink>(sink: &mut K, bytes: &[u8]) -> Result<(), Failed>
    ensures all { OnOk result (Appends (K.held sink.old) (K.held sink.new) bytes.now) }
    ensures part { OnErr result ((n : ℕ) × (n ≤ length bytes.now)
        × Appends (K.held sink.old) (K.held sink.new) (take n bytes.now)) }
    ensures cause { HasCause (K.faults sink.old) (K.faults sink.new) result }
{
    let mut at = 0;
    while at < bytes.len() {
        at += sink.write(&bytes[at..])?;
    }
    Ok(())
}
