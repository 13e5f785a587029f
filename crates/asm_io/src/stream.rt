//! Where bytes come from and go to.

ghost use Rattle.std.specs.Prelude.{◌≡◌, ◌<◌, ℕ, List, length, IfOk};
ghost use Rattle.std.specs.declared.option.Option.{Option};
ghost use Rattle.std.specs.Io.{ReadsAtMost, WritesAtMost};
ghost use Rattle.std.specs.Io.KnownBytes.{ReadConsumes, WriteAppends, Keeps};
ghost use Rattle.asm_io.specs.Causes.{HasCause, next};

/// A read, a write or a flush failed. It took and gave no byte.
#[derive(Clone, Copy, Debug, PartialEq, Eq)]
pub struct Failed;

/// Where bytes come from. A source that tells what it has left goes on telling.
pub trait Source {
    /// The bytes that reads give from here on, if it tells.
    ghost left: { Self → Option (List ℕ) };

    /// How often it was read. The count stops at the last number of 64 bits.
    ghost reads: { Self → ℕ };

    /// How many of its calls failed. The count stops at the last number of 64 bits.
    ghost faults: { Self → ℕ };

    /// Reads once, into the front of `into`: the number of bytes that were given, and 0 only at the
    /// source's end.
    /// Fails where the read failed. It took nothing then, and the next read may succeed.
    fn read(&mut self, into: &mut [u8]) -> Result<usize, Failed>
        requires { 0 < length into.old }
        ensures bound { ReadsAtMost result into.new }
        ensures bytes { ReadConsumes (left self.old) (left self.new) result into.new }
        ensures counted { reads self.new ≡ next (reads self.old) }
        ensures cause { HasCause (faults self.old) (faults self.new) result };
}

/// Where bytes go to. A sink that tells what it holds goes on telling.
pub trait Sink {
    /// The bytes that it holds, in the order in which they were written, if it tells.
    ghost held: { Self → Option (List ℕ) };

    /// How many of its calls failed. The count stops at the last number of 64 bits.
    ghost faults: { Self → ℕ };

    /// Writes once, from the front of `from`: how many bytes were taken, 1 at least.
    /// Fails where the write failed or took nothing. It changed nothing then.
    fn write(&mut self, from: &[u8]) -> Result<usize, Failed>
        requires { 0 < length from.now }
        ensures bound { WritesAtMost result from.now }
        ensures some { IfOk result (λ n. 0 < n) }
        ensures bytes { WriteAppends (held self.old) (held self.new) result from.now }
        ensures cause { HasCause (faults self.old) (faults self.new) result };

    /// Hands on what it holds. What it has taken stays taken, also where it fails.
    fn flush(&mut self) -> Result<(), Failed>
        ensures bytes { Keeps (held self.old) (held self.new) }
        ensures cause { HasCause (faults self.old) (faults self.new) result };
}

/// How a session over a source and a sink ended.
#[derive(Clone, Copy, Debug, PartialEq, Eq)]
pub enum SessionEnd {
    /// The source was read to its end.
    Ended,
    /// A read failed.
    ReadFault,
    /// A write or a flush failed.
    WriteFault,
    /// The session's bytes were taken, and its input hadn't ended.
    Budget,
}
