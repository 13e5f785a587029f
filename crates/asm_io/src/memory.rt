//! A source and a sink in memory, and which of their calls fail.

ghost use Rattle.std.specs.Prelude.{◌≡◌, ◌<◌, [], length, Some, IfOk, is_err};
ghost use Rattle.std.specs.Io.{ReadsAtMost, WritesAtMost};
ghost use Rattle.std.specs.Io.KnownBytes.{ReadConsumes, WriteAppends, Keeps};
ghost use Rattle.asm_io.specs.Causes.{HasCause, next};
ghost use Rattle.asm_io.specs.Memory.{is_to_fail, write_fails, given_of, taken_of, Counts};

use crate::stream::{Failed, Sink, Source};
use std::alloc::{AllocError, Global};
use std::marker::Model;

/// Bytes that reads give, as many as are asked for. It tells what it has left.
#[derive(Drop)]
pub struct MemorySource {
    bytes: Vec<u8>,
    at: usize,
    failing: Vec<u64>,
    calls: u64,
    faults: u64,
}

impl Model for MemorySource {
    ghost use Rattle.std.specs.Prelude.{length, drop, ◌≤◌};
    ghost use Rattle.asm_io.specs.Memory.{Feed};

    ghost Value = { Feed };

    ghost view = { λ s. record {
      left = drop s.at s.bytes.items;
      failing = s.failing.items;
      calls = s.calls;
      faults = s.faults;
    } };

    ghost invariant = { λ s. s.at ≤ length s.bytes.items };
}

impl MemorySource {
    /// A source of these bytes. Its reads are counted from 0, and those in `failing` fail.
    /// Fails where memory runs out.
    pub fn new(alloc: Global, bytes: &[u8], failing: &[u64]) -> Result<MemorySource, AllocError>
        ensures { IfOk result
            (λ s. s ≡ record { left = bytes.now; failing = failing.now; calls = 0; faults = 0 }) }
    {
        Ok(MemorySource {
            bytes: Vec::from_slice(alloc, bytes)?,
            at: 0,
            failing: Vec::from_slice(alloc, failing)?,
            calls: 0,
            faults: 0,
        })
    }
}

impl Source for MemorySource {
    ghost left = { λ s. Some s.left };

    ghost reads = { λ s. s.calls };

    ghost faults = { λ s. s.faults };

    fn read(&mut self, into: &mut [u8]) -> Result<usize, Failed>
        requires { 0 < length into.old }
        ensures bound { ReadsAtMost result into.new }
        ensures bytes { ReadConsumes (Some self.old.left) (Some self.new.left) result into.new }
        ensures counted { self.new.calls ≡ next self.old.calls }
        ensures cause { HasCause self.old.faults self.new.faults result }

        // as many as are left and were asked for
        ensures most { IfOk result (λ n. n ≡ given_of self.old (length into.old)) }

        // exactly the calls that are to fail do
        ensures fails { is_err result ≡ is_to_fail self.old.failing self.old.calls }
        ensures counts { Counts self.old.calls self.new.calls
            self.old.faults self.new.faults (is_err result) }
        ensures failing { self.new.failing ≡ self.old.failing }
    {
        let fails = self.failing.contains(&self.calls);
        self.calls = self.calls.saturating_add(1);
        if fails {
            self.faults = self.faults.saturating_add(1);
            return Err(Failed);
        }
        let count = (self.bytes.len() - self.at).min(into.len());
        into[..count].copy_from_slice(&self.bytes[self.at..self.at + count]);
        self.at += count;
        Ok(count)
    }
}

/// Room for bytes that are written to it. It tells what it holds.
#[derive(Drop)]
pub struct MemorySink {
    bytes: Vec<u8>,
    len: usize,
    failing: Vec<u64>,
    calls: u64,
    faults: u64,
}

impl Model for MemorySink {
    ghost use Rattle.std.specs.Prelude.{length, take, ◌≤◌};
    ghost use Rattle.asm_io.specs.Memory.{Store};

    ghost Value = { Store };

    ghost view = { λ s. record {
      held = take s.len s.bytes.items;
      room = length s.bytes.items;
      failing = s.failing.items;
      calls = s.calls;
      faults = s.faults;
    } };

    ghost invariant = { λ s. s.len ≤ length s.bytes.items };
}

impl MemorySink {
    /// A sink with room for so many bytes. Its writes and flushes are counted together from 0, and
    /// those in `failing` fail.
    /// Fails where memory runs out, and where `room` is more than memory can have.
    pub fn new(alloc: Global, room: u64, failing: &[u64]) -> Result<MemorySink, AllocError>
        ensures { IfOk result
            (λ s. s ≡ record { held = []; room = room; failing = failing.now; calls = 0; faults = 0 }) }
    {
        Ok(MemorySink {
            bytes: vec![in alloc; 0; room as usize]?,
            len: 0,
            failing: Vec::from_slice(alloc, failing)?,
            calls: 0,
            faults: 0,
        })
    }

    /// The bytes that it holds, in the order in which they were written.
    pub fn held(&self) -> &[u8]
        ensures { result.now ≡ self.now.held }
    {
        &self.bytes[..self.len]
    }
}

impl Sink for MemorySink {
    ghost held = { λ s. Some s.held };

    ghost faults = { λ s. s.faults };

    fn write(&mut self, from: &[u8]) -> Result<usize, Failed>
        requires { 0 < length from.now }
        ensures bound { WritesAtMost result from.now }
        ensures some { IfOk result (λ n. 0 < n) }
        ensures bytes { WriteAppends (Some self.old.held) (Some self.new.held) result from.now }
        ensures cause { HasCause self.old.faults self.new.faults result }

        // as many as have room and were given
        ensures most { IfOk result (λ n. n ≡ taken_of self.old (length from.now)) }

        // exactly the calls that are to fail do, and those that find no room
        ensures fails { is_err result ≡ write_fails self.old }
        ensures counts { Counts self.old.calls self.new.calls
            self.old.faults self.new.faults (is_err result) }
        ensures failing { self.new.failing ≡ self.old.failing }
        ensures room { self.new.room ≡ self.old.room }
    {
        let fails = self.failing.contains(&self.calls);
        let room = self.bytes.len() - self.len;
        self.calls = self.calls.saturating_add(1);
        if fails || room == 0 {
            self.faults = self.faults.saturating_add(1);
            return Err(Failed);
        }
        let count = room.min(from.len());
        self.bytes[self.len..self.len + count].copy_from_slice(&from[..count]);
        self.len += count;
        Ok(count)
    }

    fn flush(&mut self) -> Result<(), Failed>
        ensures bytes { Keeps (Some self.old.held) (Some self.new.held) }
        ensures cause { HasCause self.old.faults self.new.faults result }

        ensures fails { is_err result ≡ is_to_fail self.old.failing self.old.calls }
        ensures counts { Counts self.old.calls self.new.calls
            self.old.faults self.new.faults (is_err result) }
        ensures failing { self.new.failing ≡ self.old.failing }
        ensures room { self.new.room ≡ self.old.room }
    {
        let fails = self.failing.contains(&self.calls);
        self.calls = self.calls.saturating_add(1);
        if fails {
            self.faults = self.faults.saturating_add(1);
            return Err(Failed);
        }
        Ok(())
    }
}
