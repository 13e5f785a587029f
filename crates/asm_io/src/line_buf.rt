//! Lines from a source, in memory that is taken once.

ghost use Rattle.std.specs.Prelude.{◌≡◌, ◌≢◌, ◌<◌, ◌≤◌, ◌-◌, [], length, take, true, false, ◌==◌};
ghost use Rattle.std.specs.Prelude.{Ok, Err, IfOk, MatchOption, MatchResult};
ghost use Rattle.std.specs.List.{slice_range};
ghost use Rattle.std.specs.Io.KnownBytes.{IsAtEnd, Keeps};
ghost use Rattle.asm_io.specs.Causes.{HasCause, Rose, next};
ghost use Rattle.asm_io.specs.Lines.{has_feed, limit};
ghost use Rattle.asm_io.specs.Readings.{fresh, fuel};
ghost use Rattle.asm_io.specs.LineEnds.{ReadsLine, Lends, StopsAtFeed, FallsUnlessEnd};
ghost use Rattle.asm_io.specs.Steps.{IsFirstFeed, GivesNext, GivesLast, Fills, skipped};

use crate::stream::{Failed, Source};
use std::alloc::{AllocError, Global};
use std::marker::Model;

/// The most bytes that a line may have.
const LIMIT: usize = 1_048_576;

/// The most bytes that one read asks for.
const CHUNK: usize = 65_536;

/// What a call that reads a line gave.
#[derive(Clone, Copy, Debug, PartialEq, Eq)]
pub enum LineEnd {
    /// A line that a line feed ended. The line feed belongs to no line.
    Line,
    /// A line that isn't empty, and that the source's end ended.
    LastLine,
    /// No line: the source has met its end.
    End,
    /// A line of more than 1,048,576 bytes, which was skipped to its end.
    TooLongLine,
}

/// Why a call gave no line. The next call goes on where this one stopped.
#[derive(Clone, Copy, Debug, PartialEq, Eq)]
pub enum IoEnd {
    /// A read failed.
    ReadFault,
    /// All bytes of the budget were taken, and neither a line feed nor the source's end came.
    Budget,
}

/// The bytes that were taken and not given yet, the line that was given last, and the budget.
/// It takes its memory in `new` and none later: room for the longest line and its line feed.
#[derive(Drop)]
pub struct LineBuf {
    bytes: Vec<u8>,
    line_start: usize,
    line_end: usize,
    start: usize,
    seen: usize,
    end: usize,
    over: bool,
    at_end: bool,
    budget: u64,
}

impl Model for LineBuf {
    ghost use Rattle.asm_io.specs.Readings.{Reading};

    ghost Value = { Reading };

    ghost use Rattle.asm_io.specs.LineBufView.{reading, IsKept};

    ghost view = { reading };

    ghost invariant = { IsKept };
}

/// Where the first line feed is.
fn first_feed(bytes: &[u8]) -> Option<usize>
    ensures { MatchOption result (has_feed bytes.now ≡ false) (IsFirstFeed bytes.now) }
{
    for (at, byte) in bytes.iter().enumerate() {
        if *byte == b'\n' {
            return Some(at);
        }
    }
    None
}

/// Moves some bytes to the front. Where they are there already, it costs nothing.
fn move_to_front(bytes: &mut Vec<u8>, from: usize, to: usize)
    requires order { from ≤ to }
    requires within { to ≤ length bytes.old.items }
    ensures moved { take (to - from) bytes.new.items ≡ slice_range bytes.old.items from to }
    ensures size { length bytes.new.items ≡ length bytes.old.items }
{
    if from > 0 {
        bytes.copy_within(from..to, 0);
    }
}

impl LineBuf {
    /// A reader that has taken nothing. It may take as many bytes as the budget says.
    /// Fails where memory runs out.
    pub fn new(alloc: Global, budget: u64) -> Result<LineBuf, AllocError>
        ensures { IfOk result (λ b. b ≡ fresh budget) }
    {
        Ok(LineBuf {
            bytes: vec![in alloc; 0; LIMIT + 1]?,
            line_start: 0,
            line_end: 0,
            start: 0,
            seen: 0,
            end: 0,
            over: false,
            at_end: false,
            budget,
        })
    }

    /// Begins anew, for another source, in the same memory.
    pub fn restart(&mut self, budget: u64)
        ensures { self.new ≡ fresh budget }
    {
        self.line_start = 0;
        self.line_end = 0;
        self.start = 0;
        self.seen = 0;
        self.end = 0;
        self.over = false;
        self.at_end = false;
        self.budget = budget;
    }

    /// The line that was given last, until the next call that reads a line. It holds no line feed.
    pub fn line(&self) -> &[u8]
        ensures { result.now ≡ self.now.line }
    {
        &self.bytes[self.line_start..self.line_end]
    }

    /// Lets the line go that was given.
    fn begin(&mut self)
        ensures { self.new ≡ record self.old { line = [] } }
    {
        self.line_start = 0;
        self.line_end = 0;
    }

    fn is_spent(&self) -> bool
        ensures { result ≡ (self.now.budget == 0) }
    {
        self.budget == 0
    }

    fn is_at_end(&self) -> bool
        ensures value { result ≡ self.now.at_end }
        ensures kept { self.now.at_end ≡ true → self.now.kept ≡ [] }
        ensures over { self.now.at_end ≡ true → self.now.over ≡ false }
        ensures budget { self.now.at_end ≡ true → 0 < self.now.budget }
    {
        self.at_end
    }

    /// Gives the next line, where its line feed is kept.
    fn next_line(&mut self) -> Option<LineEnd>
        ensures { MatchOption result
            ((has_feed self.old.kept ≡ false) × (self.new ≡ self.old))
            (GivesNext self.old self.new) }
    {
        match first_feed(&self.bytes[self.seen..self.end]) {
            None => {
                self.seen = self.end;
                None
            }
            Some(at) => {
                let feed = self.seen + at;
                self.line_start = self.start;
                self.line_end = feed;
                self.start = feed + 1;
                self.seen = feed + 1;
                if self.over {
                    self.over = false;
                    self.line_end = self.line_start;
                    Some(LineEnd::TooLongLine)
                } else {
                    Some(LineEnd::Line)
                }
            }
        }
    }

    /// Lets the bytes go of a line that is too long.
    fn skip_long(&mut self)
        requires { self.old.at_end ≡ false }
        ensures after { self.new ≡ skipped self.old }
        ensures room { length self.new.kept ≤ limit }
    {
        if self.over || self.end - self.start > LIMIT {
            self.over = true;
            self.start = 0;
            self.seen = 0;
            self.end = 0;
        }
    }

    /// Reads once, as many bytes as have room and as the budget allows.
    fn fill<S: Source>(&mut self, source: &mut S) -> Result<usize, Failed>
        requires some { 0 < self.old.budget }
        requires room { length self.old.kept ≤ limit }
        requires unended { self.old.at_end ≡ false }
        requires line { self.old.line ≡ [] }
        ensures cases { MatchResult result
            (Fills (S.left source.old) (S.left source.new) self.old self.new)
            (λ _. Keeps (S.left source.old) (S.left source.new) × (self.new ≡ self.old)) }
        ensures end { IfOk result (λ n. n ≡ 0 → IsAtEnd (S.left source.new)) }
        ensures counted { S.reads source.new ≡ next (S.reads source.old) }
        ensures cause { HasCause (S.faults source.old) (S.faults source.new) result }
    {
        move_to_front(&mut self.bytes, self.start, self.end);
        self.line_start = 0;
        self.line_end = 0;
        self.seen -= self.start;
        self.end -= self.start;
        self.start = 0;
        let room = (LIMIT + 1 - self.end).min(CHUNK);
        let count = (room as u64).min(self.budget) as usize;
        let end = self.end;
        let taken = source.read(&mut self.bytes[end..end + count])?;
        self.end += taken;
        self.budget -= taken as u64;
        Ok(taken)
    }

    /// Gives what is kept, at the source's end.
    fn give_last(&mut self) -> LineEnd
        requires some { 0 < self.old.budget }
        requires feed { has_feed self.old.kept ≡ false }
        requires room { length self.old.kept ≤ limit }
        ensures { GivesLast self.old self.new result }
    {
        self.at_end = true;
        self.line_start = self.start;
        self.line_end = self.end;
        self.start = self.end;
        self.seen = self.end;
        if self.over {
            self.over = false;
            self.line_end = self.line_start;
            return LineEnd::TooLongLine;
        }
        if self.line_start < self.line_end {
            return LineEnd::LastLine;
        }
        LineEnd::End
    }
}

/// Reads to the end of the next line, and takes no memory.
/// Where a line is kept already it reads nothing, and once a line feed has come it reads no more. It
/// takes no byte past the budget, and a line that is too long is skipped to its end. After an error
/// the next call goes on with what was taken.
pub fn read_line<S: Source>(source: &mut S, buf: &mut LineBuf) -> Result<LineEnd, IoEnd>
    // what was taken and given
    ensures reads { ReadsLine (S.left source.old) (S.left source.new) buf.old buf.new result }
    ensures line { Lends result buf.new.line }

    // after the source's end nothing is read or kept
    ensures at_end { buf.new.at_end ≡ true →
        (buf.old.at_end ≡ true → IsAtEnd (S.left source.old)) → IsAtEnd (S.left source.new) }
    ensures after_end { buf.old.at_end ≡ true →
        (result ≡ Ok LineEnd.End) × (source.new ≡ source.old) }

    // a line that is kept already is given with no read, and no read comes after a line feed
    ensures idle { has_feed buf.old.kept ≡ true → source.new ≡ source.old }
    ensures stops { StopsAtFeed S.left S.reads source.old source.new buf.old.kept }

    // a read failed where that is reported, and nowhere else
    ensures later { S.faults source.old ≤ S.faults source.new }
    ensures unfailed { result ≢ Err IoEnd.ReadFault → S.faults source.new ≡ S.faults source.old }
    ensures read_fault { result ≡ Err IoEnd.ReadFault →
        Rose (S.faults source.old) (S.faults source.new) }

    ensures falls { IfOk result (λ e. FallsUnlessEnd e (fuel buf.old) (fuel buf.new)) }
{
    buf.begin();
    if buf.is_at_end() {
        return Ok(LineEnd::End);
    }
    loop {
        if let Some(given) = buf.next_line() {
            return Ok(given);
        }
        if buf.is_spent() {
            return Err(IoEnd::Budget);
        }
        buf.skip_long();
        match buf.fill(source) {
            Err(Failed) => return Err(IoEnd::ReadFault),
            Ok(0) => return Ok(buf.give_last()),
            Ok(_) => {}
        }
    }
}
