//! The program, over any source and sink.

ghost use Rattle.std.specs.Prelude.{◌≡◌, ◌↔◌, ℕ};
ghost use Rattle.asm_io.specs.Causes.{Rose};
ghost use Rattle.asm_stdio.specs.Headline.{AnsweredAll, AnsweredEnded, AnsweredBudget, AnsweredPart, Demonstrates, IsStatus, IsStdioStatus};
ghost use Rattle.asm_stdio.specs.Words.{AreStdio, AreDemo, AreKnown};

use crate::demo::run_demo;
use crate::serve::serve;
use crate::words::{Asked, asked_by};
use asm_core::One;
use asm_io::{LineBuf, SessionEnd, Sink, Source};
use std::alloc::Global;

/// How many bytes one session may take.
const SESSION_BYTES: u64 = 1 << 40;

/// What the entries of the journal may weigh.
const JOURNAL_ROOM: u64 = 1 << 23;

/// Answers each line of the source, and gives the exit status.
fn run_stdio<S: Source, K: Sink>(alloc: Global, source: &mut S, sink: &mut K) -> u8
    ensures ended { result ≡ 0 → AnsweredAll
        (S.left source.old) (S.left source.new) (K.held sink.old) (K.held sink.new) }
    ensures read_fault { result ≡ 2 → Rose (S.faults source.old) (S.faults source.new) }
    ensures before_read_fault { result ≡ 2 → AnsweredEnded
        (S.left source.old) (S.left source.new) (K.held sink.old) (K.held sink.new) }
    ensures write_fault { result ≡ 3 → Rose (K.faults sink.old) (K.faults sink.new) }
    ensures before_write_fault { result ≡ 3 → AnsweredPart
        (S.left source.old) (S.left source.new) (K.held sink.old) (K.held sink.new) }
    ensures memory { result ≡ 4 → (source.new ≡ source.old) × (sink.new ≡ sink.old) }
    ensures budget { result ≡ 6 → AnsweredBudget
        (S.left source.old) (S.left source.new) (K.held sink.old) (K.held sink.new) }
    ensures statuses { IsStdioStatus result }
{
    let Ok(mut buf) = LineBuf::new(alloc, SESSION_BYTES) else {
        return 4;
    };
    let Ok(mut one) = One::new(alloc, JOURNAL_ROOM) else {
        return 4;
    };
    match serve(alloc, &mut one, &mut buf, source, sink) {
        SessionEnd::Ended => 0,
        SessionEnd::ReadFault => 2,
        SessionEnd::WriteFault => 3,
        SessionEnd::Budget => 6,
    }
}

/// Runs the program on the words of its command line, without its name, and gives its exit status.
///
/// On the one word `stdio` it answers each line of the source by one line on the sink, in order,
/// after the changes that were accepted before it: 0 where the source was read to its end; 2 where
/// a read failed, and 3 where a write or a flush did; 6 where 2^40 bytes were taken and the source
/// hasn't ended. On `demo` and a size, 1 to 256 in decimal, it reads nothing and writes one line: 0
/// where it is written, and 3 where a write or the flush failed. 4 says that memory was wanting, for
/// a line's buffer, the journal or the demo; then, and at 1, which any other words give, nothing is
/// read or written.
pub fn run_plain<S: Source, K: Sink>(
    alloc: Global,
    words: &[String],
    source: &mut S,
    sink: &mut K,
) -> u8
    // on `stdio` each line that was read is answered, in order, and nothing else is written
    ensures ended { AreStdio words.now → result ≡ 0 → AnsweredAll
        (S.left source.old) (S.left source.new) (K.held sink.old) (K.held sink.new) }

    // on `demo` its line is written, and nothing else is, and nothing is read
    ensures demo { (size : ℕ) → AreDemo size words.now → Demonstrates
        size result (K.held sink.old) (K.held sink.new) }
    ensures unread { (size : ℕ) → AreDemo size words.now → source.new ≡ source.old }

    // the words
    ensures words { (result ≡ 1) ↔ (AreKnown words.now → ⊥) }
    ensures idle { result ≡ 1 → (source.new ≡ source.old) × (sink.new ≡ sink.old) }

    // a fault has its cause, and the lines before it are answered
    ensures read_fault { result ≡ 2 → Rose (S.faults source.old) (S.faults source.new) }
    ensures before_read_fault { result ≡ 2 → AnsweredEnded
        (S.left source.old) (S.left source.new) (K.held sink.old) (K.held sink.new) }
    ensures write_fault { result ≡ 3 → Rose (K.faults sink.old) (K.faults sink.new) }
    ensures before_write_fault { AreStdio words.now → result ≡ 3 → AnsweredPart
        (S.left source.old) (S.left source.new) (K.held sink.old) (K.held sink.new) }

    // want of memory comes before the first line, and the budget where its bytes were taken
    ensures memory { result ≡ 4 → (source.new ≡ source.old) × (sink.new ≡ sink.old) }
    ensures budget { result ≡ 6 → AnsweredBudget
        (S.left source.old) (S.left source.new) (K.held sink.old) (K.held sink.new) }
    ensures statuses { IsStatus result }
{
    match asked_by(words) {
        Asked::Stdio => run_stdio(alloc, source, sink),
        Asked::Demo(size) => run_demo(alloc, size, sink),
        Asked::Other => 1,
    }
}
