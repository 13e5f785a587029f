//! A session: reads lines and answers them, one after another.
ghost use Rattle.std.specs.Prelude.{◌≡◌, ◌≢◌, [], true, false, OnOk, OnErr};
ghost use Rattle.asm_io.specs.Causes.{HasCause};
ghost use Rattle.asm_io.specs.LineEnds.{given};
ghost use Rattle.asm_io.specs.Readings.{fresh};
ghost use Rattle.asm_stdio.specs.Headline.{session_bytes};
ghost use Rattle.asm_stdio.specs.Sessions.{Served};
ghost use Rattle.asm_stdio.specs.Transcripts.{journal_room, Answers, IsGivenPart};

use crate::answer::{answer_line, answer_long_line};
use asm_core::One;
use asm_io::{Failed, IoEnd, LineBuf, LineEnd, SessionEnd, Sink, Source, read_line};
use std::alloc::Global;

fn is_end(end: LineEnd) -> bool
    ensures yes { result ≡ true → end ≡ LineEnd.End }
    ensures no { result ≡ false → end ≢ LineEnd.End }
{
    match end {
        LineEnd::End => true,
        LineEnd::Line | LineEnd::LastLine | LineEnd::TooLongLine => false,
    }
}

/// Answers the line that was read, if one was.
fn put_answer<K: Sink>(
    alloc: Global,
    one: &mut One,
    end: LineEnd,
    line: &[u8],
    sink: &mut K,
) -> Result<(), Failed>
    requires { one.old.room ≡ journal_room }
    ensures all { OnOk result (Answers one.old.journal (given end line.now) one.new.journal
        (K.held sink.old) (K.held sink.new)) }
    ensures part { OnErr result (IsGivenPart one.old.journal (given end line.now)
        (K.held sink.old) (K.held sink.new)) }
    ensures cause { HasCause (K.faults sink.old) (K.faults sink.new) result }
    ensures room { one.new.room ≡ one.old.room }
{
    match end {
        LineEnd::Line | LineEnd::LastLine => answer_line(alloc, one, line, sink),
        LineEnd::TooLongLine => answer_long_line(alloc, one, sink),
        LineEnd::End => Ok(()),
    }
}

/// Answers the source's lines on the sink, in their order, until the source ends, a read or a write
/// fails, or the session's bytes are taken.
pub fn serve<S: Source, K: Sink>(
    alloc: Global,
    one: &mut One,
    buf: &mut LineBuf,
    source: &mut S,
    sink: &mut K,
) -> SessionEnd
    requires fresh { buf.old ≡ fresh session_bytes }
    requires new { one.old ≡ record { room = journal_room; journal = [] } }
    ensures { Served result (record {
      left = S.left source.old;
      rest = S.left source.new;
      held = K.held sink.old;
      now = K.held sink.new;
      source_faults = S.faults source.old;
      source_faults_now = S.faults source.new;
      sink_faults = K.faults sink.old;
      sink_faults_now = K.faults sink.new;
    }) }
{
    loop {
        match read_line(source, buf) {
            Ok(end) => {
                if is_end(end) {
                    return SessionEnd::Ended;
                }
                match put_answer(alloc, one, end, buf.line(), sink) {
                    Ok(()) => {}
                    Err(Failed) => return SessionEnd::WriteFault,
                }
            }
            Err(IoEnd::ReadFault) => return SessionEnd::ReadFault,
            Err(IoEnd::Budget) => return SessionEnd::Budget,
        }
    }
}
