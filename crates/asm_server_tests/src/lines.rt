//! Lines, faults and budgets by example, and readers and writers of std.

use asm_io::{
    IoEnd, LineBuf, LineEnd, MemorySink, MemorySource, ReadSource, Sink, Source, WriteSink,
    read_line, write_whole,
};
use std::alloc::{AllocError, Global};
use std::io::Cursor;
use std::test::Fail;

/// Writes each answer: a line and `/`, a last line and `$`, `#` for a line that is too long, `!`
/// for a fault, and `.` or `?` where the source or the budget ends.
fn answers<S: Source>(
    alloc: Global,
    source: &mut S,
    buf: &mut LineBuf,
) -> Result<String, AllocError> {
    let mut shown = String::new(alloc);
    for _ in 0..9 {
        let answer = read_line(source, buf);
        for byte in buf.line() {
            shown.push(char::from(*byte))?;
        }
        match answer {
            Ok(LineEnd::Line) => shown.push('/')?,
            Ok(LineEnd::LastLine) => shown.push('$')?,
            Ok(LineEnd::TooLongLine) => shown.push('#')?,
            Err(IoEnd::ReadFault) => shown.push('!')?,
            Ok(LineEnd::End) => {
                shown.push('.')?;
                break;
            }
            Err(IoEnd::Budget) => {
                shown.push('?')?;
                break;
            }
        }
    }
    Ok(shown)
}

/// Whether this input has these lines within the budget, where these reads fail.
fn has_lines(
    alloc: Global,
    input: &str,
    budget: u64,
    failing: &[u64],
    want: &str,
) -> Result<bool, AllocError> {
    let mut buf = LineBuf::new(alloc, budget)?;
    let mut source = MemorySource::new(alloc, input.as_bytes(), failing)?;
    let shown = answers(alloc, &mut source, &mut buf)?;
    Ok(shown.as_str() == want)
}

fn budgets(alloc: Global) -> Result<bool, AllocError> {
    let rows = [
        ("", 9, "."),
        ("ab\ncd\n", 9, "ab/cd/."),
        ("ab\ncd", 9, "ab/cd$."),
        ("\n\na", 9, "//a$."),
        ("ab\ncd\n", 4, "ab/?"),
        ("ab\ncd\n", 6, "ab/cd/?"),
        ("ab", 2, "?"),
        ("", 0, "?"),
    ];
    let mut all = true;
    for (input, budget, want) in rows {
        all = has_lines(alloc, input, budget, &[], want)? && all;
    }
    Ok(all)
}

#[test]
fn inputs_have_these_lines_within_a_budget(rt: HostRuntime) -> Result<(), Fail> {
    assert!(rt; budgets(rt.alloc())?);
    Ok(())
}

fn faults(alloc: Global) -> Result<bool, AllocError> {
    let none = has_lines(alloc, "ab\ncd", 9, &[], "ab/cd$.")?;
    let first = has_lines(alloc, "ab\ncd", 9, &[0], "!ab/cd$.")?;
    let twice = has_lines(alloc, "ab\ncd", 9, &[1, 2], "ab/!!cd$.")?;
    let both = has_lines(alloc, "ab\ncd", 9, &[0, 2], "!ab/!cd$.")?;
    Ok(none && first && twice && both)
}

#[test]
fn a_fault_at_any_call_loses_nothing(rt: HostRuntime) -> Result<(), Fail> {
    assert!(rt; faults(rt.alloc())?);
    Ok(())
}

/// Whether a line of so many bytes, and one after it, end so.
fn ends(
    alloc: Global,
    first: usize,
    first_end: LineEnd,
    second: usize,
    second_end: LineEnd,
) -> Result<bool, AllocError> {
    let mut bytes = vec![in alloc; b'a'; first]?;
    bytes.push(b'\n')?;
    for _ in 0..second {
        bytes.push(b'a')?;
    }
    let mut source = MemorySource::new(alloc, &bytes, &[])?;
    let mut buf = LineBuf::new(alloc, 3_000_000)?;
    let one = read_line(&mut source, &mut buf) == Ok(first_end);
    let two = read_line(&mut source, &mut buf) == Ok(second_end);
    let end = read_line(&mut source, &mut buf) == Ok(LineEnd::End);
    Ok(one && two && end)
}

fn limits(alloc: Global) -> Result<bool, AllocError> {
    let fits = ends(
        alloc,
        1_048_576,
        LineEnd::Line,
        1_048_576,
        LineEnd::LastLine,
    )?;
    let long = ends(alloc, 1_048_577, LineEnd::TooLongLine, 1, LineEnd::LastLine)?;
    let last = ends(alloc, 1, LineEnd::Line, 1_048_577, LineEnd::TooLongLine)?;
    Ok(fits && long && last)
}

#[test]
fn long_lines_end_at_the_limit(rt: HostRuntime) -> Result<(), Fail> {
    assert!(rt; limits(rt.alloc())?);
    Ok(())
}

/// Whether `abcde` is written whole, and flushed, and what is held then.
fn writes(
    alloc: Global,
    room: u64,
    failing: &[u64],
    whole: bool,
    flushed: bool,
    held: &str,
) -> Result<bool, AllocError> {
    let mut sink = MemorySink::new(alloc, room, failing)?;
    let written = write_whole(&mut sink, b"abcde").is_ok() == whole;
    let kept = sink.held() == held.as_bytes();
    Ok(written && kept && sink.flush().is_ok() == flushed)
}

fn parts(alloc: Global) -> Result<bool, AllocError> {
    let more = writes(alloc, 9, &[], true, true, "abcde")?;
    let just = writes(alloc, 5, &[], true, true, "abcde")?;
    let less = writes(alloc, 3, &[], false, true, "abc")?;
    let first = writes(alloc, 9, &[0], false, true, "")?;
    let flush = writes(alloc, 9, &[1], true, false, "abcde")?;
    Ok(more && just && less && first && flush)
}

#[test]
fn a_whole_text_is_written_or_a_first_part(rt: HostRuntime) -> Result<(), Fail> {
    assert!(rt; parts(rt.alloc())?);
    Ok(())
}

fn reads_std(alloc: Global) -> Result<bool, AllocError> {
    let mut source = ReadSource::new(Cursor::new(b"ab\ncd".as_slice()));
    let mut buf = LineBuf::new(alloc, 9)?;
    let shown = answers(alloc, &mut source, &mut buf)?;
    Ok(shown.as_str() == "ab/cd$.")
}

#[test]
fn a_reader_of_std_is_read(rt: HostRuntime) -> Result<(), Fail> {
    assert!(rt; reads_std(rt.alloc())?);
    Ok(())
}

#[test]
fn a_writer_of_std_is_written(rt: HostRuntime) -> Result<(), Fail> {
    let mut room = [0u8; 4];
    let mut sink = WriteSink::new(Cursor::new(room.as_mut_slice()));
    assert!(rt; write_whole(&mut sink, b"abc").is_ok());
    assert!(rt; sink.flush().is_ok());
    assert!(rt; write_whole(&mut sink, b"de").is_err());
    drop(sink);
    assert_eq!(rt; room.as_slice(), b"abcd".as_slice());
    Ok(())
}
