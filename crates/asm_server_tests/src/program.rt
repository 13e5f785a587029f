//! The program: words of the command line, faults of the source and the sink at their first, middle
//! and last calls, and a line that is too long.

use asm_io::{MemorySink, MemorySource};
use asm_stdio::run_plain;
use std::alloc::{AllocError, Global};
use std::test::Fail;

/// The status of a run on these words and bytes, and what the sink then holds.
fn run(
    alloc: Global,
    words: &[&str],
    bytes: &[u8],
    reads: &[u64],
    writes: &[u64],
) -> Result<(u8, Vec<u8>), AllocError> {
    let mut given = Vec::new(alloc);
    for word in words {
        given.push(String::from_str(alloc, word)?)?;
    }
    let mut source = MemorySource::new(alloc, bytes, reads)?;
    let mut sink = MemorySink::new(alloc, 1000, writes)?;
    let status = run_plain(alloc, given.as_slice(), &mut source, &mut sink);
    Ok((status, Vec::from_slice(alloc, sink.held())?))
}

/// A line of 130,000 spaces, which two reads give, and a list: the one is no JSON, the other no
/// request. A third read finds the end.
fn requests(alloc: Global) -> Result<Vec<u8>, AllocError> {
    let mut bytes = vec![in alloc; b' '; 130_000]?;
    bytes.extend_from_slice(b"\n[]\n")?;
    Ok(bytes)
}

/// Whether a run on those ends with this status, and so many bytes are written.
fn ends(
    alloc: Global,
    reads: &[u64],
    writes: &[u64],
    status: u8,
    bytes: usize,
) -> Result<bool, AllocError> {
    let input = requests(alloc)?;
    let (given, held) = run(alloc, &["stdio"], input.as_slice(), reads, writes)?;
    Ok(given == status && held.len() == bytes)
}

fn faults(alloc: Global) -> Result<bool, AllocError> {
    let first = "{\"at\":0,\"no\":\"BadJson\",\"why\":{}}\n".len();
    let both = first + "{\"at\":0,\"no\":\"BadRequest\",\"why\":{\"field\":\"\"}}\n".len();
    let rows = [
        ([9u64].as_slice(), [99u64].as_slice(), 0, both),
        (&[0], &[99], 2, 0),
        (&[1], &[99], 2, 0),
        (&[2], &[99], 2, both),
        (&[9], &[0], 3, 0),
        (&[9], &[5], 3, first),
        (&[9], &[8], 3, first + 7),
        (&[9], &[11], 3, both),
    ];
    let mut all = true;
    for (reads, writes, status, bytes) in rows {
        all = ends(alloc, reads, writes, status, bytes)? && all;
    }
    Ok(all)
}

#[test]
fn faults_end_the_run_where_they_come(rt: HostRuntime) -> Result<(), Fail> {
    assert!(rt; faults(rt.alloc())?);
    Ok(())
}

fn other_words(alloc: Global) -> Result<bool, AllocError> {
    let mut all = true;
    for words in [
        [].as_slice(),
        &["demo"],
        &["demo", "0"],
        &["demo", "03"],
        &["demo", "257"],
        &["demo", "3", "x"],
        &["stdio", "x"],
        &[""],
    ] {
        let (status, held) = run(alloc, words, b"[]\n", &[], &[])?;
        all = status == 1 && held.len() == 0 && all;
    }
    Ok(all)
}

#[test]
fn other_words_read_and_write_nothing(rt: HostRuntime) -> Result<(), Fail> {
    assert!(rt; other_words(rt.alloc())?);
    Ok(())
}

/// Sizes of demos, and their lines.
const DEMOS: [(&str, &str); 4] = [
    ("1", "demo 1: entries 23 refused 1 sum 10\n"),
    ("3", "demo 3: entries 23 refused 1 sum 60\n"),
    ("17", "demo 17: entries 23 refused 1 sum 1530\n"),
    ("256", "demo 256: entries 23 refused 1 sum 328960\n"),
];

fn demos(alloc: Global) -> Result<bool, AllocError> {
    let mut all = true;
    for (size, line) in DEMOS {
        let (status, held) = run(alloc, &["demo", size], b"[]\n", &[0], &[])?;
        all = status == 0 && held.as_slice() == line.as_bytes() && all;
    }
    Ok(all)
}

#[test]
fn demos_write_their_lines_and_read_nothing(rt: HostRuntime) -> Result<(), Fail> {
    assert!(rt; demos(rt.alloc())?);
    Ok(())
}

/// The line of a demo is written, and then flushed.
fn demo_faults(alloc: Global) -> Result<bool, AllocError> {
    let mut all = true;
    for (call, bytes) in [(0, 0), (1, 36)] {
        let (status, held) = run(alloc, &["demo", "3"], b"", &[], &[call])?;
        all = status == 3 && held.len() == bytes && all;
    }
    Ok(all)
}

#[test]
fn a_demo_ends_where_a_write_fails(rt: HostRuntime) -> Result<(), Fail> {
    assert!(rt; demo_faults(rt.alloc())?);
    Ok(())
}

fn long_line(alloc: Global) -> Result<bool, AllocError> {
    let mut bytes = vec![in alloc; b' '; 1_048_577]?;
    bytes.extend_from_slice(b"\n{\"op\":\"models\"}")?;
    let (status, held) = run(alloc, &["stdio"], bytes.as_slice(), &[], &[])?;
    let want =
        "{\"at\":0,\"no\":\"LineTooLong\",\"why\":{\"limit\":1048576}}\n{\"at\":0,\"ok\":[]}\n";
    Ok(status == 0 && held.as_slice() == want.as_bytes())
}

#[test]
fn a_line_that_is_too_long_is_refused_and_the_next_is_answered(
    rt: HostRuntime,
) -> Result<(), Fail> {
    assert!(rt; long_line(rt.alloc())?);
    Ok(())
}

/// Whether a load of so many spaces is answered by this line.
fn load_of(alloc: Global, spaces: usize, want: &str) -> Result<bool, AllocError> {
    let mut bytes = Vec::from_slice(alloc, b"{\"op\":\"load\",\"name\":\"L\",\"text\":\"")?;
    for _space in 0..spaces {
        bytes.push(b' ')?;
    }
    bytes.extend_from_slice(b"\"}\n")?;
    let (status, held) = run(alloc, &["stdio"], bytes.as_slice(), &[], &[])?;
    Ok(status == 0 && held.as_slice() == want.as_bytes())
}

fn text_lengths(alloc: Global) -> Result<bool, AllocError> {
    let short = "{\"at\":0,\"no\":\"BadText\",\"why\":\
        {\"column\":262145,\"kind\":\"Syntax\",\"line\":1,\"more\":\"\"}}\n";
    let long = "{\"at\":0,\"no\":\"BadText\",\"why\":\
        {\"column\":1,\"kind\":\"TextTooLong\",\"line\":1,\"more\":\"262145\"}}\n";
    let fits = load_of(alloc, 262_144, short)?;
    Ok(load_of(alloc, 262_145, long)? && fits)
}

#[test]
fn a_text_of_262145_bytes_is_too_long(rt: HostRuntime) -> Result<(), Fail> {
    assert!(rt; text_lengths(rt.alloc())?);
    Ok(())
}
