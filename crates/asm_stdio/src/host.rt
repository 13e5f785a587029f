//! The program on this machine: its command line, its standard streams.

use crate::run::run_plain;
use asm_io::{ReadSource, WriteSink};
use std::io;
use std::io::BufWriter;

/// The exit status where the words ask for nothing that there is.
const OTHER_WORDS: u8 = 1;

/// The exit status where memory is wanting.
const NO_MEMORY: u8 = 4;

/// The words of the command line after the program's name.
/// Fails with `InvalidData` where a word isn't UTF-8, and otherwise where memory runs out.
fn words_of(rt: &HostRuntime) -> io::Result<Vec<String>> {
    let mut words = Vec::new(rt.alloc());
    for word in std::env::args(rt)?.skip(1) {
        words.push(word)?;
    }
    Ok(words)
}

/// Runs the program on words, from standard input on standard output, which is written at the end
/// of each reply.
fn run_on(rt: &HostRuntime, words: &[String]) -> u8 {
    let Ok(output) = BufWriter::new(rt.alloc(), rt.stdout()) else {
        return NO_MEMORY;
    };
    let mut source = ReadSource::new(rt.stdin());
    let mut sink = WriteSink::new(output);
    run_plain(rt.alloc(), words, &mut source, &mut sink)
}

/// Runs the program on the words of its command line, from standard input on standard output, and
/// gives its exit status: that of `run_plain`, 4 too where memory is wanting for the words, and 1
/// too where one of them isn't UTF-8. At 1 it tells on standard error which words there are.
pub fn run_on_host(rt: HostRuntime) -> u8 {
    let status = match words_of(&rt) {
        Ok(words) => run_on(&rt, words.as_slice()),
        Err(error) if error.kind() == io::ErrorKind::InvalidData => OTHER_WORDS,
        Err(_) => NO_MEMORY,
    };
    if status == OTHER_WORDS {
        // there is nobody else to tell where standard error fails
        let _told = rt.eprintln("usage: asm_server stdio | demo N | listen ADDRESS SEATS");
    }
    status
}
