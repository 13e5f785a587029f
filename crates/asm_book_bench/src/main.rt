//! The benchmark of the book: seats at work in threads, and a commit for which memory is wanting.
#![tactic(auto)]

mod wanting;
mod words;

use crate::wanting::{Finding, try_commit};
use crate::words::{Asked, Work, asked_by};
use asm_seats::{length_after, peeked_after};
use std::alloc::Global;
use std::io;
use std::process::ExitCode;
use std::sync::Wait;
use std::thread::Threads;

/// The exit status where the words ask for nothing that there is, and where a commit that was
/// refused has changed something.
const WRONG: u8 = 1;

/// The exit status where memory is wanting, but in a commit that is tried for it.
const NO_MEMORY: u8 = 4;

/// The words of the command line after the program's name.
/// Fails with `InvalidData` where a word isn't UTF-8, and otherwise where memory runs out.
fn words_of(rt: &HostRuntime) -> io::Result<Vec<String>> {
    let mut words = Vec::new(rt.alloc());
    for word in std::env::args(rt)?.skip(1) {
        words.push(word)?;
    }
    Ok(words)
}

/// Prints the length of the journal after a day in which each seat commits.
fn commits<R: Threads + Wait + Sync + Print>(rt: &R, alloc: Global, work: Work) -> io::Result<u8> {
    match length_after(rt, alloc, work.seats, work.steps) {
        Ok(entries) => {
            println!(rt; "entries {entries}")?;
            Ok(0)
        }
        Err(_) => Ok(NO_MEMORY),
    }
}

/// Prints how long the journal is after a day in which seat 0 commits, and how often the others
/// peeked.
fn peeks<R: Threads + Wait + Sync + Print>(rt: &R, alloc: Global, work: Work) -> io::Result<u8> {
    match peeked_after(rt, alloc, work.seats, work.steps) {
        Ok(peeked) => {
            println!(rt; "entries {} peeks {}", peeked.entries, peeked.peeks)?;
            Ok(0)
        }
        Err(_) => Ok(NO_MEMORY),
    }
}

/// Prints what became of a commit.
fn want<R: Wait + Print>(rt: &R, alloc: Global) -> io::Result<u8> {
    let finding = try_commit(rt, alloc);
    rt.println(finding.line())?;
    match finding {
        Finding::Before | Finding::AsBefore | Finding::Committed => Ok(0),
        Finding::Changed => Ok(WRONG),
    }
}

fn main(rt: HostRuntime) -> io::Result<ExitCode> {
    let asked = match words_of(&rt) {
        Ok(words) => asked_by(words.as_slice()),
        Err(error) if error.kind() == io::ErrorKind::InvalidData => Asked::Other,
        Err(_) => Asked::Unread,
    };
    let alloc = rt.alloc();
    let status = match asked {
        Asked::Commits(work) => commits(&rt, alloc, work)?,
        Asked::Peeks(work) => peeks(&rt, alloc, work)?,
        Asked::Wanting => want(&rt, alloc)?,
        Asked::Unread => {
            rt.println(Finding::Before.line())?;
            NO_MEMORY
        }
        Asked::Other => {
            rt.eprintln("usage: asm_book_bench commits SEATS STEPS | peeks SEATS STEPS | wanting")?;
            WRONG
        }
    };
    Ok(ExitCode::from(status))
}
