//! A commit for which memory may be wanting.
ghost use Rattle.std.specs.Prelude.{◌≡◌, true};
ghost use Rattle.asm_board.specs.Calls.{is_change};
ghost use Rattle.asm_core.specs.Language.{asmeta};

use asm_board::{Call, Entry};
use asm_book::{Book, Opening, RealMaker, Still, Token, Unopened, open_book};
use asm_seats::{End, change, end_of, load, ready, settle, step};
use std::alloc::{AllocError, Global};
use std::marker::Brand;
use std::sync::Wait;

/// What became of a commit for which an allocation may have failed.
#[derive(Clone, Copy, Debug, PartialEq, Eq)]
pub enum Finding {
    /// Memory was wanting before the commit.
    Before,
    /// It was refused for want of memory, all was as before, and it was accepted when it was
    /// committed again.
    AsBefore,
    /// It was accepted.
    Committed,
    /// Something wasn't as before, or the commit ended otherwise.
    Changed,
}

impl Finding {
    /// The words in which it is told. Takes no memory.
    pub fn line(self) -> &'static str {
        match self {
            Finding::Before => "before",
            Finding::AsBefore => "as before",
            Finding::Committed => "committed",
            Finding::Changed => "changed",
        }
    }
}

/// How many of the entries are of a seat.
fn of_seat(entries: &[Entry], seat: u32) -> usize {
    entries.iter().filter(|entry| entry.seat == seat).count()
}

/// Whether so many entries are all that is seen, peeked and held, and all are of seat 0. A token
/// doesn't show its own numbers, so those of its seat are looked for in the journal.
fn shows<L: Opening, R: Wait + Drop, W: Wait>(
    rt: &W,
    book: &Book<L, R>,
    one: &Token<L>,
    other: &mut Token<L>,
    front: u64,
) -> bool {
    let mut gate = Still::new();
    let shown = other
        .peek(&mut gate)
        .is_some_and(|board| board.front() == front);
    let seen = one.seen() == front && other.seen() == front && one.holds() == 0;
    let held = other.hold(rt, book);
    let entries = held.entries(1, u64::MAX);
    let own = of_seat(entries, one.seat()) as u64 == front && entries.len() as u64 == front;
    shown && seen && own
}

/// What became of a step that seat 0 commits after its load.
fn step_found<L: Opening, R: Wait + Drop, W: Wait>(
    rt: &W,
    alloc: Global,
    book: &Book<L, R>,
    one: &mut Token<L>,
    other: &mut Token<L>,
    call: &Call,
) -> Finding
    requires meanings { L.meanings ≡ asmeta }
    requires change { is_change call.now ≡ true }
{
    let mut gate = Still::new();
    let Some(prepared) = ready(alloc, one, &mut gate, call) else {
        return Finding::Before;
    };
    match end_of(&settle(rt, alloc, book, one, prepared)) {
        End::Ok(2) => {
            if shows(rt, book, one, other, 2) {
                return Finding::Committed;
            }
        }
        End::Nothing => {
            if shows(rt, book, one, other, 1)
                && change(rt, alloc, book, one, &mut gate, call) == End::Ok(2)
                && shows(rt, book, one, other, 2)
            {
                return Finding::AsBefore;
            }
        }
        End::Ok(_) | End::No(_) | End::Stale { .. } => {}
    }
    Finding::Changed
}

/// What became of a step after a load. Fails where memory was wanting before the step.
fn found<L: Opening, R: Wait>(
    rt: &R,
    alloc: Global,
    unopened: Unopened,
) -> Result<Finding, AllocError>
    requires ledger { (unopened.blank.name ≡ L.name) × (unopened.blank.parts ≡ L.parts)
        × (L.parts ≡ 2) }
    requires history { unopened.seen.book ≡ L.history }
    requires book { (L.seats ≡ 2) × (L.room ≡ 1000) × (L.meanings ≡ asmeta) }
{
    let mut maker = RealMaker::new();
    let opened = open_book::<L, RealMaker, &R>(rt, alloc, unopened, &mut maker, 2, 1000);
    let Ok((book, mut tokens)) = opened else {
        return Err(AllocError);
    };
    let (Some(mut other), Some(mut one)) = (tokens.pop(), tokens.pop()) else {
        return Err(AllocError);
    };
    let first = load(alloc, "T")?;
    let mut gate = Still::new();
    if change(rt, alloc, &book, &mut one, &mut gate, &first) != End::Ok(1) {
        return Err(AllocError);
    }
    let call = step(alloc, "T")?;
    Ok(step_found(rt, alloc, &book, &mut one, &mut other, &call))
}

/// Opens a book of two seats, of which one loads a model and commits a step of it, and finds what
/// became of that commit.
pub fn try_commit<R: Wait>(rt: &R, alloc: Global) -> Finding {
    match found::<Brand, R>(rt, alloc, Unopened::new(2)) {
        Ok(finding) => finding,
        Err(_) => Finding::Before,
    }
}
