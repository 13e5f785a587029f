//! Seats in threads of their own.
ghost use Rattle.std.specs.Prelude.{◌≡◌, ◌<◌, ◌≤◌, ℕ, List, length, slice_index_or, true, IfOk};
ghost use Rattle.asm_board.specs.Calls.{is_change};
ghost use Rattle.asm_board.specs.declared.entry.Entry.{Entry};
ghost use Rattle.asm_board.specs.Answers.{Legal};
ghost use Rattle.asm_core.specs.Language.{asmeta};
ghost use Rattle.asm_book.specs.Tokens.{Known};

use crate::calls::{End, change, load, step};
use asm_board::Call;
use asm_book::{Book, OpenRefusal, Opening, RealMaker, Still, Token, Unopened, gather, open_book};
use std::alloc::{AllocError, Global};
use std::marker::Brand;
use std::sync::Wait;
use std::thread;
use std::thread::Threads;

/// The room of a journal: the most that a book may have.
pub(crate) const ROOM: u64 = 1 << 23;

/// How many steps have room after the load: a step weighs 11, and the load 12.
pub const MOST_STEPS: u32 = 762_599;

/// How often a change is tried for each that is to be accepted.
const TRIES: u32 = 1000;

/// Makes a change until it was accepted so many times, or was tried too often.
fn repeat<L: Opening, R: Wait + Drop, W: Wait>(
    rt: &W,
    alloc: Global,
    book: &Book<L, R>,
    token: &mut Token<L>,
    call: &Call,
    times: u32,
)
    requires meanings { L.meanings ≡ asmeta }
    requires change { is_change call.now ≡ true }
    ensures { token.new.seat ≡ token.old.seat }
{
    let mut gate = Still::new();
    let mut left = times;
    for _try in 0..times.saturating_mul(TRIES) {
        if left == 0 {
            return;
        }
        match change(rt, alloc, book, token, &mut gate, call) {
            End::Ok(_) => left -= 1,
            End::No(_) | End::Stale { .. } | End::Nothing => {}
        }
    }
}

/// Loads the model, if no other seat has, and steps it so many times.
pub(crate) fn work<L: Opening, R: Wait + Drop, W: Wait>(
    rt: &W,
    alloc: Global,
    book: &Book<L, R>,
    token: &mut Token<L>,
    load: &Call,
    step: &Call,
    times: u32,
)
    requires meanings { L.meanings ≡ asmeta }
    requires load { is_change load.now ≡ true }
    requires step { is_change step.now ≡ true }
    ensures { token.new.seat ≡ token.old.seat }
{
    let mut gate = Still::new();
    let _ = change(rt, alloc, book, token, &mut gate, load);
    repeat(rt, alloc, book, token, step, times);
}

/// Lets each seat work in a thread of its own.
fn work_all<L: Opening + Send + Sync, R: Threads + Wait + Sync>(
    rt: &R,
    alloc: Global,
    book: &Book<L, &R>,
    tokens: &mut [Token<L>],
    load: &Call,
    step: &Call,
    times: u32,
)
    requires meanings { L.meanings ≡ asmeta }
    requires load { is_change load.now ≡ true }
    requires step { is_change step.now ≡ true }
    ensures length { length tokens.new ≡ length tokens.old }
    ensures seats { (k : ℕ) (d : Known) → k < length tokens.old
        → (slice_index_or tokens.new k d).seat ≡ (slice_index_or tokens.old k d).seat }
{
    thread::for_each_mut(
        rt,
        tokens,
        64,
        &|_, token| { work(rt, alloc, book, token, load, step, times) },
    );
}

/// Lets each seat work in a thread of its own, gathers the tokens, and answers the length of the one
/// journal.
fn day<L: Opening + Send + Sync, R: Threads + Wait + Sync>(
    rt: &R,
    alloc: Global,
    unopened: Unopened,
    seats: u32,
    load: &Call,
    step: &Call,
    times: u32,
) -> Result<u64, OpenRefusal>
    requires seats { (0 < seats) × (seats ≤ 64) × (L.seats ≡ seats) }
    requires room { L.room ≡ 8388608 }
    requires ledger { (unopened.blank.name ≡ L.name) × (unopened.blank.parts ≡ L.parts)
        × (L.parts ≡ seats) }
    requires history { unopened.seen.book ≡ L.history }
    requires meanings { L.meanings ≡ asmeta }
    requires load { is_change load.now ≡ true }
    requires step { is_change step.now ≡ true }
    ensures { IfOk result (λ n. (journal : List Entry) × (length journal ≡ n)
        × Legal L.meanings L.room journal) }
{
    let mut maker = RealMaker::new();
    let (book, mut tokens) = open_book::<L, RealMaker, &R>(
        rt, alloc, unopened, &mut maker, seats, ROOM,
    )?;
    work_all(rt, alloc, &book, tokens.as_mut_slice(), load, step, times);
    Ok(gather(rt, &book, tokens))
}

/// The length of the one journal after a day of 1 to 64 seats, each in a thread of its own, in which
/// each seat loads the model or finds it loaded, and steps it until so many of its steps were
/// accepted, or a thousand times as many were tried. The journal has room for `MOST_STEPS` steps. It
/// waits for the book's lock. Fails where memory runs out before the day begins, and where the book
/// has no reader for a seat.
pub fn length_after<R: Threads + Wait + Sync>(
    rt: &R,
    alloc: Global,
    seats: u32,
    times: u32,
) -> Result<u64, AllocError>
    requires { (0 < seats) × (seats ≤ 64) }
{
    let load = load(alloc, "T")?;
    let step = step(alloc, "T")?;
    match day::<Brand, R>(rt, alloc, Unopened::new(seats), seats, &load, &step, times) {
        Ok(length) => Ok(length),
        Err(_) => Err(AllocError),
    }
}
