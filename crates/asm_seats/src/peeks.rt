//! Seats that peek while another one commits.
ghost use Rattle.std.specs.Prelude.{◌≡◌, ◌<◌, ◌≤◌, ◌^◌, length, true};
ghost use mathlib.Core.List.{IsPrefix};
ghost use Rattle.asm_board.specs.Calls.{is_change};
ghost use Rattle.asm_core.specs.Language.{asmeta};

use crate::calls::{load, step};
use crate::threads::{ROOM, work};
use asm_board::Call;
use asm_book::{Book, Gate, OpenRefusal, Opening, RealMaker, Still, Token, Unopened, open_book};
use std::alloc::{AllocError, Global};
use std::marker::Brand;
use std::sync::Wait;
use std::sync::atomic::{AtomicU64, Ordering};
use std::thread;
use std::thread::Threads;

/// How often a seat peeks at most.
const MOST_PEEKS: u64 = 1 << 34;

/// What a day came to in which one seat committed while the others peeked.
#[derive(Clone, Copy, Debug, PartialEq, Eq)]
pub struct Peeked {
    /// The length of the journal that the committing seat has seen in the end.
    pub entries: u64,
    /// How often the other seats peeked, all together.
    pub peeks: u64,
}

/// Peeks until the token has seen a history of at least so many entries, at most 2^34 times, and
/// counts its peeks, refused entrances among them. It takes no lock and no memory.
pub fn peek_until<L: Opening, G: Gate>(token: &mut Token<L>, gate: &mut G, entries: u64) -> u64
    ensures later { IsPrefix token.old.history token.new.history }
    ensures same { (token.new.seat ≡ token.old.seat) × (token.new.mine ≡ token.old.mine)
        × (token.new.holds ≡ token.old.holds) }
    ensures seen { result < 2 ^ 34 → entries ≤ length token.new.history }
    ensures most { result ≤ 2 ^ 34 }
{
    for peeks in 0..MOST_PEEKS {
        if entries <= token.seen() {
            return peeks;
        }
        let _ = token.peek(gate);
    }
    MOST_PEEKS
}

/// Lets seat 0 load the model and step it so many times, and each other seat peek until it has seen
/// the last of these steps. Adds the number of its peeks.
fn work_or_peek<L: Opening, R: Wait + Drop, W: Wait>(
    rt: &W,
    alloc: Global,
    book: &Book<L, R>,
    token: &mut Token<L>,
    load: &Call,
    step: &Call,
    times: u32,
    peeks: &AtomicU64,
)
    requires meanings { L.meanings ≡ asmeta }
    requires load { is_change load.now ≡ true }
    requires step { is_change step.now ≡ true }
    ensures { token.new.seat ≡ token.old.seat }
{
    if token.seat() == 0 {
        work(rt, alloc, book, token, load, step, times);
    } else {
        let mut gate = Still::new();
        let mine = peek_until(token, &mut gate, u64::from(times) + 1);
        peeks.fetch_add(mine, Ordering::SeqCst);
    }
}

/// Lets each seat work or peek in a thread of its own.
fn peek_all<L: Opening + Send + Sync, R: Threads + Wait + Sync>(
    rt: &R,
    alloc: Global,
    book: &Book<L, &R>,
    tokens: &mut [Token<L>],
    load: &Call,
    step: &Call,
    times: u32,
    peeks: &AtomicU64,
)
    requires meanings { L.meanings ≡ asmeta }
    requires load { is_change load.now ≡ true }
    requires step { is_change step.now ≡ true }
    ensures { length tokens.new ≡ length tokens.old }
{
    thread::for_each_mut(
        rt,
        tokens,
        64,
        &|_, token| { work_or_peek(rt, alloc, book, token, load, step, times, peeks) },
    );
}

/// A day in which seat 0 works while each other seat peeks.
fn peeked_day<L: Opening + Send + Sync, R: Threads + Wait + Sync>(
    rt: &R,
    alloc: Global,
    unopened: Unopened,
    seats: u32,
    load: &Call,
    step: &Call,
    times: u32,
) -> Result<Peeked, OpenRefusal>
    requires seats { (0 < seats) × (seats ≤ 64) × (L.seats ≡ seats) }
    requires room { L.room ≡ 8388608 }
    requires ledger { (unopened.blank.name ≡ L.name) × (unopened.blank.parts ≡ L.parts)
        × (L.parts ≡ seats) }
    requires history { unopened.seen.book ≡ L.history }
    requires meanings { L.meanings ≡ asmeta }
    requires load { is_change load.now ≡ true }
    requires step { is_change step.now ≡ true }
{
    let mut maker = RealMaker::new();
    let (book, mut tokens) = open_book::<L, RealMaker, &R>(
        rt, alloc, unopened, &mut maker, seats, ROOM,
    )?;
    let peeks = AtomicU64::new(0);
    peek_all(
        rt,
        alloc,
        &book,
        tokens.as_mut_slice(),
        load,
        step,
        times,
        &peeks,
    );
    let entries = match tokens.first() {
        Some(token) => token.seen(),
        None => 0,
    };
    Ok(Peeked {
        entries,
        peeks: peeks.load(Ordering::SeqCst),
    })
}

/// A day of 1 to 64 seats, each in a thread of its own: seat 0 loads the model and steps it so many
/// times, while each other seat peeks until it has seen the last of these steps. Fails where memory
/// runs out before the day begins, and where the book has no reader for a seat.
pub fn peeked_after<R: Threads + Wait + Sync>(
    rt: &R,
    alloc: Global,
    seats: u32,
    times: u32,
) -> Result<Peeked, AllocError>
    requires { (0 < seats) × (seats ≤ 64) }
{
    let load = load(alloc, "T")?;
    let step = step(alloc, "T")?;
    match peeked_day::<Brand, R>(rt, alloc, Unopened::new(seats), seats, &load, &step, times) {
        Ok(peeked) => Ok(peeked),
        Err(_) => Err(AllocError),
    }
}
