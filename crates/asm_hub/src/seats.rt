//! Two seats, one call after another.
ghost use Rattle.std.specs.Prelude.{◌≡◌};
ghost use Rattle.asm_core.specs.Language.{asmeta};
ghost use Rattle.asm_seats.specs.Ready.{IsReady};

use asm_board::{Prepared, Reply};
use asm_book::{Book, CommitRefusal, Opening, RealMaker, Still, Token, Unopened, meet, open_book};
use asm_seats::{End, change, change_held, end_of, load, ready, settle, step};
use std::alloc::{AllocError, Global};
use std::marker::Brand;
use std::sync::Wait;
use std::test::Fail;

/// Whether a step that was prepared before another seat's is stale, with the board that this left.
fn is_overtaken<L: Opening, R: Wait + Drop, W: Wait>(
    rt: &W,
    alloc: Global,
    book: &Book<L, R>,
    one: &mut Token<L>,
    other: &mut Token<L>,
) -> Result<bool, AllocError>
    requires { L.meanings ≡ asmeta }
{
    let mut gate = Still::new();
    let call = step(alloc, "T")?;
    let Some(late) = ready(alloc, other, &mut gate, &call) else {
        return Ok(false);
    };
    let second = change(rt, alloc, book, one, &mut gate, &call);
    let stale = stale_by(rt, alloc, book, other, late, 1, 2);
    Ok(second == End::Ok(2) && stale && other.seen() == 2)
}

/// Whether a commit is stale with these versions, and hands back the board of the later one.
fn stale_by<L: Opening, R: Wait + Drop, W: Wait>(
    rt: &W,
    alloc: Global,
    book: &Book<L, R>,
    token: &mut Token<L>,
    prepared: Prepared,
    had: u64,
    now: u64,
) -> bool
    requires { IsReady L.meanings token.old.history prepared }
{
    let ended = settle(rt, alloc, book, token, prepared);
    end_of(&ended)
        == End::Stale {
            had,
            now,
            front: now,
        }
}

/// Whether a seat's first commit shows at once to the other seat, and a late step is stale.
fn shows_and_overtakes<L: Opening, R: Wait + Drop, W: Wait>(
    rt: &W,
    alloc: Global,
    book: &Book<L, R>,
    one: &mut Token<L>,
    other: &mut Token<L>,
) -> Result<bool, AllocError>
    requires { L.meanings ≡ asmeta }
{
    let mut gate = Still::new();
    let call = load(alloc, "T")?;
    let loaded = change(rt, alloc, book, one, &mut gate, &call);
    let shown = other
        .peek(&mut gate)
        .is_some_and(|board| board.front() == 1);
    let seen = shown && other.seen() == 1 && loaded == End::Ok(1);
    Ok(is_overtaken(rt, alloc, book, one, other)? && seen)
}

/// Whether a seat that holds the lock settles at once, and is counted.
fn holds<L: Opening, R: Wait + Drop, W: Wait>(
    rt: &W,
    alloc: Global,
    book: &Book<L, R>,
    one: &mut Token<L>,
    other: &mut Token<L>,
) -> Result<bool, AllocError>
    requires { L.meanings ≡ asmeta }
{
    let call = step(alloc, "T")?;
    let stepped = change_held(rt, alloc, book, other, &call) == End::Ok(3);
    let counted = other.holds() == 1 && one.holds() == 0;
    let before = one.seen();
    meet(other, one);
    Ok(stepped && counted && before == 2 && one.seen() == 3)
}

/// How many entries are there under the lock with so many numbers from one on.
fn count_of<L: Opening, R: Wait + Drop, W: Wait>(
    rt: &W,
    book: &Book<L, R>,
    token: &mut Token<L>,
    from: u64,
    count: u64,
) -> usize {
    token.hold(rt, book).entries(from, count).len()
}

/// First and number of entries that are asked for, and how many of three there are.
const PARTS: [(u64, u64, usize); 7] = [
    (1, 3, 3),
    (1, 2, 2),
    (2, 9, 2),
    (4, 1, 0),
    (0, 1, 0),
    (0, 3, 2),
    (2, u64::MAX, 2),
];

fn are_counted<L: Opening, R: Wait + Drop, W: Wait>(
    rt: &W,
    book: &Book<L, R>,
    token: &mut Token<L>,
) -> bool {
    let mut all = true;
    for (from, count, there) in PARTS {
        all = count_of(rt, book, token, from, count) == there && all;
    }
    all
}

fn two_seats<L: Opening, R: Wait>(
    rt: &R,
    alloc: Global,
    unopened: Unopened,
) -> Result<bool, AllocError>
    requires ledger { (unopened.blank.name ≡ L.name) × (unopened.blank.parts ≡ L.parts)
        × (L.parts ≡ 2) }
    requires history { unopened.seen.book ≡ L.history }
    requires book { (L.seats ≡ 2) × (L.room ≡ 1000) × (L.meanings ≡ asmeta) }
{
    let mut maker = RealMaker::new();
    let opened = open_book::<L, RealMaker, &R>(rt, alloc, unopened, &mut maker, 2, 1000);
    let Ok((book, mut tokens)) = opened else {
        return Err(AllocError);
    };
    let (Some(mut other), Some(mut one)) = (tokens.pop(), tokens.pop()) else {
        return Ok(false);
    };
    Ok(
        shows_and_overtakes(rt, alloc, &book, &mut one, &mut other)?
            && holds(rt, alloc, &book, &mut one, &mut other)?
            && are_counted(rt, &book, &mut one),
    )
}

#[test]
fn a_commit_shows_to_the_other_seat(rt: HostRuntime) -> Result<(), Fail> {
    assert!(rt; two_seats::<Brand, _>(&rt, rt.alloc(), Unopened::new(2))?);
    Ok(())
}

/// Whether a commit was answered by this text after `{"at":N,`, with this number.
pub fn says(ended: &Result<Reply, CommitRefusal>, at: u64, tail: &str) -> bool {
    match ended {
        Ok(reply) => reply.at == at && reply.tail.as_str() == tail,
        Err(_) => false,
    }
}

/// Whether a step after a load has no room, and is told so.
fn is_full<L: Opening, R: Wait + Drop, W: Wait>(
    rt: &W,
    alloc: Global,
    book: &Book<L, R>,
    one: &mut Token<L>,
    other: &mut Token<L>,
) -> Result<bool, AllocError>
    requires { L.meanings ≡ asmeta }
{
    let mut gate = Still::new();
    let call = load(alloc, "T")?;
    let loaded = change(rt, alloc, book, one, &mut gate, &call);
    let call = step(alloc, "T")?;
    let Some(prepared) = ready(alloc, other, &mut gate, &call) else {
        return Ok(false);
    };
    let ended = settle(rt, alloc, book, other, prepared);
    let tail = "\"no\":\"JournalFull\",\"why\":{\"adds\":11,\"weight\":12}}";
    Ok(loaded == End::Ok(1) && says(&ended, 1, tail) && other.seen() == 1)
}

fn little_room<L: Opening, R: Wait>(
    rt: &R,
    alloc: Global,
    unopened: Unopened,
) -> Result<bool, AllocError>
    requires ledger { (unopened.blank.name ≡ L.name) × (unopened.blank.parts ≡ L.parts)
        × (L.parts ≡ 2) }
    requires history { unopened.seen.book ≡ L.history }
    requires book { (L.seats ≡ 2) × (L.room ≡ 12) × (L.meanings ≡ asmeta) }
{
    let mut maker = RealMaker::new();
    let opened = open_book::<L, RealMaker, &R>(rt, alloc, unopened, &mut maker, 2, 12);
    let Ok((book, mut tokens)) = opened else {
        return Err(AllocError);
    };
    let (Some(mut other), Some(mut one)) = (tokens.pop(), tokens.pop()) else {
        return Ok(false);
    };
    is_full(rt, alloc, &book, &mut one, &mut other)
}

#[test]
fn a_full_journal_takes_no_step(rt: HostRuntime) -> Result<(), Fail> {
    assert!(rt; little_room::<Brand, _>(&rt, rt.alloc(), Unopened::new(2))?);
    Ok(())
}
