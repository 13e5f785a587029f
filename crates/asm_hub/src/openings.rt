//! Openings that fail, and gates that refuse.
ghost use Rattle.std.specs.Prelude.{◌≡◌};

use asm_book::{
    FailingMaker, Gate, Look, MemoryGate, OpenRefusal, Opening, RealMaker, Token, Unopened,
    open_book,
};
use std::alloc::{AllocError, Global};
use std::marker::Brand;
use std::sync::Wait;
use std::test::Fail;

/// Whether a book isn't opened since the maker fails.
fn fails<L: Opening, R: Wait>(
    rt: &R,
    alloc: Global,
    unopened: Unopened,
    maker: &mut FailingMaker,
) -> bool
    requires ledger { (unopened.blank.name ≡ L.name) × (unopened.blank.parts ≡ L.parts)
        × (L.parts ≡ 2) }
    requires history { unopened.seen.book ≡ L.history }
    requires book { (L.seats ≡ 2) × (L.room ≡ 12) }
{
    match open_book::<L, FailingMaker, &R>(rt, alloc, unopened, maker, 2, 12) {
        Ok(_) => false,
        Err(refusal) => refusal == OpenRefusal::NoReader,
    }
}

/// Whether the first opening has no reader, and a second one by the same maker has.
fn first_fails<R: Wait>(rt: &R, alloc: Global) -> Result<bool, AllocError> {
    let mut maker = FailingMaker::new(alloc, &[0])?;
    let first = fails::<Brand, R>(rt, alloc, Unopened::new(2), &mut maker);
    let second = fails::<Brand, R>(rt, alloc, Unopened::new(2), &mut maker);
    Ok(first && !second && maker.faults() == 1)
}

#[test]
fn a_maker_that_fails_gives_no_reader(rt: HostRuntime) -> Result<(), Fail> {
    assert!(rt; first_fails(&rt, rt.alloc())?);
    Ok(())
}

/// Whether a gate's looks are a refused entrance, and one that has these marks.
fn are_told(looks: &[Look], front: Option<u64>, passed: bool) -> bool {
    match looks {
        [first, second] => {
            first.front.is_none()
                && !first.passed
                && second.front == front
                && second.passed == passed
        }
        _ => false,
    }
}

/// Whether the gate tells two looks: a refused entrance, and one that has these marks.
fn tells(gate: &MemoryGate, front: Option<u64>, passed: bool) -> bool {
    match gate.looks() {
        Some(looks) => are_told(looks, front, passed),
        None => false,
    }
}

/// Whether a gate with room for two looks refuses its first entrance and those after the second.
fn refuses<L: Opening, W: Wait>(rt: &W, token: &mut Token<L>, gate: &mut MemoryGate) -> bool {
    let first = token.peek(gate).is_none();
    let second = token.peek(gate).is_some_and(|board| board.front() == 0);
    let looked = tells(gate, Some(0), false);
    gate.pass(rt, token.seat());
    let passed = tells(gate, Some(0), true);
    let third = token.peek(gate).is_none();
    first && second && looked && passed && third && gate.looks().is_none() && gate.faults() == 2
}

/// The same of a gate and a new book.
fn looks<L: Opening, R: Wait>(
    rt: &R,
    alloc: Global,
    unopened: Unopened,
    gate: &mut MemoryGate,
) -> bool
    requires ledger { (unopened.blank.name ≡ L.name) × (unopened.blank.parts ≡ L.parts)
        × (L.parts ≡ 1) }
    requires history { unopened.seen.book ≡ L.history }
    requires book { (L.seats ≡ 1) × (L.room ≡ 12) }
{
    let mut maker = RealMaker::new();
    let opened = open_book::<L, RealMaker, &R>(rt, alloc, unopened, &mut maker, 1, 12);
    let Ok((_book, mut tokens)) = opened else {
        return false;
    };
    match tokens.pop() {
        Some(mut token) => refuses(rt, &mut token, gate),
        None => false,
    }
}

/// Whether a gate with room for two looks that is to refuse the first entrance does so.
fn two_looks<R: Wait>(rt: &R, alloc: Global) -> Result<bool, AllocError> {
    let mut gate = MemoryGate::new(alloc, 2, &[0])?;
    Ok(looks::<Brand, R>(rt, alloc, Unopened::new(1), &mut gate))
}

#[test]
fn a_gate_in_memory_tells_two_looks(rt: HostRuntime) -> Result<(), Fail> {
    assert!(rt; two_looks(&rt, rt.alloc())?);
    Ok(())
}
