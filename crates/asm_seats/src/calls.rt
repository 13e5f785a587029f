//! Changes of a seat, and how they end.
ghost use Rattle.std.specs.Prelude.{◌≡◌, true, IfOk, IfSome};
ghost use mathlib.Core.List.{IsPrefix};
ghost use Rattle.asm_board.specs.Calls.{is_change};
ghost use Rattle.asm_core.specs.Language.{asmeta};
ghost use Rattle.asm_seats.specs.Ready.{IsReady};

use asm_board::{Body, Call, Prepared, Reply};
use asm_book::{Book, CommitRefusal, Gate, Opening, Token};
use asm_core::prepare;
use asm_portable::Port;
use asm_value::{List, Text};
use std::alloc::{AllocError, Global};
use std::sync::Wait;

/// A model whose load weighs 12.
const MODEL: &str = "asm T signature: controlled count: Integer controlled other: Boolean \
    definitions: main rule r_Main = par count := 1 other := true endpar";

/// How a change ended.
#[derive(Clone, Copy, Debug, PartialEq, Eq)]
pub enum End {
    /// It was accepted under this number.
    Ok(u64),
    /// It was refused after this number of entries.
    No(u64),
    /// Its model had one version, has another now, and this is the front of the board handed back.
    Stale { had: u64, now: u64, front: u64 },
    /// The entrance was refused, or memory was wanting.
    Nothing,
}

/// The load of a model of two locations under a name, which weighs 12 where the name is short. Fails
/// where memory runs out.
pub fn load(alloc: Global, name: &str) -> Result<Call, AllocError>
    ensures { IfOk result (λ call. is_change call ≡ true) }
{
    Ok(Call::Load {
        name: Text::from_str(alloc, name)?,
        text: Text::from_str(alloc, MODEL)?,
    })
}

/// A step of the model of a name, which weighs 11 where the name is short. Fails where memory runs
/// out.
pub fn step(alloc: Global, name: &str) -> Result<Call, AllocError>
    ensures { IfOk result (λ call. is_change call ≡ true) }
{
    Ok(Call::Step {
        formula: Text::from_str(alloc, name)?,
        inputs: Port::Fields(List::new(alloc)),
        pick: None,
    })
}

/// How a commit ended. Takes no memory.
pub fn end_of(ended: &Result<Reply, CommitRefusal>) -> End {
    match ended {
        Ok(reply) => match &reply.body {
            Body::Ok(_) => End::Ok(reply.at),
            Body::No(_) => End::No(reply.at),
        },
        Err(
            CommitRefusal::Stale {
                model: _,
                had,
                now,
                board,
            },
        ) => End::Stale {
            had: *had,
            now: *now,
            front: board.front(),
        },
        Err(CommitRefusal::NoMemory) => End::Nothing,
    }
}

/// Peeks, and prepares a change at the board that was given. None where the gate refuses the
/// entrance, and where memory runs out.
pub fn ready<L: Opening, G: Gate>(
    alloc: Global,
    token: &mut Token<L>,
    gate: &mut G,
    call: &Call,
) -> Option<Prepared>
    requires meanings { L.meanings ≡ asmeta }
    requires change { is_change call.now ≡ true }
    ensures ready { IfSome result (λ p. IsReady L.meanings token.new.history p) }
    ensures seat { token.new.seat ≡ token.old.seat }
{
    let board = token.peek(gate)?;
    prepare(alloc, &board, call).ok()
}

/// Commits what was prepared at the history that the token has seen. It waits for the book's lock.
/// The refusals are those of `Token::commit`.
pub fn settle<L: Opening, R: Wait + Drop, W: Wait>(
    rt: &W,
    alloc: Global,
    book: &Book<L, R>,
    token: &mut Token<L>,
    prepared: Prepared,
) -> Result<Reply, CommitRefusal>
    requires { IsReady L.meanings token.old.history prepared }
    ensures { token.new.seat ≡ token.old.seat }
{
    token.commit(rt, alloc, book, prepared)
}

/// Peeks, prepares a change and commits it, for which it waits for the book's lock.
pub fn change<L: Opening, R: Wait + Drop, W: Wait, G: Gate>(
    rt: &W,
    alloc: Global,
    book: &Book<L, R>,
    token: &mut Token<L>,
    gate: &mut G,
    call: &Call,
) -> End
    requires meanings { L.meanings ≡ asmeta }
    requires change { is_change call.now ≡ true }
    ensures { token.new.seat ≡ token.old.seat }
{
    match ready(alloc, token, gate, call) {
        Some(prepared) => end_of(&settle(rt, alloc, book, token, prepared)),
        None => End::Nothing,
    }
}

/// Takes the lock, for which it waits, and prepares and commits a change at the held board.
pub fn change_held<L: Opening, R: Wait + Drop, W: Wait>(
    rt: &W,
    alloc: Global,
    book: &Book<L, R>,
    token: &mut Token<L>,
    call: &Call,
) -> End
    requires meanings { L.meanings ≡ asmeta }
    requires change { is_change call.now ≡ true }
    ensures { token.new.seat ≡ token.old.seat }
{
    let mut held = token.hold(rt, book);
    match prepare(alloc, held.board(), call) {
        Ok(prepared) => end_of(&held.commit(alloc, token, prepared)),
        Err(_) => End::Nothing,
    }
}
