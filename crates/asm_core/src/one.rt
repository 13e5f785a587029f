//! The server of one thread.
ghost use Rattle.std.specs.Prelude.{◌≡◌, ◌≤◌, ◌^◌, [], length, true, IfOk, OnOk, OnErr};
ghost use Rattle.asm_board.specs.Calls.{is_log};
ghost use Rattle.asm_board.specs.Answers as spec;
ghost use Rattle.asm_core.specs.Language.{asmeta};
ghost use Rattle.asm_core.specs.Servers.{grown};

use crate::logs::{answer_log, asked_of};
use crate::preparation::prepare;
use asm_board::{Board, Call, Entry, Next, Outcome, Prepared, Reply};
use std::alloc::{AllocError, Global};
use std::marker::Model;

/// For how many entries there is memory from the start.
const FIRST_ENTRIES: usize = 16;

/// A server that answers one call after another. Its journal has the accepted changes, each an
/// entry of seat 0, and its weight never exceeds the room. Contracts see the room and the journal.
#[derive(Drop)]
pub struct One {
    room: u64,
    journal: Vec<Entry>,
    board: Board,
}

impl Model for One {
    ghost use Rattle.std.specs.Prelude.{◌≡◌, ◌≤◌, ◌^◌, length};
    ghost use Rattle.asm_board.specs.Boards.{board_of};
    ghost use Rattle.asm_core.specs.Language.{asmeta};
    ghost use Rattle.asm_core.specs.Servers.{Keeps, Server};
    ghost use Rattle.std.specs.Coded.{codes};
    ghost use Rattle.asm_portable.specs.contracts.port.Port as port;

    ghost Value = { Server };

    ghost coded = { Prim.hlevel (codes, port.the_row.coded) };

    ghost view = { λ one. record { room = one.room; journal = one.journal.items } };

    ghost invariant = { λ one. Keeps one.room one.journal.items one.board };
}

/// The reply of what is only said, after this many entries.
fn reply_of(prepared: Prepared, at: u64) -> Reply
    ensures { result ≡ spec.told at prepared.body prepared.tail }
{
    let Prepared { body, tail, .. } = prepared;
    Reply { at, body, tail }
}

impl One {
    /// A server with an empty journal, which may weigh as much as the room, at most 2^23.
    pub fn new(alloc: Global, room: u64) -> Result<One, AllocError>
        requires { room ≤ 2 ^ 23 }
        ensures { IfOk result (λ one. one ≡ record { room = room; journal = [] }) }
    {
        Ok(One {
            room,
            journal: Vec::with_capacity(alloc, FIRST_ENTRIES)?,
            board: Board::new(alloc),
        })
    }

    /// The number of entries. Takes no memory.
    pub fn front(&self) -> u64
        ensures { result ≡ length self.now.journal }
    {
        self.board.front()
    }

    /// The answer to a log.
    fn log(&self, alloc: Global, call: &Call) -> Result<Reply, AllocError>
        requires { is_log call.now ≡ true }
        ensures { IfOk result (λ reply. reply
            ≡ (spec.answer asmeta self.now.room self.now.journal 0 call.now).reply) }
    {
        let entries = asked_of(self.journal.as_slice(), call);
        answer_log(alloc, entries, self.board.front(), call)
    }

    /// Answers a call: a read at the journal as it is, and a change by its entry or its refusal. On
    /// `AllocError`, want of memory, nothing has changed.
    pub fn answer(&mut self, alloc: Global, call: &Call) -> Result<Reply, AllocError>
        ensures reply { IfOk result (λ reply. reply
            ≡ (spec.answer asmeta self.old.room self.old.journal 0 call.now).reply) }
        ensures journal { OnOk result (self.new
            ≡ grown self.old (spec.answer asmeta self.old.room self.old.journal 0 call.now).entry) }
        ensures err { OnErr result (self.new ≡ self.old) }
    {
        if call.is_log() {
            return self.log(alloc, call);
        }
        let prepared = prepare(alloc, &self.board, call)?;
        if !prepared.is_change() {
            return Ok(reply_of(prepared, self.board.front()));
        }
        let Outcome { reply, next } = prepared.outcome(alloc, self.room, &self.board, 0)?;
        match next {
            Some(Next { entry, board }) => {
                self.journal.push(entry)?;
                self.board = board;
            }
            None => {}
        }
        Ok(reply)
    }
}
