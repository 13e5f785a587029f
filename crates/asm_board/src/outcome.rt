//! What a prepared change comes to at a board.
ghost use Rattle.std.specs.Prelude.{ℕ, ◌≡◌, ◌+◌, nat_lt, Some, None, IfOk, IfSome};
ghost use Rattle.asm_board.specs.Boards as spec;
ghost use Rattle.asm_board.specs.Answers as answers;
ghost use Rattle.asm_board.specs.Answers.{answer_in, outcome_of};
ghost use Rattle.asm_board.specs.Ends.{answer_of, entered_at, LeavesBoard};
ghost use Rattle.asm_board.specs.declared.board.Board.{Board as Boards};
ghost use Rattle.asm_board.specs.declared.outcome.End.TheVariants as ends;
ghost use Rattle.asm_board.specs.Replies.{reply_of};
ghost use Rattle.asm_board.specs.declared.reply.Body.TheVariants as bodies;

use crate::board::Board;
use crate::entry::Entry;
use crate::prepared::Prepared;
use crate::refusal::Refusal;
use crate::reply::{Body, Reply};
use asm_portable::Port;
use std::alloc::{AllocError, Global};

/// The most models of a board.
pub const MOST_MODELS: u32 = 32;

/// An accepted change: its entry, and the board after it.
#[derive(Drop)]
pub struct Next {
    pub entry: Entry,
    pub board: Board,
}

/// What is answered, and what follows if it was accepted.
#[derive(Drop)]
pub struct Outcome {
    pub reply: Reply,
    pub next: Option<Next>,
}

/// How a prepared change ends at a board.
#[derive(Drop)]
enum End {
    /// What it says is a refusal.
    Told,
    /// Its model is one too many, or its entry has no room.
    Refused(Reply),
    /// It is an entry with this tree, and leaves this board.
    Entered { tree: Port, board: Board },
}

impl End {
    /// A refusal at a board.
    fn refused(alloc: Global, board: &Board, refusal: Refusal) -> Result<End, AllocError>
        ensures { IfOk result
            (λ end. end ≡ ends.Refused (reply_of board.now.front (bodies.No refusal))) }
    {
        let reply = Reply::new(alloc, board.front(), Body::No(refusal))?;
        Ok(End::Refused(reply))
    }
}

/// Whether an entry adds more to a journal's weight than there is room for.
fn is_too_much(room: u64, weight: u64, adds: u64) -> bool
    ensures { result ≡ nat_lt room (weight + adds) }
{
    // their sum may be 2^64 or more
    weight > room || adds > room - weight
}

impl Prepared {
    /// What it says, after this many entries. Nothing follows.
    fn told(self, at: u64) -> Outcome
        ensures { result ≡ record { reply = answers.told at self.body self.tail; next = None } }
    {
        let Prepared { body, tail, .. } = self;
        Outcome {
            reply: Reply { at, body, tail },
            next: None,
        }
    }

    /// This refusal of it. Nothing follows.
    fn refused(self, reply: Reply) -> Outcome
        ensures { result ≡ record { reply = reply; next = None } }
    {
        Outcome { reply, next: None }
    }

    /// What it says, as the entry of a seat that leaves a board. The entry has a tree of its own.
    fn entered(self, seat: u32, board: Board, kept: Port) -> Outcome
        ensures { result ≡ record {
          reply = answers.told board.front self.body self.tail;
          next = Some (record {
            entry = entered_at board.front seat self.call kept;
            board = board;
          });
        } }
    {
        let number = board.front;
        let Prepared {
            call,
            body,
            tail,
            ..
        } = self;
        let entry = Entry {
            seat,
            number,
            call,
            body: Body::Ok(kept),
        };
        Outcome {
            reply: Reply {
                at: number,
                body,
                tail,
            },
            next: Some(Next { entry, board }),
        }
    }

    /// The board after its entry, which has a tree of its own.
    fn enters(&self, alloc: Global, board: &Board, tree: &Port) -> Result<End, AllocError>
        ensures { IfOk result (λ end. end
            ≡ ends.Entered tree.now (spec.with_entry board.now self.now.weight self.now.slots)) }
    {
        let board = board.with_entry(alloc, self.weight, self.slots.as_slice())?;
        let tree = tree.copy(alloc)?;
        Ok(End::Entered { tree, board })
    }

    /// How it ends at a board where its versions still hold.
    fn end(&self, alloc: Global, room: u64, board: &Board) -> Result<End, AllocError>
        ensures answer { IfOk result (λ end. (seat : ℕ) →
            answer_of self.now board.now.front seat end ≡ outcome_of room board.now seat self.now) }
        ensures board { IfOk result
            (λ end. LeavesBoard (spec.with_entry board.now self.now.weight self.now.slots) end) }
    {
        if self.loads && board.count() >= MOST_MODELS {
            let refusal = Refusal::models_full(alloc, u64::from(MOST_MODELS))?;
            return End::refused(alloc, board, refusal);
        }
        let tree = match &self.body {
            Body::Ok(tree) => tree,
            Body::No(_) => return Ok(End::Told),
        };
        if is_too_much(room, board.weight(), self.weight) {
            let refusal = Refusal::journal_full(alloc, self.weight, board.weight())?;
            return End::refused(alloc, board, refusal);
        }
        self.enters(alloc, board, tree)
    }

    /// What is answered where it ends so, after this many entries.
    fn ended(self, seat: u32, at: u64, end: End) -> Outcome
        ensures answer { answer_in result ≡ answer_of self at seat end }
        ensures board { (after : Boards) → LeavesBoard after end
            → IfSome result.next (λ next. next.board ≡ after) }
    {
        match end {
            End::Told => self.told(at),
            End::Refused(reply) => self.refused(reply),
            End::Entered { tree, board } => self.entered(seat, board, tree),
        }
    }

    /// What it comes to at a board where its versions still hold: a refusal where one more model
    /// is too many, or the entry has no room in a journal of this weight at most, or else what it
    /// says, as an entry of this seat where it is accepted. On `AllocError`, want of memory or a
    /// board of 2^64 - 1 entries, it is dropped.
    pub fn outcome(
        self,
        alloc: Global,
        room: u64,
        board: &Board,
        seat: u32,
    ) -> Result<Outcome, AllocError>
        ensures answer { IfOk result
            (λ outcome. answer_in outcome ≡ outcome_of room board.now seat self) }
        ensures board { IfOk result (λ outcome. IfSome outcome.next
            (λ next. next.board ≡ spec.with_entry board.now self.weight self.slots)) }
    {
        let end = self.end(alloc, room, board)?;
        Ok(self.ended(seat, board.front(), end))
    }
}
