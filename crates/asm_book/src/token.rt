//! What one seat holds of an opening.
ghost use Rattle.std.specs.Prelude.{◌≡◌, ◌<◌, ◌≤◌, List, [], length, min, ◌+◌, ◌-◌, ◌^◌, true, IfSome, MatchOption};
ghost use Rattle.std.specs.Arc.{arc_value};
ghost use mathlib.Core.List.{IsPrefix};
ghost use Rattle.asm_board.specs.declared.entry.Entry.{Entry};
ghost use Rattle.asm_board.specs.Boards.{board_of};
ghost use Rattle.asm_board.specs.Answers.{Legal};
ghost use Rattle.asm_book.specs.Seats.{IsPick, numbers_of};
ghost use Rattle.asm_book.specs.Commits.{Commits, IsPreparedWithin};
ghost use Rattle.asm_book.specs.Faults.{Rose};
ghost use Rattle.asm_book.specs.Looks.{Looked};
ghost use Rattle.asm_board.specs.Calls.{is_change};

use crate::front::Front;
use crate::gate::Gate;
use crate::locked::LockedJournal;
use crate::opening::Opening;
use crate::published::SeatReader;
use crate::refusal::CommitRefusal;
use asm_board::{Board, Prepared, Reply};
use std::alloc::Global;
use std::marker::Model;
use std::sync::ledger::Share;
use std::sync::{Arc, Wait};

/// A seat's token: the history that it has seen, its own entries in it, and its part of the ledger.
#[derive(Drop)]
pub struct Token<L: Opening> {
    seat: u32,
    reader: SeatReader<L>,
    mine: Vec<u64>,
    share: Share<L>,
    holds: u64,
}

impl<L: Opening> Model for Token<L> {
    ghost use Rattle.std.specs.Coded.{codes};
    ghost use Rattle.asm_portable.specs.contracts.port.Port as port;
    ghost use Rattle.asm_book.specs.Tokens.{Known, IsToken};

    ghost Value = { Known };

    ghost coded = { Prim.hlevel (codes, port.the_row.coded) };

    ghost view = { λ t. record {
      seat = t.seat;
      history = t.reader;
      mine = t.mine.items;
      holds = t.holds;
    } };

    ghost invariant = { λ t. IsToken L.seats
        t.seat t.reader t.mine.items t.share.parts t.share.amount };
}

impl<L: Opening> Token<L> {
    pub(crate) fn new(alloc: Global, seat: u32, reader: SeatReader<L>, share: Share<L>) -> Token<L>
        requires seat { seat < L.seats }
        requires reader { reader ≡ [] }
        requires share { (share.parts ≡ 1) × (share.amount ≡ 0) }
        ensures { result ≡ record { seat = seat; history = []; mine = []; holds = 0 } }
    {
        Token {
            seat,
            reader,
            mine: Vec::new(alloc),
            share,
            holds: 0,
        }
    }

    /// The number of its seat, from 0. Takes no memory.
    pub fn seat(&self) -> u32
        ensures { result ≡ self.now.seat }
    {
        self.seat
    }

    /// The front that was seen last: the number of entries of its history. Takes no memory.
    pub fn seen(&self) -> u64
        ensures seen { result ≡ length self.now.history }
        ensures legal { Legal L.meanings L.room self.now.history }
        ensures own { IsPick self.now.mine (numbers_of self.now.seat self.now.history) }
    {
        self.reader.front().len()
    }

    /// How often it was held, 2^64 - 1 meaning that and more. Takes no memory.
    pub fn holds(&self) -> u64
        ensures { result ≡ self.now.holds }
    {
        self.holds
    }

    /// Its part of the ledger.
    pub(crate) fn into_share(self) -> Share<L>
        ensures parts { result.parts ≡ 1 }
        ensures amount { result.amount ≡ length self.mine }
    {
        let Token {
            seat: _,
            reader: _reader,
            mine: _mine,
            share,
            holds: _,
        } = self;
        share
    }

    pub(crate) fn front(&self) -> &Front<L>
        ensures history { result.now ≡ self.now.history }
        ensures own { IsPick self.now.mine (numbers_of self.now.seat self.now.history) }
    {
        self.reader.front()
    }

    /// Sees the journal that is held, and counts it.
    pub(crate) fn catch_up(&mut self, front: &Front<L>)
        requires { IsPrefix self.old.history front.now }
        ensures history { self.new.history ≡ front.now }
        ensures same { (self.new.seat ≡ self.old.seat) × (self.new.mine ≡ self.old.mine) }
        ensures counted { self.new.holds ≡ min (self.old.holds + 1) (2 ^ 64 - 1) }
    {
        self.reader.catch_up(front);
        self.holds = self.holds.saturating_add(1);
    }

    /// Sees what another token has seen, if that is more.
    pub(crate) fn learn(&mut self, front: &Front<L>)
        ensures theirs { IsPrefix front.now self.new.history }
        ensures later { IsPrefix self.old.history self.new.history }
        ensures same { (self.new.seat ≡ self.old.seat) × (self.new.mine ≡ self.old.mine)
            × (self.new.holds ≡ self.old.holds) }
    {
        self.reader.learn(front);
    }

    /// Enters once through the gate, and waits for nobody: the board of the history that is seen
    /// then, which goes on from what was seen. None where the gate refuses the entrance. Takes no
    /// memory.
    pub fn peek<G: Gate>(&mut self, gate: &mut G) -> Option<Arc<Board>>
        ensures later { IsPrefix self.old.history self.new.history }
        ensures board { IfSome result (λ b. arc_value b ≡ board_of L.meanings self.new.history) }
        ensures same { (self.new.seat ≡ self.old.seat) × (self.new.mine ≡ self.old.mine)
            × (self.new.holds ≡ self.old.holds) }
        ensures cause { MatchOption result (Rose (G.faults gate.old) (G.faults gate.new))
            (λ _. G.faults gate.old ≤ G.faults gate.new) }
        ensures look { Looked (G.looks gate.old) (G.looks gate.new) result }
    {
        gate.enter(&mut self.reader)
    }

    /// Settles a prepared call at the journal that is held.
    pub(crate) fn commit_at<R: Wait + Drop>(
        &mut self,
        alloc: Global,
        journal: &mut LockedJournal<L, R>,
        prepared: Prepared,
    ) -> Result<Reply, CommitRefusal>
        requires later { IsPrefix self.old.history journal.old }
        requires change { is_change prepared.call ≡ true }
        requires stands { IsPreparedWithin L.meanings self.old.history prepared }
        ensures commits { Commits L.meanings L.room journal.old self.old.seat prepared
            self.old.mine result self.new.history self.new.mine }
        ensures held { journal.new ≡ self.new.history }
        ensures same { (self.new.seat ≡ self.old.seat) × (self.new.holds ≡ self.old.holds) }
    {
        let result = journal.commit(alloc, self.seat, &mut self.mine, &mut self.share, prepared);
        self.reader.catch_up(journal.front());
        result
    }
}
