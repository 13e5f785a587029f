//! What is under the lock: the one journal, its board, and the writer that publishes it.
ghost use Rattle.std.specs.Prelude.{◌≡◌, ◌+◌, ◌-◌, take, drop, ◌<◌, ◌≤◌, ◌∷◌, ◌++◌, [], List, length, vec_len, vec_capacity, true, IfOk, OnOk, IsTrue, MatchOption, MatchResult};
ghost use Rattle.std.specs.Arc.{arc_value};
ghost use mathlib.Core.List.{IsPrefix};
ghost use Rattle.asm_board.specs.declared.entry.Entry.{Entry};
ghost use Rattle.asm_board.specs.Boards.{board_of, with_entry};
ghost use Rattle.asm_board.specs.Calls.{is_change};
ghost use Rattle.asm_board.specs.Answers.{Legal};
ghost use Rattle.asm_book.specs.Commits.{Commits, IsPreparedWithin, IsStale};
ghost use Rattle.asm_book.specs.Gathered.{Accounts, SeatedFrom, AreBegun, mines};
ghost use Rattle.asm_book.specs.Journals.{entries_in};
ghost use Rattle.asm_book.specs.LockedJournals.{most_room};
ghost use Rattle.asm_book.specs.Rules.{IsOf};
ghost use Rattle.asm_book.specs.Seats.{IsPick, numbers_of, total_length};

use crate::front::{Front, Head};
use crate::opening::Opening;
use crate::published::{BoardHandle, Published};
use crate::refusal::CommitRefusal;
use crate::settle::first_stale;
use crate::token::Token;
use asm_board::{Board, Entry, NameVersion, Next, Outcome, Prepared, Reply};
use std::alloc::{AllocError, Global};
use std::marker::Model;
use std::sync::ledger::{Book, Share};
use std::sync::{Arc, Wait};

/// The one journal with all that is tied to it. Contracts see it as its entries.
#[derive(Drop)]
pub struct LockedJournal<L: Opening, R: Wait + Drop> {
    head: Head<L>,
    front: Front<L>,
    journal: Vec<Entry>,
    board: Arc<Board>,
    writer: Option<BoardHandle<L, R>>,
    total: Book<L>,
    // A share with no part.
    none: Share<L>,
    room: u64,
}

impl<L: Opening, R: Wait + Drop> Model for LockedJournal<L, R> {
    ghost use Rattle.std.specs.Prelude.{◌≡◌, List, MatchOption};
    ghost use Rattle.std.specs.Arc.{arc_value};
    ghost use Rattle.std.specs.Coded.{codes};
    ghost use Rattle.asm_portable.specs.contracts.port.Port as port;
    ghost use Rattle.asm_board.specs.declared.entry.Entry.{Entry};
    ghost use Rattle.asm_book.specs.LockedJournals.{IsJournalOf};

    ghost Value = { List Entry };

    ghost coded = { Prim.hlevel (codes, port.the_row.coded) };

    ghost view = { λ d. d.front };

    ghost invariant = { λ d. IsJournalOf L.meanings L.seats L.room d.front
        d.journal.items (arc_value d.board) d.total.total d.room
        × MatchOption d.writer ⊥ (λ w. w.writer.desk.shown.value.log ≡ d.front) };
}

// Publishes a board through the writer that lies here.
fn show_through<L: Opening, R: Wait + Drop>(place: &mut Option<BoardHandle<L, R>>, next: &Published)
    requires of { IsOf L.meanings L.history L.room next.now }
    requires later { MatchOption place.old ⊥
        (λ w. length w.writer.desk.shown.value.log ≤ length next.now.log) }
    ensures { MatchOption place.new ⊥ (λ w. w.writer.desk.shown.value.log ≡ next.now.log) }
{
    let Some(writer) = place.take() else {
        unreachable!()
    };
    *place = Some(writer.show(next));
}

/// Room for one more in both lists.
fn reserve_both(journal: &mut Vec<Entry>, mine: &mut Vec<u64>) -> Result<(), AllocError>
    ensures journal { journal.new.items ≡ journal.old.items }
    ensures mine { mine.new.items ≡ mine.old.items }
    ensures room { OnOk result ((vec_len journal.new < vec_capacity journal.new)
        × (vec_len mine.new < vec_capacity mine.new)) }
{
    journal.reserve(1)?;
    mine.reserve(1)
}

/// Two owners of a board.
fn shared_twice(alloc: Global, board: Board) -> Result<(Arc<Board>, Arc<Board>), AllocError>
    ensures { IfOk result (λ both. (arc_value both.0 ≡ board) × (arc_value both.1 ≡ board)) }
{
    let board = Arc::new(alloc, board)?;
    let shown = Arc::try_clone(&board)?;
    Ok((board, shown))
}

/// An entry, and two owners of the board after it.
fn taken_apart(alloc: Global, next: Next) -> Result<(Entry, (Arc<Board>, Arc<Board>)), AllocError>
    ensures { IfOk result (λ parts. (parts.0 ≡ next.entry)
        × (arc_value parts.1.0 ≡ next.board) × (arc_value parts.1.1 ≡ next.board)) }
{
    let Next { entry, board } = next;
    let boards = shared_twice(alloc, board)?;
    Ok((entry, boards))
}

impl<L: Opening, R: Wait + Drop> LockedJournal<L, R> {
    pub(crate) fn new(
        alloc: Global,
        head: Head<L>,
        front: Front<L>,
        board: Arc<Board>,
        writer: BoardHandle<L, R>,
        total: Book<L>,
        none: Share<L>,
        room: u64,
    ) -> LockedJournal<L, R>
        requires empty { (front ≡ []) × (arc_value board ≡ board_of L.meanings [])
            × (writer.writer.desk.shown.value.log ≡ []) × (total.total ≡ 0) }
        requires room { (room ≡ L.room) × (room ≤ most_room) }
        ensures { result ≡ [] }
    {
        LockedJournal {
            head,
            front,
            journal: Vec::new(alloc),
            board,
            writer: Some(writer),
            total,
            none,
            room,
        }
    }

    pub(crate) fn front(&self) -> &Front<L>
        ensures { result.now ≡ self.now }
    {
        &self.front
    }

    /// Whether what was seen is no longer than the journal, which then begins with it.
    pub(crate) fn covers(&self, seen: &Front<L>) -> bool
        ensures covers { IsTrue result → IsPrefix seen.now self.now }
        ensures legal { Legal L.meanings L.room self.now }
    {
        if self.front.len() < seen.len() {
            return false;
        }
        seen.begins(&self.front);
        true
    }

    pub(crate) fn board(&self) -> &Arc<Board>
        ensures { arc_value result.now ≡ board_of L.meanings self.now }
    {
        &self.board
    }

    /// The entries with so many numbers from this one on, those that exist.
    pub(crate) fn entries(&self, from: u64, count: u64) -> &[Entry]
        ensures { result.now ≡ entries_in from count self.now }
    {
        let all = self.journal.as_slice();
        let most = all.len() as u64;
        let end = from.saturating_add(count).saturating_sub(1).min(most);
        let rest = &all[..end as usize];
        let start = from.saturating_sub(1).min(end);
        &rest[start as usize..]
    }

    /// Adds a legal entry with its board, and publishes this. At `AllocError` nothing has changed.
    fn push(
        &mut self,
        alloc: Global,
        next: Next,
        mine: &mut Vec<u64>,
        share: &mut Share<L>,
    ) -> Result<(), AllocError>
        requires legal { Legal L.meanings L.room (self.old ++ next.entry ∷ []) }
        requires board { next.board ≡ board_of L.meanings (self.old ++ next.entry ∷ []) }
        requires seat { next.entry.seat < L.seats }
        requires part { 0 < share.old.parts }
        ensures journal { MatchResult result
            (λ _. self.new ≡ self.old ++ next.entry ∷ []) (λ _. self.new ≡ self.old) }
        ensures mine { MatchResult result
            (λ _. mine.new.items ≡ mine.old.items ++ next.entry.number ∷ [])
            (λ _. mine.new.items ≡ mine.old.items) }
        ensures amount { MatchResult result
            (λ _. share.new.amount ≡ share.old.amount + 1)
            (λ _. share.new.amount ≡ share.old.amount) }
        ensures parts { share.new.parts ≡ share.old.parts }
    {
        reserve_both(&mut self.journal, mine)?;
        let (entry, (board, shown)) = taken_apart(alloc, next)?;
        if !self.front.push(&self.head, &entry) {
            return Err(AllocError);
        }
        let next = Published::new(shown, &self.front);
        show_through(&mut self.writer, &next);
        self.board = board;
        let number = entry.number;
        self.journal.push_reserved(entry);
        mine.push_reserved(number);
        self.total.add(share, 1);
        Ok(())
    }

    /// The refusal of a change whose model has another version now.
    fn stale(&self, alloc: Global, version: &NameVersion) -> CommitRefusal
        ensures { IsStale L.meanings self.now version.now result }
    {
        let Ok(model) = version.name.copy(alloc) else {
            return CommitRefusal::NoMemory;
        };
        let now = self.board.version(&version.name);
        match Arc::try_clone(&self.board) {
            Ok(board) => CommitRefusal::Stale {
                model,
                had: version.version,
                now,
                board,
            },
            Err(_) => CommitRefusal::NoMemory,
        }
    }

    /// Settles a prepared change of a seat.
    pub(crate) fn commit(
        &mut self,
        alloc: Global,
        seat: u32,
        mine: &mut Vec<u64>,
        share: &mut Share<L>,
        prepared: Prepared,
    ) -> Result<Reply, CommitRefusal>
        requires seat { seat < L.seats }
        requires part { 0 < share.old.parts }
        requires change { is_change prepared.call ≡ true }
        requires stands { IsPreparedWithin L.meanings self.old prepared }
        ensures commits { Commits L.meanings L.room self.old seat prepared mine.old.items
            result self.new mine.new.items }
        ensures own { IsPick mine.old.items (numbers_of seat self.old)
            → IsPick mine.new.items (numbers_of seat self.new) }
        ensures amount { share.new.amount + length mine.old.items
            ≡ share.old.amount + length mine.new.items }
        ensures parts { share.new.parts ≡ share.old.parts }
    {
        let _count = self.front.len();
        if let Some(version) = first_stale(prepared.versions.as_slice(), &self.board) {
            return Err(self.stale(alloc, version));
        }
        let Ok(outcome) = prepared.outcome(alloc, self.room, &self.board, seat) else {
            return Err(CommitRefusal::NoMemory);
        };
        let Outcome { reply, next } = outcome;
        match next {
            None => Ok(reply),
            Some(next) => match self.push(alloc, next, mine, share) {
                Ok(()) => Ok(reply),
                Err(_) => Err(CommitRefusal::NoMemory),
            },
        }
    }
}

// Merges the tokens' shares.
fn merge_all<L: Opening>(mut tokens: Vec<Token<L>>, all: &mut Share<L>)
    ensures parts { all.new.parts ≡ all.old.parts + length tokens.items }
    ensures amount { all.new.amount ≡ all.old.amount + total_length (mines tokens.items) }
{
    while let Some(token) = tokens.pop() {
        all.merge(token.into_share());
    }
}

impl<L: Opening, R: Wait + Drop> LockedJournal<L, R> {
    /// Whether what each token has seen begins the journal.
    pub(crate) fn covers_all(&self, tokens: &Vec<Token<L>>) -> bool
        ensures { IsTrue result → AreBegun self.now tokens.now.items (vec_len tokens.now) }
    {
        for token in tokens {
            if !self.covers(token.front()) {
                return false;
            }
        }
        true
    }

    /// Ends all tokens of the opening, and answers the length of the journal. No entry is left
    /// over.
    pub(crate) fn gather(&mut self, tokens: Vec<Token<L>>) -> u64
        requires parts { L.seats ≡ L.parts }
        requires all { vec_len tokens ≡ L.seats }
        requires order { SeatedFrom 0 tokens.items }
        requires within { AreBegun self.old tokens.items (vec_len tokens) }
        ensures same { self.new ≡ self.old }
        ensures length { result ≡ length self.old }
        ensures legal { Legal L.meanings L.room self.old }
        ensures gathered { Accounts self.old tokens.items }
    {
        let mut all = self.none.empty();
        merge_all(tokens, &mut all);
        self.total.audit(&mut all);
        self.front.len()
    }
}
