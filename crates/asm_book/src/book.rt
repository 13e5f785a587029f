//! The book: the journal under its lock.
ghost use Rattle.std.specs.Prelude.{◌≡◌, ◌+◌, ◌-◌, ◌^◌, ◌≤◌, List, ◌<◌, take, drop, min, length, vec_len, true};
ghost use Rattle.std.specs.Sync.Mutex.{mutex_guard_value};
ghost use mathlib.Core.List.{IsPrefix};
ghost use Rattle.asm_board.specs.declared.entry.Entry.{Entry};
ghost use Rattle.asm_board.specs.Boards.{board_of};
ghost use Rattle.asm_board.specs.Answers.{Legal};
ghost use Rattle.asm_book.specs.Commits.{Commits, IsPreparedWithin};
ghost use Rattle.asm_board.specs.Calls.{is_change};
ghost use Rattle.asm_book.specs.Journals.{entries_in};
ghost use Rattle.asm_book.specs.Gathered.{Accounts, SeatedFrom, AreBegun};

use crate::front::Front;
use crate::locked::LockedJournal;
use crate::opening::Opening;
use crate::refusal::CommitRefusal;
use crate::token::Token;
use asm_board::{Board, Entry, Prepared, Reply};
use std::alloc::Global;
use std::sync::{Mutex, MutexGuard, Wait};

/// One journal of several seats.
#[derive(Drop)]
pub struct Book<L: Opening, R: Wait + Drop> {
    pub(crate) journal: Mutex<LockedJournal<L, R>>,
}

impl<L: Opening, R: Wait + Drop> Book<L, R> {
    /// Takes the lock. What was seen begins the journal that is held.
    pub(crate) fn lock_after<'a, W: Wait>(
        &'a self,
        rt: &W,
        seen: &Front<L>,
    ) -> MutexGuard<'a, LockedJournal<L, R>>
        ensures later { IsPrefix seen.now (mutex_guard_value result) }
        ensures legal { Legal L.meanings L.room (mutex_guard_value result) }
    {
        for _ in rt.forever() {
            let journal = self.journal.lock(rt);
            if journal.covers(seen) {
                return journal;
            }
        }
        unreachable!()
    }
}

impl<L: Opening, R: Wait + Drop> Book<L, R> {
    // Takes the lock. What each token has seen begins the journal that is held.
    fn lock_over<'a, W: Wait>(
        &'a self,
        rt: &W,
        tokens: &Vec<Token<L>>,
    ) -> MutexGuard<'a, LockedJournal<L, R>>
        ensures { AreBegun (mutex_guard_value result) tokens.now.items (vec_len tokens.now) }
    {
        for _ in rt.forever() {
            let journal = self.journal.lock(rt);
            if journal.covers_all(tokens) {
                return journal;
            }
        }
        unreachable!()
    }
}

/// Ends all tokens of an opening, in the order of their seats, and answers the length of its one
/// journal. It waits for the lock.
pub fn gather<L: Opening, R: Wait + Drop, W: Wait>(
    rt: &W,
    book: &Book<L, R>,
    tokens: Vec<Token<L>>,
) -> u64
    requires parts { L.seats ≡ L.parts }
    requires all { vec_len tokens ≡ L.seats }
    requires order { SeatedFrom 0 tokens.items }
    ensures { (journal : List Entry) × (length journal ≡ result)
        × Legal L.meanings L.room journal × Accounts journal tokens.items }
{
    let mut guard = book.lock_over(rt, &tokens);
    let journal = &mut *guard;
    journal.gather(tokens)
}

impl<L: Opening> Token<L> {
    /// Settles a prepared change at the journal as it is when the lock is taken, for which it
    /// waits. `Stale` where a model that it speaks of has another version there, with the board;
    /// else its reply, with which an accepted change is one more entry of this seat. `NoMemory`
    /// where memory is wanting: then neither the journal nor the seat's own entries have changed.
    pub fn commit<R: Wait + Drop, W: Wait>(
        &mut self,
        rt: &W,
        alloc: Global,
        book: &Book<L, R>,
        prepared: Prepared,
    ) -> Result<Reply, CommitRefusal>
        requires change { is_change prepared.call ≡ true }
        requires stands { IsPreparedWithin L.meanings self.old.history prepared }
        ensures settled { (journal : List Entry) × Legal L.meanings L.room journal
            × IsPrefix self.old.history journal
            × Commits L.meanings L.room journal self.old.seat prepared self.old.mine
            result self.new.history self.new.mine }
        ensures same { (self.new.seat ≡ self.old.seat) × (self.new.holds ≡ self.old.holds) }
    {
        let mut guard = book.lock_after(rt, self.front());
        let journal = &mut *guard;
        self.commit_at(alloc, journal, prepared)
    }

    /// Takes the lock, for which it waits. The history that was seen is then the held journal.
    pub fn hold<'a, R: Wait + Drop, W: Wait>(
        &mut self,
        rt: &W,
        book: &'a Book<L, R>,
    ) -> Held<'a, L, R>
        ensures later { IsPrefix self.old.history self.new.history }
        ensures held { mutex_guard_value result.journal ≡ self.new.history }
        ensures same { (self.new.seat ≡ self.old.seat) × (self.new.mine ≡ self.old.mine) }
        ensures counted { self.new.holds ≡ min (self.old.holds + 1) (2 ^ 64 - 1) }
    {
        let journal = book.lock_after(rt, self.front());
        self.catch_up(journal.front());
        Held { journal }
    }
}

/// The book's lock, held.
#[derive(Drop)]
pub struct Held<'a, L: Opening, R: Wait + Drop> {
    pub(crate) journal: MutexGuard<'a, LockedJournal<L, R>>,
}

impl<'a, L: Opening, R: Wait + Drop> Held<'a, L, R> {
    /// The newest board.
    pub fn board(&self) -> &Board
        ensures { result.now ≡ board_of L.meanings (mutex_guard_value self.now.journal) }
    {
        &**self.journal.board()
    }

    /// The entries of the held journal with so many numbers from this one on, those that exist. The
    /// first entry has the number 1.
    pub fn entries(&self, from: u64, count: u64) -> &[Entry]
        ensures { result.now ≡ entries_in from count (mutex_guard_value self.now.journal) }
    {
        self.journal.entries(from, count)
    }

    /// Settles a prepared change of the token that holds, at the held journal. The answers are
    /// those of `Token::commit`.
    pub fn commit(
        &mut self,
        alloc: Global,
        token: &mut Token<L>,
        prepared: Prepared,
    ) -> Result<Reply, CommitRefusal>
        requires held { mutex_guard_value self.old.journal ≡ token.old.history }
        requires change { is_change prepared.call ≡ true }
        requires stands { IsPreparedWithin L.meanings token.old.history prepared }
        ensures held { mutex_guard_value self.new.journal ≡ token.new.history }
        ensures settled { Commits L.meanings L.room token.old.history token.old.seat prepared
            token.old.mine result token.new.history token.new.mine }
        ensures same { (token.new.seat ≡ token.old.seat) × (token.new.holds ≡ token.old.holds) }
    {
        let journal = &mut *self.journal;
        token.commit_at(alloc, journal, prepared)
    }
}

/// Two tokens of one opening: afterwards the other has seen what both had seen. Takes no memory.
pub fn meet<L: Opening>(one: &mut Token<L>, other: &mut Token<L>)
    ensures theirs { IsPrefix one.old.history other.new.history
        × IsPrefix other.old.history other.new.history }
    ensures mine { one.new ≡ one.old }
    ensures same { (other.new.seat ≡ other.old.seat) × (other.new.mine ≡ other.old.mine)
        × (other.new.holds ≡ other.old.holds) }
{
    other.learn(one.front())
}
