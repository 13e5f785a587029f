//! A beginning of the history that was seen.
ghost use Rattle.std.specs.Prelude.{◌≡◌, ◌<◌, ◌≤◌, ◌^◌, ◌++◌, ◌∷◌, [], length, MatchBool};
ghost use mathlib.Core.List.{IsPrefix};
ghost use Rattle.asm_board.specs.Answers.{Legal};
ghost use Rattle.asm_book.specs.Rules.{head_of};

use crate::opening::{Add, Law, Nothing, Opening};
use asm_board::Entry;
use logbook::{Offer, Seen, Word};
use std::marker::{Model, PhantomData};

/// The word that counts the history's entries.
#[derive(Drop)]
pub struct Head<L: Opening> {
    pub word: Word<Entry, u64, Law>,
    pub of: PhantomData<L>,
    ghost head_is: { word ≡ head_of L.history },
}

/// A beginning of the history that was seen, which is legal. Contracts see it as its entries.
#[derive(Drop)]
pub struct Front<L: Opening> {
    count: u64,
    seen: Seen<Entry, u64, Law>,
    of: PhantomData<L>,
}

impl<L: Opening> Model for Front<L> {
    ghost use Rattle.std.specs.Prelude.{◌≡◌, List, length};
    ghost use Rattle.asm_board.specs.declared.entry.Entry.{Entry};
    ghost use Rattle.asm_board.specs.Answers.{Legal};
    ghost use Rattle.std.specs.Coded.{codes};
    ghost use Rattle.asm_portable.specs.contracts.port.Port as port;

    ghost Value = { List Entry };

    ghost coded = { Prim.hlevel (codes, port.the_row.coded) };

    ghost view = { λ f. f.seen.log };

    ghost invariant = { λ f. (f.count ≡ length f.seen.log) × (f.seen.book ≡ L.history)
        × Legal L.meanings L.room f.seen.log };
}

impl<L: Opening> Head<L> {
    pub(crate) fn new(word: Word<Entry, u64, Law>) -> Head<L>
        requires { word ≡ head_of L.history }
    {
        Head {
            word,
            of: PhantomData,
        }
    }
}

impl<L: Opening> Front<L> {
    /// What was seen of a history that is empty.
    pub(crate) fn new(seen: Seen<Entry, u64, Law>) -> Front<L>
        requires { (seen.log ≡ []) × (seen.book ≡ L.history) }
        ensures { result ≡ [] }
    {
        Front {
            count: 0,
            seen,
            of: PhantomData,
        }
    }

    /// What was seen of a history that is legal.
    pub(crate) fn of(count: u64, seen: Seen<Entry, u64, Law>) -> Front<L>
        requires { (count ≡ length seen.log) × (seen.book ≡ L.history)
            × Legal L.meanings L.room seen.log }
        ensures { result ≡ seen.log }
    {
        Front {
            count,
            seen,
            of: PhantomData,
        }
    }

    pub(crate) fn seen(&self) -> Seen<Entry, u64, Law>
        ensures log { result.log ≡ self.now }
        ensures book { result.book ≡ L.history }
    {
        self.seen.again()
    }

    /// The number of its entries.
    pub fn len(&self) -> u64
        ensures length { result ≡ length self.now }
        ensures legal { Legal L.meanings L.room self.now }
    {
        self.count
    }

    /// A copy.
    pub fn again(&self) -> Front<L>
        ensures { result ≡ self.now }
    {
        Front {
            count: self.count,
            seen: self.seen.again(),
            of: PhantomData,
        }
    }

    /// Of two beginnings the shorter begins the longer.
    pub(crate) fn begins(&self, other: &Front<L>)
        requires { length self.now ≤ length other.now }
        ensures { IsPrefix self.now other.now }
    {
        let mut both = self.seen.again();
        both.learn(&other.seen);
    }

    /// Adds an entry to all that was seen, and says whether it did: not where the history is
    /// longer.
    pub(crate) fn push(&mut self, head: &Head<L>, entry: &Entry) -> bool
        requires room { length self.old < 2 ^ 62 }
        requires legal { Legal L.meanings L.room (self.old ++ entry.now ∷ []) }
        ensures { MatchBool result (self.new ≡ self.old ++ entry.now ∷ []) (self.new ≡ self.old) }
    {
        let mut seen = self.seen.again();
        let mut offer: Offer<Entry, u64, Law, Nothing> = seen.plain::<Nothing, Entry, Add>(entry);
        let mut pen = seen.no_pen();
        let count = self.count;
        let found = head
            .word
            .compare_exchange::<Add, Nothing>(count, count + 1, &mut seen, &mut offer, &mut pen);
        if found != count {
            return false;
        }
        self.seen = seen;
        self.count = count + 1;
        true
    }
}
