//! Which opening a token is of, and the rule of its history.
ghost use Rattle.std.specs.Prelude.{◌≡◌, [], ℕ};
ghost use Rattle.asm_book.specs.Rules.{head_of};

use crate::front::{Front, Head};
use asm_board::Entry;
use logbook::{Gain, Plain, Play, Rule, Seen, Start, Word};
use std::marker::Brand;
use std::sync::ledger::{Blank, Ledger};

/// The rule of the history.
pub struct Law;

impl Rule<Entry, u64> for Law {
    ghost use Rattle.std.specs.Prelude.{[]};
    ghost use base.Fml.{ftrue};
    ghost use Rattle.asm_book.specs.Rules.{IsKept};

    ghost holds = { λ cells log. IsKept cells log };

    ghost first = { [] };

    ghost hinted = { λ n log. Unit {0} };

    ghost shows = { λ log. [] };

    ghost keeps = { λ names log. ftrue };

    ghost moves = { λ ask before after answer. Unit {0} };
}

/// Callers trade nothing.
pub(crate) struct Nothing;

impl Gain<Entry, u64> for Nothing {
    ghost use base.Fml.{ftrue};

    ghost after = { λ names about answer. ftrue };
}

/// A step that adds an entry.
pub(crate) struct Add;

impl Play<Entry, u64> for Add {
    ghost use Rattle.asm_book.specs.Rules.{Adds};

    ghost then = { Adds };
}

impl Plain<Entry, Entry, u64> for Add {
    ghost use Rattle.std.specs.Prelude.{None};

    ghost ask = { λ entry. entry };

    ghost state = { λ entry. None };
}

/// One opening of a book: its ledger, its history, its seats and its room, and what texts mean
/// there. It has no value; a program opens its book inside a function over an opening, and calls
/// that with `Brand`.
pub trait Opening: Ledger {
    ghost use Rattle.logbook.specs.Pages.{Book};
    ghost use Rattle.asm_board.specs.Meanings.{Meanings};

    ghost meanings: { Meanings };

    ghost history: { Book };

    ghost seats: { ℕ };

    ghost room: { ℕ };
}

impl Opening for Brand {
    ghost use Rattle.std.specs.Prelude.{[], Err};
    ghost use Rattle.std.specs.FinMap as map;
    ghost use Rattle.asm_value.specs.UpdateSet as set;
    ghost use Rattle.asm_program.specs.Initial.{Starts};
    ghost use Rattle.asm_program.specs.Yields.{Yields};

    ghost meanings = { record {
      program_of = λ source. Err (record { kind = []; more = []; line = 0; column = 0 });
      term_of = λ program wanted source.
          Err (record { kind = []; more = []; line = 0; column = 0 });
      canonical = λ source. [];
      initial = λ program. Starts map.empty;
      yields = λ program state pick. Yields set.empty [];
    } };

    ghost history = { record { number = 0; log_name = 0; cells_name = 0 } };

    ghost seats = { 0 };

    ghost room = { 0 };
}

/// What an opening is made of: a ledger with one part a seat, and an empty history. It takes no
/// memory.
pub struct Unopened {
    pub blank: Blank,
    pub head: Word<Entry, u64, Law>,
    pub seen: Seen<Entry, u64, Law>,
    pub ghost empty: { seen.log ≡ [] },
    pub ghost head_is: { head ≡ head_of seen.book },
}

impl Unopened {
    pub fn new(seats: u32) -> Unopened
        ensures { result.blank.parts ≡ seats }
    {
        let (seen, mut first, _second) = Seen::open(Start::alone(), 0, 0);
        Unopened {
            blank: Blank::new(u64::from(seats)),
            head: Word::tracked(0, &mut first),
            seen,
        }
    }
}

impl Unopened {
    /// Its parts under the name of an opening.
    pub(crate) fn named<L: Opening>(self) -> (Blank, Head<L>, Front<L>)
        requires { self.seen.book ≡ L.history }
        ensures front { result.2 ≡ [] }
        ensures blank { (result.0.name ≡ self.blank.name) × (result.0.parts ≡ self.blank.parts) }
    {
        let Unopened { blank, head, seen } = self;
        (blank, Head::new(head), Front::new(seen))
    }
}
