//! Gates: how a seat enters the published board, and what is called between prepare and commit.
ghost use Rattle.std.specs.Prelude.{◌≡◌, ◌≤◌, ℕ, IfSome, MatchOption};
ghost use Rattle.std.specs.Arc.{arc_value};
ghost use mathlib.Core.List.{IsPrefix};
ghost use Rattle.asm_board.specs.Boards.{board_of};
ghost use Rattle.asm_book.specs.Faults.{Rose};
ghost use Rattle.asm_book.specs.Looks.{Looked, Passed};

use crate::opening::Opening;
use crate::published::SeatReader;
use asm_board::Board;
use std::sync::{Arc, Wait};

/// One entrance: the front of the board that was given, if one was, and whether the seat has
/// passed.
#[derive(Clone, Copy, Debug)]
pub struct Look {
    pub front: Option<u64>,
    pub passed: bool,
}

/// What a seat enters through. It counts the entrances that it refused; the count never falls. It
/// may tell its looks, in order.
pub trait Gate {
    ghost use Rattle.std.specs.Prelude.{ℕ, List, Option};
    ghost use Rattle.asm_book.specs.declared.gate.Look.{Look};

    ghost faults: { Self → ℕ };

    ghost looks: { Self → Option (List Look) };

    /// Enters once, with the reader of one seat, and gives what that gives: a board of its history
    /// after it, which begins with the history before. None is a refused entrance. Takes no memory.
    fn enter<L: Opening>(&mut self, reader: &mut SeatReader<L>) -> Option<Arc<Board>>
        ensures later { IsPrefix reader.old reader.new }
        ensures board { IfSome result (λ b. arc_value b ≡ board_of L.meanings reader.new) }
        ensures cause { MatchOption result
            (Rose (faults self.old) (faults self.new)) (λ _. faults self.old ≤ faults self.new) }
        ensures look { Looked (looks self.old) (looks self.new) result };

    /// Called between prepare and commit, with no lock held.
    fn pass<R: Wait>(&mut self, rt: &R, seat: u32)
        ensures later { faults self.old ≤ faults self.new }
        ensures passed { Passed (looks self.old) (looks self.new) };
}

/// The gate that enters by the reader and passes without doing anything. It tells no looks.
#[derive(Debug, Drop)]
pub struct Still {
    faults: u64,
}

impl Still {
    /// A gate that has refused nothing yet. Takes no memory.
    pub fn new() -> Still {
        Still { faults: 0 }
    }
}

impl Gate for Still {
    ghost use Rattle.std.specs.Prelude.{None};

    ghost faults = { λ s. s.faults };

    ghost looks = { λ s. None };

    fn enter<L: Opening>(&mut self, reader: &mut SeatReader<L>) -> Option<Arc<Board>> {
        match reader.enter() {
            Some(board) => Some(board),
            None => {
                self.faults = self.faults.saturating_add(1);
                None
            }
        }
    }

    fn pass<R: Wait>(&mut self, rt: &R, seat: u32) {
        let _ = rt;
        let _ = seat;
    }
}
