//! A maker some of whose calls fail.
ghost use Rattle.std.specs.Prelude.{◌≡◌, ◌<◌, ◌≤◌, [], true, false, replicate, Err, IfOk, if◌then◌else◌};
ghost use Rattle.std.specs.Arc.{arc_value};
ghost use Rattle.asm_board.specs.Boards.{empty_board};
ghost use Rattle.asm_book.specs.Faults.{Rose, is_to_fail, next};

use crate::front::Front;
use crate::opened::{MakeEnd, Maker, RealMaker, Snapshots};
use crate::opening::Opening;
use asm_board::Board;
use std::alloc::{AllocError, Global};
use std::marker::Model;
use std::sync::{Arc, Wait};

/// A maker that fails at the calls that it is told, and otherwise makes what the real one makes.
#[derive(Drop)]
pub struct FailingMaker {
    failing: Vec<u64>,
    calls: u64,
    faults: u64,
}

impl Model for FailingMaker {
    ghost use Rattle.asm_book.specs.FailingMakers.{Making};

    ghost Value = { Making };

    ghost view = { λ m. record { failing = m.failing.items; calls = m.calls; faults = m.faults } };
}

impl FailingMaker {
    /// A maker whose calls are counted from 0, and those in `failing` fail. Fails where memory runs
    /// out.
    pub fn new(alloc: Global, failing: &[u64]) -> Result<FailingMaker, AllocError>
        ensures { IfOk result (λ m. m ≡ record { failing = failing.now; calls = 0; faults = 0 }) }
    {
        Ok(FailingMaker {
            failing: Vec::from_slice(alloc, failing)?,
            calls: 0,
            faults: 0,
        })
    }

    /// How many calls failed.
    pub fn faults(&self) -> u64
        ensures { result ≡ self.now.faults }
    {
        self.faults
    }

    /// Counts a call, and says whether it fails.
    fn fails(&mut self) -> bool
        ensures fails { result ≡ is_to_fail self.old.failing self.old.calls }
        ensures later { self.old.faults ≤ self.new.faults }
        ensures counted { self.new ≡ record {
          failing = self.old.failing;
          calls = next self.old.calls;
          faults = if result then next self.old.faults else self.old.faults;
        } }
    {
        let fails = self.failing.contains(&self.calls);
        self.calls = self.calls.saturating_add(1);
        if fails {
            self.faults = self.faults.saturating_add(1);
        }
        fails
    }
}

impl Maker for FailingMaker {
    ghost faults = { λ m. m.faults };

    fn make<L: Opening, R: Wait>(
        &mut self,
        rt: &R,
        alloc: Global,
        front: &Front<L>,
        board: Arc<Board>,
        seats: u32,
    ) -> Result<Snapshots<L>, MakeEnd>
        requires board { (front.now ≡ []) × (arc_value board ≡ empty_board) }
        requires seats { (0 < seats) × (seats ≤ 64) }
        ensures shown { IfOk result (λ s. s.writer.desk.shown.value.log ≡ []) }
        ensures readers { IfOk result (λ s. s.readers.items ≡ replicate seats []) }
        ensures cause { result ≡ Err MakeEnd.Failed → Rose self.old.faults self.new.faults }
        ensures later { self.old.faults ≤ self.new.faults }

        // exactly the calls that are to fail do
        ensures fails { is_to_fail self.old.failing self.old.calls ≡ true
            → result ≡ Err MakeEnd.Failed }
        ensures only { result ≡ Err MakeEnd.Failed
            → is_to_fail self.old.failing self.old.calls ≡ true }
        ensures counted { self.new ≡ record {
          failing = self.old.failing;
          calls = next self.old.calls;
          faults = if is_to_fail self.old.failing self.old.calls
              then next self.old.faults else self.old.faults;
        } }
    {
        if self.fails() {
            return Err(MakeEnd::Failed);
        }
        match RealMaker::new().make(rt, alloc, front, board, seats) {
            Ok(snapshots) => Ok(snapshots),
            Err(_) => Err(MakeEnd::NoMemory),
        }
    }
}
