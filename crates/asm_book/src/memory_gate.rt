//! A gate in memory: it refuses the entrances that it is told to refuse, and tells its looks.
ghost use Rattle.std.specs.Prelude.{◌≡◌, ◌≤◌, ℕ, List, [], Some, None, true, false, is_none, if◌then◌else◌, option_map, IfOk, IfSome, MatchOption};
ghost use Rattle.std.specs.Arc.{arc_value};
ghost use mathlib.Core.List.{IsPrefix};
ghost use Rattle.asm_board.specs.Boards.{board_of};
ghost use Rattle.asm_book.specs.Faults.{Rose, next};
ghost use Rattle.asm_book.specs.Looks.{Looked, Passed, front_of, last_passed};
ghost use Rattle.asm_book.specs.MemoryGates.{is_full, is_shut, looked};

use crate::gate::{Gate, Look};
use crate::opening::Opening;
use crate::published::SeatReader;
use asm_board::Board;
use std::alloc::{AllocError, Global};
use std::marker::Model;
use std::sync::{Arc, Wait};

/// A gate that tells its looks until one has no room. That entrance and all later ones are refused,
/// and so are those that it is told to refuse.
#[derive(Drop)]
pub struct MemoryGate {
    looks: Vec<Look>,
    tells: bool,
    refusing: Vec<u64>,
    entrances: u64,
    faults: u64,
}

impl Model for MemoryGate {
    ghost use Rattle.std.specs.Prelude.{Some, None, if◌then◌else◌};
    ghost use Rattle.std.specs.Vec.{vec_capacity};
    ghost use Rattle.asm_book.specs.MemoryGates.{Watch};

    ghost Value = { Watch };

    ghost view = { λ g. record {
      looks = if g.tells then Some g.looks.items else None;
      room = vec_capacity g.looks;
      refusing = g.refusing.items;
      entrances = g.entrances;
      faults = g.faults;
    } };
}

impl MemoryGate {
    /// A gate with room for so many looks. Its entrances are counted from 0, and those in
    /// `refusing` are refused. Fails where memory runs out, and where `room` is more than memory
    /// can have.
    pub fn new(alloc: Global, room: u64, refusing: &[u64]) -> Result<MemoryGate, AllocError>
        ensures { IfOk result (λ g. g ≡ record {
          looks = Some [];
          room = room;
          refusing = refusing.now;
          entrances = 0;
          faults = 0;
        }) }
    {
        Ok(MemoryGate {
            looks: Vec::with_capacity(alloc, room as usize)?,
            tells: true,
            refusing: Vec::from_slice(alloc, refusing)?,
            entrances: 0,
            faults: 0,
        })
    }

    /// Its looks, in order, as long as it tells them.
    pub fn looks(&self) -> Option<&[Look]>
        ensures { option_map (λ looks. looks.now) result ≡ self.now.looks }
    {
        if self.tells {
            Some(self.looks.as_slice())
        } else {
            None
        }
    }

    /// How many entrances it has refused.
    pub fn faults(&self) -> u64
        ensures { result ≡ self.now.faults }
    {
        self.faults
    }

    fn is_full(&self) -> bool
        ensures { result ≡ is_full self.now.looks self.now.room }
    {
        !self.tells || self.looks.capacity() <= self.looks.len()
    }

    /// Whether it refuses the next entrance.
    fn is_shut(&self) -> bool
        ensures { result ≡ is_shut self.now }
    {
        self.is_full() || self.refusing.contains(&self.entrances)
    }

    /// A refused entrance. If its look has no room, it tells none from now on.
    fn refuse(&mut self)
        ensures later { self.old.faults ≤ self.new.faults }
        ensures counted { self.new ≡ record {
          looks = if is_full self.old.looks self.old.room then None else looked self.old.looks None;
          room = self.old.room;
          refusing = self.old.refusing;
          entrances = next self.old.entrances;
          faults = next self.old.faults;
        } }
    {
        if !self.is_full() {
            self.look(None);
            return;
        }
        self.tells = false;
        self.entrances = self.entrances.saturating_add(1);
        self.faults = self.faults.saturating_add(1);
    }

    /// One look more, with the front of the board that was given, if one was.
    fn look(&mut self, front: Option<u64>)
        requires { is_full self.old.looks self.old.room ≡ false }
        ensures later { self.old.faults ≤ self.new.faults }
        ensures counted { self.new ≡ record {
          looks = looked self.old.looks front;
          room = self.old.room;
          refusing = self.old.refusing;
          entrances = next self.old.entrances;
          faults = if is_none front then next self.old.faults else self.old.faults;
        } }
    {
        self.looks.push_reserved(Look {
            front,
            passed: false,
        });
        self.entrances = self.entrances.saturating_add(1);
        if front.is_none() {
            self.faults = self.faults.saturating_add(1);
        }
    }
}

impl Gate for MemoryGate {
    ghost faults = { λ g. g.faults };

    ghost looks = { λ g. g.looks };

    fn enter<L: Opening>(&mut self, reader: &mut SeatReader<L>) -> Option<Arc<Board>>
        ensures later { IsPrefix reader.old reader.new }
        ensures board { IfSome result (λ b. arc_value b ≡ board_of L.meanings reader.new) }
        ensures cause { MatchOption result
            (Rose self.old.faults self.new.faults) (λ _. self.old.faults ≤ self.new.faults) }
        ensures look { Looked self.old.looks self.new.looks result }

        // those that it is told to refuse, and those for whose look it has no room
        ensures shut { is_shut self.old ≡ true → (result ≡ None) × (reader.new ≡ reader.old) }
        // it tells each look for which it has room
        ensures tells { self.new.looks ≡ (if is_full self.old.looks self.old.room
            then None else looked self.old.looks (front_of result)) }
        ensures counted { self.new.entrances ≡ next self.old.entrances }
        ensures same { (self.new.room ≡ self.old.room) × (self.new.refusing ≡ self.old.refusing) }
    {
        if self.is_shut() {
            self.refuse();
            return None;
        }
        match reader.enter() {
            Some(board) => {
                self.look(Some(board.front()));
                Some(board)
            }
            None => {
                self.look(None);
                None
            }
        }
    }

    fn pass<R: Wait>(&mut self, rt: &R, seat: u32)
        ensures later { self.old.faults ≤ self.new.faults }
        ensures passed { Passed self.old.looks self.new.looks }

        ensures tells { self.new ≡ record {
          looks = option_map last_passed self.old.looks;
          room = self.old.room;
          refusing = self.old.refusing;
          entrances = self.old.entrances;
          faults = self.old.faults;
        } }
    {
        let _ = rt;
        let _ = seat;
        if let Some(look) = self.looks.pop() {
            self.looks.push_reserved(Look {
                front: look.front,
                passed: true,
            });
        }
    }
}
