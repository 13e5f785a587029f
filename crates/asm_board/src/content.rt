//! Contents: what a model is at one version.
ghost use Rattle.std.specs.Prelude.{◌≡◌};
ghost use Rattle.asm_board.specs.Contents.{IsContent};

use asm_program::{Inv, Program};
use asm_state::State;
use asm_value::{List, Shared};
use std::marker::Model;

/// A program, its invariants with those that were added to them, and a state that weighs at most
/// 65,536 and in which each invariant holds. Contracts see it as these three.
#[derive(Drop)]
pub struct Content {
    program: Shared<Program>,
    invs: Shared<List<Shared<Inv>>>,
    state: Shared<State>,
}

impl Model for Content {
    ghost use Rattle.std.specs.Coded.{codes};
    ghost use Rattle.asm_value.specs.contracts.domain.Domain as domain;
    ghost use Rattle.asm_value.specs.contracts.value.Value as value;
    ghost use Rattle.asm_program.specs.contracts.trees.Term as term;
    ghost use Rattle.asm_program.specs.contracts.trees.Rule as rule;
    ghost use Rattle.asm_value.specs.contracts.location.Location as location;
    ghost use Rattle.asm_value.specs.Location.{location_cmp};
    ghost use Rattle.std.specs.FinMap as map;
    ghost use Rattle.asm_board.specs.Contents.{Contents, IsContent};

    ghost Value = { Contents };

    ghost coded = { Prim.hlevel (
      codes,
      domain.the_row.coded,
      value.the_row.coded,
      term.the_row.coded,
      rule.the_row.coded,
      map.code {R = location_cmp} location.the_row.coded value.the_row.coded,
    ) };

    ghost view = { λ c. record { program = c.program; invs = c.invs; state = c.state } };

    ghost invariant = { λ c. IsContent (record {
      program = c.program;
      invs = c.invs;
      state = c.state;
    }) };
}

impl Content {
    /// A program with these invariants in a state.
    pub fn new(
        program: Shared<Program>,
        invs: Shared<List<Shared<Inv>>>,
        state: Shared<State>,
    ) -> Content
        requires { IsContent (record { program = program; invs = invs; state = state }) }
        ensures { result ≡ record { program = program; invs = invs; state = state } }
    {
        Content {
            program,
            invs,
            state,
        }
    }

    /// Lends the program. Takes no memory.
    pub fn program(&self) -> &Shared<Program>
        ensures { result.now ≡ self.now.program }
    {
        &self.program
    }

    /// Lends the invariants: those of the program's text as far as they weren't dropped, in text
    /// order, and then those that were added. Takes no memory.
    pub fn invs(&self) -> &Shared<List<Shared<Inv>>>
        ensures { result.now ≡ self.now.invs }
    {
        &self.invs
    }

    /// Lends the state. Takes no memory.
    pub fn state(&self) -> &Shared<State>
        ensures state { result.now ≡ self.now.state }
        ensures whole { IsContent self.now }
    {
        &self.state
    }
}
